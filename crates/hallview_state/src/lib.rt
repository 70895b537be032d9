//! What is known of halls from their desks' lists: machines, their moves, orders that wait, and the statuses of the last day. And what is
//! shown of it: which machines a query asks for, what is in trouble, and what to do about it; metrics, and the state as JSON.
#![tactic(auto)]

mod choice;
mod exposition;
mod families;
mod hall;
mod history;
mod json;
mod kinds;
mod life_cycle_ways;
mod list;
mod listed;
mod loss;
mod moves;
mod orders;
mod pools;
mod query;
mod reading;
mod received;
mod rows;
mod samples;
mod state;
mod statuses;
pub mod text;
mod trouble_groups;
mod view;
mod waiting;
mod ways;

pub use choice::{Column, Order, Row, chosen, order_of};
pub use exposition::metrics;
pub use hall::Hall;
pub use history::{SLOT, STATUSES, Sample, counts_of};
pub use json::state_json;
pub use kinds::{StatusKind, is_passed, limit_of, order_kind, orders_follow_status};
pub use life_cycle_ways::LifeCycle;
pub use list::List;
pub use listed::Listed;
pub use loss::Loss;
pub use moves::{Move, moves_between};
pub use orders::Seen;
pub use pools::{PoolCounts, count_at, pools_of};
pub use query::{Field, Query, url_word};
pub use reading::list_of;
pub use received::Received;
pub use rows::or_dash;
pub use state::State;
pub use statuses::{advice, words_for};
pub use trouble_groups::{Cause, Group};
pub use view::{Total, View, Work};
pub use waiting::{Waiting, waiting_orders};
pub use ways::{Ways, moves_are_counted};
