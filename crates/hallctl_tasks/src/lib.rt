//! The operator's client: what it asks of the desk, tried again until there is an answer, and what it prints.
#![tactic(auto)]

mod answer;
mod changes;
mod desk;
mod desk_fault;
mod dial;
mod dry_run;
mod end;
mod exchanging;
mod finding;
mod hall_entries;
mod hall_lines;
mod halls;
mod hello;
mod helping;
mod host;
mod importing;
mod keys;
mod listings;
mod looks;
mod new_operator;
mod order_answers;
mod output;
mod sending;
mod session;
mod socket;
mod surroundings;
mod waiting;

pub use answer::{Answer, Exchanged, Strange};
pub use dial::{Attempt, Dial, Why};
pub use end::{TaskEnd, TaskFault};
pub use exchanging::{Patience, exchange};
pub use host::Host;
pub use output::goes_on_text;
pub use session::carry_out;
pub use surroundings::Surroundings;
