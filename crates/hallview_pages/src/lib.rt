//! What hallview answers: pages of halls and of machines, metrics and JSON, as functions of what is known of the halls.
#![tactic(auto)]

mod ages;
mod answer;
mod commands;
mod counts;
mod day;
mod fields;
mod filter;
mod halls_page;
mod links;
mod machine;
mod machines;
mod markup;
mod overview;
mod parts;
mod script;
mod style;
mod trouble;
mod value;
mod whole;
mod work;

pub use answer::{Answer, Asked, Kind, answer_to};
pub use fields::Field;
