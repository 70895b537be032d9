//! What the desk's answers say to the operator's client, and the texts that it prints: of answers, listings, refusals, and of what erases
//! or deletes.
#![tactic(auto)]

mod acts;
mod answer_fault;
mod answer_lines;
mod answers;
mod choosing;
mod columns;
mod dangers;
mod json;
mod listed_replies;
mod listings;
mod machine_texts;
mod machine_value;
mod member_texts;
mod members;
mod table;

pub use acts::allowed_text;
pub use answer_fault::AnswerFault;
pub use answer_lines::{deleted_line, done_line, refusal_line, state_line, subject};
pub use answers::{DeskAnswer, MachineState, Question, desk_answer};
pub use choosing::{Choice, chosen};
pub use columns::Column;
pub use dangers::{is_dangerous, total_text, version_of, warning, with_version};
pub use json::value_of;
pub use listings::{Filter, ListedMachine, lets_through, listed};
pub use machine_texts::{
    holder_of, machine_ids, machine_json, machine_numbered, machine_table, machine_with,
};
pub use machine_value::{machine_in, push_interfaces};
pub use member_texts::{machine_lines, order_table};
pub use members::state_at;
