//! What comes to the desk and what it answers: events, commands with their texts, and answers with theirs.
#![tactic(auto)]

mod command;
mod command_value;
mod event;
mod laws;
mod list_text;
mod machine_list;
mod machine_text;
mod machine_value;
mod member;
mod plain_text;
mod reply;

pub use command::{CommandKind, HallCommand, MachineCommand, MachineKind};
pub use event::Event;
pub use laws::{different_answers, one_text};
pub use machine_list::MachineList;
pub use reply::{BodyKind, Reply};
