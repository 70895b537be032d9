//! The commands of operators: who may send them, when they are refused, and what they make of a hall, as pure functions
//! of the rows that a command names.
#![tactic(auto)]

mod action;
mod boots;
mod cause;
mod clients;
mod commanding;
mod commands;
mod effects;
mod images;
mod laws;
mod machine_commands;
mod named;
mod sending;
mod view;

pub use boots::{boot_view, expired_view, order_view, report_view, view_at};
pub use clients::frame_view;
pub use commanding::{command, repeated};
pub use commands::{command_view, sender};
pub use laws::commands_keep_halls_sound;
pub use sending::may_send;
pub use view::CommandView;
