//! What the desk decides: each answer to a machine, as a pure function of the rows of one machine.
#![tactic(auto)]

mod answering;
mod class;
mod fault;
mod fetching;
mod following;
mod frames;
mod laws;
mod promises;
mod reporting;
mod sweeping;
mod texts;
mod views;

pub use answering::order_answer;
pub use class::{ScriptClass, script_for};
pub use fault::{DeskFault, Verdict};
pub use fetching::fetch;
pub use following::{entry_rows, machine_row};
pub use frames::{Decision, FrameView, Silence, enlist, frame};
pub use laws::{decisions_keep_halls_sound, new_halls_are_sound};
pub use promises::{
    answers_count_once, deploying_texts, erasing_texts, local_boot, reports_count_once,
};
pub use reporting::report;
pub use sweeping::sweep;
pub use texts::script_text;
pub use views::{BootView, OrderView, ReportView};
