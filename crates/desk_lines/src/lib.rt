//! The lines of a desk's log: what came, what was found and changed for it, and what else there is to tell, as words and as objects of JSON.
#![tactic(auto)]

mod arrival_objects;
mod arrival_texts;
mod command_texts;
mod event_lines;
mod failures;
mod frame_texts;
mod members;
mod refused_texts;
mod request_texts;

pub use arrival_objects::arrival_members;
pub use arrival_texts::{arrival_text, is_of_note};
pub use event_lines::{Backup, backup_line, lost_line, moment_text, stamped, unstamped_line};
pub use failures::Failures;
pub use members::Members;
