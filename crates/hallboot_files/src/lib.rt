//! The files of a hall as the system has them: which file a path leads to, whether the one that is served is still there, copies, and what
//! is put aside for another. What they hold is for others.
#![tactic(auto)]

mod aside;
mod beginnings;
mod copies;
mod holding;
mod identity;
mod kept;
mod moment;
mod places;
mod rights;
mod served_file;

pub use aside::put_aside;
pub use beginnings::{is_foreign, is_no_file, is_unfinished};
pub use copies::{Joining, copy, put_in_place, write_copy};
pub use holding::{Held, hold};
pub use identity::FileIdentity;
pub use kept::Keeping;
pub use moment::{changed_at, copied_at, now_seconds, now_text};
pub use places::{BESIDE, LOG, new_file, remove_with_beside, sync_folder, with_end};
pub use rights::first_open_to_others;
pub use served_file::ServedFile;
