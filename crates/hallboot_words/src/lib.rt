//! The command line of the desk's program: each command with its options and what it asks for in a file of its own, the files that options
//! name, and why a fault came.
#![tactic(auto)]

mod adopt;
mod backup;
mod command_line;
mod common;
mod explaining;
mod failure;
mod frame;
mod import;
mod init;
mod job;
mod named_files;
mod report;
mod request;
mod serve;
mod servers;

pub use adopt::{Adopt, Running};
pub use backup::HallCopy;
pub use command_line::{read, wants_reason};
pub use explaining::reason;
pub use failure::{Failure, because, fault_of, refused};
pub use frame::Frame;
pub use import::{Bearer, Import};
pub use init::Init;
pub use job::{AdoptTask, ImportTask, Job, Task};
pub use request::Request;
pub use serve::{BackupPlan, Serving, has_json_errors};
