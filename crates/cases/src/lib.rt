//! Case files, and how programs play them. A case has a name; under it stands what is done, an act a line, and under each act what must
//! come of it:
//!
//! ```text
//! == a pool is added
//! # Each operator may see it, and members may use it.
//! command 1000 abc {"key":"00000000-0000-4000-8000-000000000001","command":"add_pool","pool":"east"}
//! = 200 {}
//! ```
//!
//! A line that begins `== ` is the name of the case that begins there, one that begins `= ` the first line of what must come, and one that
//! begins with two blanks a further line of it. Empty lines and those that begin with `#` are for readers. Each other line is an act. An
//! act of which nothing must come has no such lines.
//!
//! A program plays the files that its arguments name, prints what differs, and at the end how many cases and acts there were and how many
//! differed. Beside that are what cases of all programs have in common: notations of octets; readers and writers that fail; memory that
//! ends.
#![tactic(auto)]

mod comparing;
mod ends;
mod escapes;
mod fault;
mod lines;
mod memory;
mod playing;
mod printing;
mod words;

pub use comparing::Comparison;
pub use ends::{Short, Slow};
pub use escapes::{octets_of, string_of, text_of};
pub use fault::{CaseFault, Played};
pub use lines::{CaseFile, Line, lines_of};
pub use memory::{hold_all_but, hold_within};
pub use playing::{Player, files_of, play_cases, play_named};
pub use printing::Out;
pub use words::{first, halves, number, parsed};
