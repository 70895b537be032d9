//! Scripts for iPXE (<https://ipxe.org/scripting>): the few commands that a boot server needs, printed in
//! one spelling and read from that spelling alone.
#![tactic(auto)]

mod command;
mod fault;
mod law;
mod print;
mod reading;
mod script;
mod word;
mod words;

pub use command::{Command, MAX_COMMANDS, MAX_WORDS};
pub use fault::{ScriptFault, WordFault};
pub use law::{one_spelling, purpose_is_argument, words_have_no_separators};
pub use reading::read;
pub use script::Script;
pub use word::{MAX_WORD_LEN, Uri, Word};
pub use words::Words;
