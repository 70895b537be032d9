//! What a task uses besides the desk: the operator's terminal, the environment, files and random octets.
use crate::dial::Dial;
use hallctl_requests::DeskAddress;
use halls_file::FileFault;
use std::alloc::{AllocError, Global};

/// What a task uses: the way to the desk, and what is about it.
pub trait Surroundings: Dial {
    /// Turns the way to the desk at this address, to which the next try goes.
    fn turn_to(&mut self, alloc: Global, address: &DeskAddress) -> Result<(), AllocError>;

    /// The value of a variable of the environment, if it has one that is UTF-8.
    fn variable(&mut self, alloc: Global, name: &str) -> Result<Option<String>, AllocError>;

    /// Writes a text to standard output, and says whether all of it was written.
    fn print(&mut self, text: &str) -> bool;

    /// Writes a text to standard error, if that can be.
    fn eprint(&mut self, text: &str);

    /// Whether standard output is a terminal.
    fn is_screen(&self) -> bool;

    /// The seconds since 1970, if the system's clock says them.
    fn moment(&mut self) -> Option<u64>;

    /// Whether standard error is a terminal.
    fn is_watched(&self) -> bool;

    /// Whether standard input is a terminal.
    fn can_ask(&self) -> bool;

    /// Whether the next line of standard input is `yes` or `y`.
    fn is_agreed(&mut self, alloc: Global) -> bool;

    /// How many milliseconds have passed since the line began, or since time was last counted anew.
    fn idle(&mut self) -> u64;

    /// Counts time anew, from an answer of the desk or of the operator on.
    fn count_anew(&mut self);

    /// Random octets. `None` where the system gives none.
    fn fresh(&mut self) -> Option<[u8; 32]>;

    /// The octets of a file. `-` is standard input.
    fn octets_of(&mut self, alloc: Global, path: &str) -> Result<Vec<u8>, FileFault>;

    /// Whether others than its owner can read a file.
    fn is_open_to_others(&mut self, path: &str) -> bool;

    /// Whether there is a file.
    fn has_file(&mut self, path: &str) -> bool;

    /// Makes a file of the octets that only its owner may read.
    fn make_file(&mut self, path: &str, octets: &[u8]) -> Result<(), FileFault>;

    /// Gives a file another name, if none has it.
    fn rename_file(&mut self, from: &str, to: &str) -> Result<(), FileFault>;

    /// Adds a text to the end of a file that only its owner may read, which is made if there is none.
    fn add_to_file(&mut self, path: &str, text: &str) -> Result<(), FileFault>;
}
