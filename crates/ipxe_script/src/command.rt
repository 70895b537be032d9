//! Commands of a script.
ghost use Rattle.std.specs.Prelude.{◌≡◌, ◌↔◌, IsTrue, IfOk, MatchBool};
ghost use Rattle.ipxe_script.specs.Script.{IsWhole, IsBareEcho, HasTooManyWords};

use crate::word::Uri;
use crate::words::Words;
use std::alloc::{AllocError, Global};

/// A command, which takes one line of a script (<https://ipxe.org/cmd>).
#[derive(Drop)]
pub enum Command {
    /// Fetches a kernel, which `Boot` starts with these arguments.
    Kernel { uri: Uri, args: Words },
    /// Fetches an initial ramdisk.
    Initrd { uri: Uri },
    /// Starts the kernel that was fetched.
    Boot,
    /// Ends the script.
    Exit,
    /// Boots from the first disk: `sanboot --no-describe --drive 0x80`.
    Sanboot,
    /// Prints a line, which has at least one word.
    Echo { words: Words },
    /// Turns the machine off.
    Poweroff,
}

/// The maximum number of commands of a script.
pub const MAX_COMMANDS: usize = 32;

/// The maximum number of words of a line, the command's name among them.
pub const MAX_WORDS: usize = 32;

impl Command {
    // The types ensure all but that an echo has a word. Reading the fields makes what they ensure
    // known to the proof.
    pub(crate) fn is_whole(&self) -> bool
        ensures { MatchBool result (IsWhole self.now) (IsBareEcho self.now) }
    {
        match self {
            Command::Kernel { uri, args } => {
                let _ = uri.text();
                let _ = args.as_slice();
                true
            }
            Command::Initrd { uri } => {
                let _ = uri.text();
                true
            }
            Command::Echo { words } => !words.as_slice().is_empty(),
            _ => true,
        }
    }

    pub(crate) fn has_too_many_words(&self) -> bool
        ensures { IsTrue result ↔ HasTooManyWords self.now }
    {
        match self {
            Command::Kernel { args, .. } => args.as_slice().len() > MAX_WORDS - 2,
            Command::Echo { words } => words.as_slice().len() > MAX_WORDS - 1,
            _ => false,
        }
    }

    /// Copies the command.
    pub fn copy(&self, alloc: Global) -> Result<Command, AllocError>
        ensures { IfOk result (λ copy. copy ≡ self.now) }
    {
        match self {
            Command::Kernel { uri, args } => {
                let uri = uri.copy(alloc)?;
                let args = args.copy(alloc)?;
                Ok(Command::Kernel { uri, args })
            }
            Command::Initrd { uri } => {
                let uri = uri.copy(alloc)?;
                Ok(Command::Initrd { uri })
            }
            Command::Boot => Ok(Command::Boot),
            Command::Exit => Ok(Command::Exit),
            Command::Sanboot => Ok(Command::Sanboot),
            Command::Echo { words } => {
                let words = words.copy(alloc)?;
                Ok(Command::Echo { words })
            }
            Command::Poweroff => Ok(Command::Poweroff),
        }
    }
}
