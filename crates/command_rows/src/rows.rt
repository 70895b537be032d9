//! The rows of a command line: the program, its commands and their options.
use std::alloc::{AllocError, Global};

/// How an option is given.
#[derive(Clone, Copy, PartialEq, Eq)]
pub enum Shape {
    /// It has to be given, once.
    Always,
    /// It may be given, once.
    Maybe,
    /// It has to be given where the option with this name isn't.
    Unless(&'static str),
    /// It has this value where it isn't given.
    OrElse(&'static str),
    /// As often as is wanted.
    Often,
    /// Without a value.
    Flag,
    /// By its place.
    Place,
    /// By its place, one or more.
    Places,
}

/// An option of a command: `..OptionRow::ALWAYS` and the like say what most have in common.
#[derive(Clone, Copy)]
pub struct OptionRow {
    pub name: &'static str,
    /// What the help calls its value.
    pub value: &'static str,
    pub help: &'static str,
    /// What its value must be, as a fault says it.
    pub must: &'static str,
    pub shape: Shape,
    /// Whether no fault may print its value.
    pub is_secret: bool,
}

impl OptionRow {
    /// One that may be given.
    pub const MAYBE: OptionRow = OptionRow {
        name: "",
        value: "",
        help: "",
        must: "",
        shape: Shape::Maybe,
        is_secret: false,
    };

    /// One that has to be given.
    pub const ALWAYS: OptionRow = OptionRow {
        shape: Shape::Always,
        ..OptionRow::MAYBE
    };

    /// One that is given by its place.
    pub const PLACE: OptionRow = OptionRow {
        shape: Shape::Place,
        ..OptionRow::MAYBE
    };

    /// One without a value.
    pub const FLAG: OptionRow = OptionRow {
        shape: Shape::Flag,
        ..OptionRow::MAYBE
    };

    /// Whether it is given by its place, and not by its name.
    pub fn is_place(&self) -> bool {
        matches!(self.shape, Shape::Place | Shape::Places)
    }

    /// As it is written: `--pool`, or `MACHINE` for one that is given by its place.
    pub fn written(&self, alloc: Global) -> Result<String, AllocError> {
        if self.is_place() {
            return String::from_str(alloc, self.value);
        }
        let name = self.name;
        format!(in alloc; "--{name}")
    }

    /// Its value where it isn't given.
    pub(crate) fn default(&self) -> Option<&'static str> {
        match self.shape {
            Shape::OrElse(value) => Some(value),
            _ => None,
        }
    }
}

/// A command: its own options in the order of its help, and then those that it shares with others.
#[derive(Clone, Copy)]
pub struct CommandRow {
    pub name: &'static str,
    pub about: &'static str,
    /// What its help ends with.
    pub example: &'static str,
    pub options: &'static [&'static OptionRow],
    pub common: &'static [&'static OptionRow],
}

/// A program: what its help and `--version` say, the options that may be given before a command, and the commands in the order of its
/// help.
#[derive(Clone, Copy)]
pub struct Front<'r> {
    pub name: &'static str,
    pub version: &'static str,
    pub about: &'static str,
    /// What its help ends with.
    pub after: &'static str,
    pub options: &'static [&'static OptionRow],
    pub commands: &'r [CommandRow],
    pub needs_command: bool,
}
