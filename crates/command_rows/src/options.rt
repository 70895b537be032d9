//! What the words of a command line say.
use crate::parser::parser;
use crate::rows::{Front, OptionRow, Shape};
use crate::usage::Usage;
use crate::wrong::Wrong;
use clap::{ArgMatches, Error};
use std::alloc::{AllocError, Global};
use std::str::FromStr;

// A text of an option that was given, none of a flag.
#[derive(Clone, Copy)]
struct Given<'a> {
    name: &'static str,
    text: Option<&'a str>,
}

/// The command of a command line, and the texts of its options, given or by default. An option that stands before the command counts as the
/// command's, after those that stand behind it.
#[derive(Drop)]
pub struct Options<'a> {
    alloc: Global,
    command: Option<&'a str>,
    given: Vec<Given<'a>>,
}

fn options_of<'a>(
    alloc: Global,
    front: &Front<'_>,
    matches: &ArgMatches<'a>,
) -> Result<Options<'a>, AllocError> {
    let mut options = Options {
        alloc,
        command: None,
        given: Vec::new(alloc),
    };
    if let Some((name, after)) = matches.subcommand() {
        options.command = Some(name);
        if let Some(row) = front.commands.iter().find(|row| row.name == name) {
            options.push(after, row.options)?;
            options.push(after, row.common)?;
        }
    }
    options.push(matches, front.options)?;
    Ok(options)
}

fn matched<'a>(
    alloc: Global,
    front: &Front<'_>,
    words: &'a [String],
) -> Result<Options<'a>, Error> {
    let matches = parser(alloc, front)?.try_get_matches_from(words)?;
    let options = options_of(alloc, front, &matches);
    drop(matches);
    Ok(options?)
}

impl<'a> Options<'a> {
    // Adds the texts of an option.
    fn push_texts(&mut self, name: &'static str, texts: &[&'a str]) -> Result<(), AllocError> {
        for text in texts {
            let text = Some(*text);
            self.given.push(Given { name, text })?;
        }
        Ok(())
    }

    // Adds a flag, if it was given, or the texts of an option.
    fn push_row(&mut self, matches: &ArgMatches<'a>, row: &OptionRow) -> Result<(), AllocError> {
        let name = row.name;
        if row.shape != Shape::Flag {
            return self.push_texts(name, matches.get_strs(name).unwrap_or(&[]));
        }
        if matches.get_flag(name) {
            self.given.push(Given { name, text: None })?;
        }
        Ok(())
    }

    // Adds the texts of these options.
    fn push(&mut self, matches: &ArgMatches<'a>, rows: &[&OptionRow]) -> Result<(), AllocError> {
        for row in rows {
            self.push_row(matches, row)?;
        }
        Ok(())
    }

    /// What the words of a command line say, of which the first is the program's name.
    ///
    /// # Errors
    ///
    /// The words are none of the program's, or ask for help, or there is no memory.
    pub fn read(
        alloc: Global,
        front: &Front<'_>,
        words: &'a [String],
    ) -> Result<Options<'a>, Usage> {
        matched(alloc, front, words).map_err(Usage::of)
    }

    /// The allocator that the texts of faults are made by.
    pub fn alloc(&self) -> Global {
        self.alloc
    }

    /// The command's name, if there is one.
    pub fn command(&self) -> Option<&'a str> {
        self.command
    }

    /// Whether an option was given, or has a default.
    pub fn is_given(&self, row: &OptionRow) -> bool {
        self.given.iter().any(|given| given.name == row.name)
    }

    /// The first text of an option, as given or by default.
    pub fn text(&self, row: &OptionRow) -> Option<&'a str> {
        match self.given.iter().find(|given| given.name == row.name) {
            Some(given) => given.text,
            None => row.default(),
        }
    }

    /// All texts of an option, those that stand behind the command first.
    pub fn texts(&self, row: &OptionRow) -> Result<Vec<&'a str>, AllocError> {
        let given = self.given.iter().filter(|given| given.name == row.name);
        given.filter_map(|given| given.text).collect(self.alloc)
    }

    /// That an option isn't what its row says.
    pub fn wrong(&self, row: &OptionRow) -> Wrong {
        self.wrong_because(row, row.must)
    }

    /// That an option isn't what this text says.
    pub fn wrong_because(&self, row: &OptionRow, must: &str) -> Wrong {
        Wrong::because(self.alloc, row, self.text(row), must)
    }

    /// The text of an option that has to be given.
    pub fn required(&self, row: &OptionRow) -> Result<&'a str, Wrong> {
        self.text(row).ok_or_else(|| self.wrong(row))
    }

    /// The value that a reader finds in the text of an option that has to be given.
    pub fn value<T: Drop, F: FnOnce(&str) -> Option<T>>(
        &self,
        row: &OptionRow,
        reader: F,
    ) -> Result<T, Wrong>
        requires { F.IsAlwaysCallable reader }
    {
        let value = reader(self.required(row)?);
        value.ok_or_else(|| self.wrong(row))
    }

    /// The value that a reader finds in the text of an option, if it was given.
    pub fn value_if<T: Drop, F: FnOnce(&str) -> Option<T>>(
        &self,
        row: &OptionRow,
        reader: F,
    ) -> Result<Option<T>, Wrong>
        requires { F.IsAlwaysCallable reader }
    {
        match self.text(row) {
            Some(_) => Ok(Some(self.value(row, reader)?)),
            None => Ok(None),
        }
    }

    /// The value that the text of an option that has to be given is parsed as.
    pub fn parse<T: FromStr + Drop>(&self, row: &OptionRow) -> Result<T, Wrong>
    where
        T::Err: Drop,
    {
        self.value(row, |text| text.parse::<T>().ok())
    }

    /// What a table has beside the text of an option that has to be given.
    pub fn choice<T: Copy>(&self, row: &OptionRow, choices: &[(&str, T)]) -> Result<T, Wrong> {
        let text = self.required(row)?;
        let choice = choices.iter().find(|choice| choice.0 == text);
        choice.map(|choice| choice.1).ok_or_else(|| self.wrong(row))
    }
}
