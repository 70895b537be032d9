//! The lines of a case file.
use crate::fault::CaseFault;
use std::alloc::Global;

/// A line of a case file.
#[derive(Clone, Copy, Debug, PartialEq, Eq)]
pub enum Line<'a> {
    /// A comment, or nothing.
    Empty,
    /// The name of the case that begins here.
    Case(&'a str),
    /// What is done.
    Act(&'a str),
    /// A line of what must come of the act above it.
    Wanted(&'a str),
}

fn line_of(text: &str) -> Line<'_> {
    if text.is_empty() || text.starts_with('#') {
        return Line::Empty;
    }
    if let Some(name) = text.strip_prefix("== ") {
        return Line::Case(name);
    }
    if text == "=" {
        return Line::Wanted("");
    }
    match text.strip_prefix("= ").or(text.strip_prefix("  ")) {
        Some(wanted) => Line::Wanted(wanted),
        None => Line::Act(text),
    }
}

/// The lines of a text. The line at place 0 is the text's line 1.
pub fn lines_of(alloc: Global, text: &str) -> Result<Vec<Line<'_>>, CaseFault> {
    Ok(text.lines().map(|line| line_of(line)).collect(alloc)?)
}

/// A case file: its name, and its lines.
#[derive(Clone, Copy)]
pub struct CaseFile<'a> {
    pub name: &'a str,
    pub lines: &'a [Line<'a>],
}

impl<'a> CaseFile<'a> {
    /// The act at a place, if one stands there.
    pub fn act(&self, at: usize) -> Option<&'a str> {
        match self.lines.get(at) {
            Some(Line::Act(text)) => Some(text),
            _ => None,
        }
    }

    /// What must come by the line at a place, if it says that.
    pub fn wanted(&self, at: usize) -> Option<&'a str> {
        match self.lines.get(at) {
            Some(Line::Wanted(text)) => Some(text),
            _ => None,
        }
    }

    /// The name of the case in which the line at a place stands, empty before the first.
    pub fn case(&self, at: usize) -> &'a str {
        let mut name = "";
        for line in self.lines.get(..=at).unwrap_or(self.lines) {
            if let Line::Case(its_name) = line {
                name = its_name;
            }
        }
        name
    }

    /// How many cases begin in the file.
    pub fn cases(&self) -> u64 {
        let lines = self.lines.iter();
        lines.filter(|line| matches!(line, Line::Case(_))).count() as u64
    }
}
