//! What is printed of halls.
ghost use Rattle.std.specs.Prelude.{◌≤◌};

use crate::halls::{Counts, Shown};
use hall_types::Name;
use halls_file::HallEntry;
use serde_json::Value;
use std::alloc::{AllocError, Global};

// The heading of the table.
const HEADING: [&str; 5] = ["HALL", "DESK", "STATE", "MACHINES", "FAILED"];

// What stands between two columns.
const GAP: &str = "  ";

/// What is printed of a hall.
#[derive(Drop)]
pub(crate) struct HallLine {
    name: Name,
    desk: String,
    /// Whether the desk is there, and knows the token.
    pub(crate) is_up: bool,
    // `up`, or why not.
    state: String,
    // Its machines, where the desk lists them.
    counts: Option<Counts>,
}

impl HallLine {
    /// The line of a hall whose desk has shown this.
    pub(crate) fn new(
        alloc: Global,
        entry: &HallEntry,
        shown: &Shown,
    ) -> Result<HallLine, AllocError> {
        let (state, counts) = match shown {
            Shown::Machines(counts) => ("up", Some(*counts)),
            Shown::Unlisted => ("up", None),
            Shown::Nothing(why) => (why.as_str(), None),
        };
        Ok(HallLine {
            name: entry.name,
            desk: String::from_str(alloc, entry.desk.as_str())?,
            is_up: !matches!(shown, Shown::Nothing(_)),
            state: String::from_str(alloc, state)?,
            counts,
        })
    }

    // The object of JSON. Why a desk isn't there stands last.
    fn json(&self, alloc: Global) -> Result<String, AllocError> {
        let (name, desk) = (self.name, quoted(alloc, self.desk.as_str())?);
        let machines = number(alloc, self.counts.map(|counts| counts.machines), "null")?;
        let failed = number(alloc, self.counts.map(|counts| counts.failed), "null")?;
        let is_up = self.is_up;
        let known = format!(in alloc;
            "\"name\":\"{name}\",\"desk\":{desk},\"up\":{is_up},\"machines\":{machines},\"failed\":{failed}"
        )?;
        if is_up {
            return format!(in alloc; "{{{known}}}");
        }
        let why = quoted(alloc, self.state.as_str())?;
        format!(in alloc; "{{{known},\"why\":{why}}}")
    }
}

// A text as JSON has it.
fn quoted(alloc: Global, text: &str) -> Result<String, AllocError> {
    Value::String(String::from_str(alloc, text)?).to_string(alloc)
}

// A number, or else this text.
fn number(alloc: Global, number: Option<usize>, without: &str) -> Result<String, AllocError> {
    match number {
        Some(number) => format!(in alloc; "{number}"),
        None => String::from_str(alloc, without),
    }
}

fn push(cells: &mut Vec<String>, cell: String) -> Result<(), AllocError> {
    cells.push(cell)?;
    Ok(())
}

// The cells of a line.
fn push_line(alloc: Global, cells: &mut Vec<String>, line: &HallLine) -> Result<(), AllocError> {
    let counts = line.counts;
    push(cells, String::from_str(alloc, line.name.text())?)?;
    push(cells, String::from_str(alloc, line.desk.as_str())?)?;
    push(cells, String::from_str(alloc, line.state.as_str())?)?;
    push(
        cells,
        number(alloc, counts.map(|counts| counts.machines), "-")?,
    )?;
    push(
        cells,
        number(alloc, counts.map(|counts| counts.failed), "-")?,
    )
}

// The characters of the longest cell of a column.
fn width(cells: &[String], column: usize) -> usize {
    let cells = cells.iter().skip(column).step_by(HEADING.len());
    cells.map(|cell| cell.chars().count()).max().unwrap_or(0)
}

fn push_wide(text: &mut String, cell: &str, width: usize) -> Result<(), AllocError> {
    text.push_str(cell)?;
    for _ in cell.chars().count()..width {
        text.push(' ')?;
    }
    text.push_str(GAP)
}

// The lines of a table, each column as wide as its longest cell.
fn text_of(alloc: Global, cells: &[String]) -> Result<String, AllocError> {
    let mut text = String::new(alloc);
    for (place, cell) in cells.iter().enumerate() {
        let column = place % HEADING.len();
        if column + 1 == HEADING.len() {
            text.push_str(cell.as_str())?;
            text.push('\n')?;
        } else {
            push_wide(&mut text, cell.as_str(), width(cells, column))?;
        }
    }
    Ok(text)
}

/// The lines of halls as a table under a heading.
pub(crate) fn hall_table(alloc: Global, lines: &[HallLine]) -> Result<String, AllocError> {
    let mut cells = Vec::new(alloc);
    for name in HEADING.as_slice() {
        push(&mut cells, String::from_str(alloc, name)?)?;
    }
    for line in lines {
        push_line(alloc, &mut cells, line)?;
    }
    text_of(alloc, cells.as_slice())
}

/// The lines of halls as one object of JSON, with a line feed.
pub(crate) fn hall_json(alloc: Global, lines: &[HallLine]) -> Result<String, AllocError> {
    let mut text = String::new(alloc);
    for line in lines {
        if !text.is_empty() {
            text.push(',')?;
        }
        text.push_str(line.json(alloc)?.as_str())?;
    }
    format!(in alloc; "{{\"halls\":[{text}]}}\n")
}
