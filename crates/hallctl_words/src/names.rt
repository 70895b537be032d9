//! Statuses and columns by their names. A fault lists all of them.
use crate::values::status_of;
use command_rows::{OptionRow, Wrong};
use hall_types::Status;
use hallctl_texts::Column;
use std::alloc::{AllocError, Global};

// Adds the next of so many names, the last after `or`.
fn push_name(text: &mut String, name: &str, place: usize, count: usize) -> Result<(), AllocError> {
    if place > 0 {
        text.push_str(if place.saturating_add(1) < count {
            ", "
        } else {
            " or "
        })?;
    }
    text.push_str(name)
}

// What a status is.
fn statuses(alloc: Global) -> Result<String, AllocError> {
    let mut text = String::from_str(alloc, "a status is ")?;
    for (place, status) in Status::ALL.iter().enumerate() {
        push_name(&mut text, status.text(), place, Status::ALL.len())?;
    }
    Ok(text)
}

// What a column is.
fn columns(alloc: Global) -> Result<String, AllocError> {
    let mut text = String::from_str(alloc, "a column is ")?;
    for (place, column) in Column::ALL.iter().enumerate() {
        push_name(&mut text, column.name(), place, Column::ALL.len())?;
    }
    Ok(text)
}

/// The status that is the text of an option.
pub(crate) fn status_in(alloc: Global, row: &OptionRow, text: &str) -> Result<Status, Wrong> {
    match status_of(text) {
        Some(status) => Ok(status),
        None => Err(Wrong::because(alloc, row, Some(text), statuses(alloc)?.as_str())),
    }
}

/// The column with a name, which is the text of an option or stands in it.
pub(crate) fn column_in(
    alloc: Global,
    row: &OptionRow,
    text: &str,
    name: &str,
) -> Result<Column, Wrong> {
    match Column::with_name(name) {
        Some(column) => Ok(column),
        None => Err(Wrong::because(alloc, row, Some(text), columns(alloc)?.as_str())),
    }
}
