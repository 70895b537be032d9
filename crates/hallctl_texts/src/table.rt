//! Texts in columns.
ghost use Rattle.std.specs.Prelude.{◌≤◌};

use std::alloc::{AllocError, Global};

// What stands between two columns.
const GAP: &str = "  ";

/// Texts in so many columns, cell by cell.
#[derive(Drop)]
pub(crate) struct Table {
    columns: usize,
    cells: Vec<String>,
    ghost wide: { 1 ≤ columns },
}

// The length of the longest cell of a column. Cells are ASCII.
fn width(table: &Table, column: usize) -> usize {
    let cells = table.cells.iter().skip(column).step_by(table.columns);
    cells.map(|cell| cell.len()).max().unwrap_or(0)
}

fn widths(alloc: Global, table: &Table) -> Result<Vec<usize>, AllocError> {
    (0..table.columns)
        .map(|column| width(table, column))
        .collect(alloc)
}

// Writes a cell that another one follows, as wide as its column.
fn push_wide(text: &mut String, cell: &str, width: usize) -> Result<(), AllocError> {
    text.push_str(cell)?;
    for _ in cell.len()..width {
        text.push(' ')?;
    }
    text.push_str(GAP)
}

impl Table {
    /// A table without a cell.
    pub(crate) fn new(alloc: Global, columns: usize) -> Table {
        Table {
            columns: columns.max(1),
            cells: Vec::new(alloc),
        }
    }

    /// Adds a cell.
    pub(crate) fn push(&mut self, cell: String) -> Result<(), AllocError> {
        self.cells.push(cell)?;
        Ok(())
    }

    /// The lines of the table, each column as wide as its longest cell.
    pub(crate) fn text(&self, alloc: Global) -> Result<String, AllocError> {
        let widths = widths(alloc, self)?;
        let mut text = String::new(alloc);
        for (i, cell) in self.cells.iter().enumerate() {
            let column = i % self.columns;
            if column + 1 == self.columns {
                text.push_str(cell.as_str())?;
                text.push('\n')?;
            } else {
                let width = widths.get(column).copied().unwrap_or(0);
                push_wide(&mut text, cell.as_str(), width)?;
            }
        }
        Ok(text)
    }
}
