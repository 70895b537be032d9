//! `report` and `export`: what a hall has is printed.
use crate::common::{COMMON, DB};
use command_rows::{CommandRow, OptionRow, Shape};

pub(crate) const WHAT: &OptionRow = &OptionRow {
    name: "what",
    value: "WHAT",
    help: "hall, orders or a machine's number",
    must: "hall, orders or a machine's number",
    shape: Shape::OrElse("hall"),
    ..OptionRow::MAYBE
};

pub(crate) const REPORT_ROW: CommandRow = CommandRow {
    name: "report",
    about: "Prints what a hall has",
    example: "Example: hallboot report --db hall.db --what orders",
    options: &[DB, WHAT],
    common: &COMMON,
};

pub(crate) const EXPORT_ROW: CommandRow = CommandRow {
    name: "export",
    about: "Prints all machines as comma-separated values",
    example: "Example: hallboot export --db hall.db > machines.csv",
    options: &[DB],
    common: &COMMON,
};
