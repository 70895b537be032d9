//! Halls by their names, and `halls`.
use crate::asked::Wish;
use crate::options::{COMMAND, DESK, HALL, TIME, TOKEN_FILE};
use command_rows::{CommandRow, OptionRow, Options, Wrong};
use hall_types::Name;

/// The command that asks the desk of each hall.
pub(crate) static ROWS: [CommandRow; 1] = [CommandRow {
    name: "halls",
    about: "Says of each hall of the file of halls whether its desk is there, and how many machines have failed",
    example: "Example: hallctl halls",
    options: &[PATIENCE],
    ..COMMAND
}];

const PATIENCE: &OptionRow = &OptionRow {
    name: "timeout",
    value: "TIME",
    help: "How long each desk is tried without an answer: seconds, or as 10s; 5 without it",
    must: TIME,
    ..OptionRow::MAYBE
};

/// The hall whose desk is asked, if one is given.
pub(crate) fn hall_of(options: &Options<'_>) -> Result<Option<Name>, Wrong> {
    if options.is_given(HALL) && options.is_given(DESK) {
        return Err(options.wrong_because(HALL, "not beside --desk"));
    }
    options.value_if(HALL, |text| text.parse().ok())
}

/// A look at the desk of each hall, which no option names.
pub(crate) fn all_halls<'a>(options: &Options<'a>) -> Result<Wish<'a>, Wrong> {
    for row in [DESK, TOKEN_FILE, HALL] {
        if options.is_given(row) {
            return Err(options.wrong_because(row, "halls asks the desk of each hall"));
        }
    }
    Ok(Wish::Halls)
}
