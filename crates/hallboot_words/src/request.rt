//! `request`: one request on standard input is answered.
use crate::common::{AT, DB, WITH_PLACE, place};
use command_rows::{CommandRow, OptionRow, Options, Wrong};
use hall_types::{Moment, Token};
use pxe_vendor::Place;

const FRESH: &OptionRow = &OptionRow {
    name: "fresh",
    value: "HEX",
    help: "The token of a boot that is issued, 32 digits",
    must: "it has 32 hexadecimal digits",
    ..OptionRow::ALWAYS
};

pub(crate) const REQUEST_ROW: CommandRow = CommandRow {
    name: "request",
    about: "Answers one request by HTTP from standard input",
    example: "Example: hallboot request --db hall.db --at 1790000000 --fresh 00112233445566778899aabbccddeeff < REQUEST",
    options: &[DB, AT, FRESH],
    common: &WITH_PLACE,
};

/// When and where a request came, and the octets of a boot that is issued for it.
#[derive(Drop)]
pub struct Request {
    pub place: Place,
    pub moment: Moment,
    pub fresh: Token,
}

impl Request {
    pub(crate) fn read(options: &Options<'_>) -> Result<Request, Wrong> {
        Ok(Request {
            moment: options.parse(AT)?,
            fresh: options.parse(FRESH)?,
            place: place(options)?,
        })
    }
}
