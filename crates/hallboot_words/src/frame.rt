//! `frame`: the frame on standard input is answered.
use crate::common::{WITH_PLACE, place};
use command_rows::{CommandRow, OptionRow, Options, Shape, Wrong};
use hall_types::Port;
use pxe_vendor::Place;

const ROLE: &OptionRow = &OptionRow {
    name: "role",
    value: "ROLE",
    help: "The port: discover or boot",
    must: "discover or boot",
    shape: Shape::OrElse("discover"),
    ..OptionRow::MAYBE
};

pub(crate) const FRAME_ROW: CommandRow = CommandRow {
    name: "frame",
    about: "Answers one DHCP frame, in hexadecimal on standard input",
    example: "Example: hallboot frame --role boot < ADDRESSES-AND-FRAME\n\nStandard input has the addresses of known machines, one a line, an empty line, and the frame. Exit status 3 is silence.",
    options: &[ROLE],
    common: &WITH_PLACE,
};

/// A frame that came to a port.
#[derive(Drop)]
pub struct Frame {
    pub port: Port,
    pub place: Place,
}

impl Frame {
    pub(crate) fn read(options: &Options<'_>) -> Result<Frame, Wrong> {
        let ports = [("discover", Port::Discover), ("boot", Port::Boot)];
        Ok(Frame {
            port: options.choice(ROLE, &ports)?,
            place: place(options)?,
        })
    }
}
