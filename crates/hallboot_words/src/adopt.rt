//! `adopt`: running servers become Deployed, without a boot and without a switch.
use crate::common::{AT, COMMON, DB, owned, place};
use crate::failure::{Failure, first_line};
use crate::import::digest_of;
use crate::job::{AdoptTask, Task};
use crate::servers::servers_at;
use command_rows::{CommandRow, OptionRow, Options, Shape, Wrong};
use hall_types::{Digest, Moment, Name, Number};
use pxe_vendor::{Place, numeral};
use std::alloc::AllocError;

const IMAGE: &OptionRow = &OptionRow {
    name: "image",
    value: "NAME",
    help: "The image that the servers run",
    must: "a name has 1 to 32 characters of a-z, 0-9 and -, the first a letter",
    shape: Shape::Unless("servers"),
    ..OptionRow::MAYBE
};

const MACHINES: &OptionRow = &OptionRow {
    name: "machines",
    value: "LIST",
    help: "Their machines, as 7,9-12",
    must: "numbers and ranges are as in 7,9-12, at most 10000 machines",
    shape: Shape::Unless("servers"),
    ..OptionRow::MAYBE
};

pub(crate) const SERVERS: &OptionRow = &OptionRow {
    name: "servers",
    value: "FILE",
    help: "In place of both: a file of comma-separated values that begins with machine,image",
    must: "it is the path of a file",
    ..OptionRow::MAYBE
};

const OWNER_TOKEN_FILE: &OptionRow = &OptionRow {
    name: "owner-token-file",
    value: "FILE",
    help: "A file whose first line is the token of who shall own them",
    must: TOKEN_FORM,
    ..OptionRow::ALWAYS
};

const POWER_TOKEN_FILE: &OptionRow = &OptionRow {
    name: "power-token-file",
    value: "FILE",
    help: "One with the token of an operator of role power",
    must: TOKEN_FORM,
    ..OptionRow::ALWAYS
};

const ADMIN_TOKEN_FILE: &OptionRow = &OptionRow {
    name: "admin-token-file",
    value: "FILE",
    help: "One with an administrator's token, by which machines that are New are commissioned first",
    must: TOKEN_FORM,
    ..OptionRow::MAYBE
};

const TOKEN_FORM: &str = "its first line is a token of 1 to 128 visible characters of ASCII";

pub(crate) const ADOPT_ROW: CommandRow = CommandRow {
    name: "adopt",
    about: "Has machines whose servers run become Deployed, without a boot and without a switch",
    example: "Example: hallboot adopt --db hall.db --at 1790000000 --image jammy --machines 7,9-12 --owner-token-file olga.token --power-token-file pow.token\n\nStop serve first. If it is cut off, say it again before the hall is served. Exit status 1 without a message: a machine isn't Deployed.",
    options: &[
        DB,
        AT,
        IMAGE,
        MACHINES,
        SERVERS,
        OWNER_TOKEN_FILE,
        POWER_TOKEN_FILE,
        ADMIN_TOKEN_FILE,
    ],
    common: &COMMON,
};

/// A machine, and the image that its server runs.
pub type Running = (Number, Name);

/// An adoption, before the files that it names are read. Each text is a path.
#[derive(Drop)]
pub struct Adopt {
    servers: Option<String>,
    listed: Vec<Running>,
    owner: String,
    power: String,
    admin: Option<String>,
    moment: Moment,
    place: Place,
}

/// The maximum of the machines of a hall.
pub(crate) const MAX_MACHINES: u64 = 10_000;

// The first and the last number of a part of a list, as `7` or `9-12`.
fn span_of(part: &str) -> Option<(u64, u64)> {
    let (first, last) = part.split_once('-').unwrap_or((part, part));
    let (first, last) = (numeral(first.as_bytes())?, numeral(last.as_bytes())?);
    (first <= last).then_some((first, last))
}

// Adds the machines of a part of a list: whether they are machines, and not too many.
fn push_span(listed: &mut Vec<Running>, part: &str, image: Name) -> Result<bool, AllocError> {
    let Some((first, last)) = span_of(part) else {
        return Ok(false);
    };
    if last.saturating_sub(first) >= MAX_MACHINES.saturating_sub(listed.len() as u64) {
        return Ok(false);
    }
    for number in first..=last {
        let Ok(number) = Number::new(number) else {
            return Ok(false);
        };
        listed.push((number, image))?;
    }
    Ok(true)
}

// The machines of a list, each with this image.
fn listed(options: &Options<'_>, image: Name) -> Result<Vec<Running>, Wrong> {
    let mut listed = Vec::new(options.alloc());
    for part in options.required(MACHINES)?.split(',') {
        if !push_span(&mut listed, part, image)? {
            return Err(options.wrong(MACHINES));
        }
    }
    Ok(listed)
}

// The machines of the command line, none where a file has them.
fn named(options: &Options<'_>) -> Result<Vec<Running>, Wrong> {
    if !options.is_given(SERVERS) {
        return listed(options, options.parse(IMAGE)?);
    }
    for row in [IMAGE, MACHINES] {
        if options.is_given(row) {
            return Err(options.wrong_because(row, "it isn't given beside --servers"));
        }
    }
    Ok(Vec::new(options.alloc()))
}

fn digest_in(rt: &HostRuntime, row: &OptionRow, path: &str) -> Result<Digest, Failure> {
    let digest = digest_of(first_line(rt, path)?.as_str());
    digest.ok_or_else(|| Failure::from(Wrong::of(rt.alloc(), row, None)))
}

impl Adopt {
    pub(crate) fn read(options: &Options<'_>) -> Result<Adopt, Wrong> {
        Ok(Adopt {
            moment: options.parse(AT)?,
            listed: named(options)?,
            place: place(options)?,
            servers: options
                .text(SERVERS)
                .map(|_| owned(options, SERVERS))
                .transpose()?,
            owner: owned(options, OWNER_TOKEN_FILE)?,
            power: owned(options, POWER_TOKEN_FILE)?,
            admin: options
                .text(ADMIN_TOKEN_FILE)
                .map(|_| owned(options, ADMIN_TOKEN_FILE))
                .transpose()?,
        })
    }

    // The machines that are named, by the command line or by the file.
    fn running(&self, rt: &HostRuntime) -> Result<Vec<Running>, Failure> {
        let Some(path) = &self.servers else {
            return Ok(self.listed.clone()?);
        };
        servers_at(rt, path.as_str())
    }

    /// The adoption of what the files have now.
    pub fn task(self, rt: &HostRuntime) -> Result<Task, Failure> {
        let admin = match &self.admin {
            Some(path) => Some(digest_in(rt, ADMIN_TOKEN_FILE, path.as_str())?),
            None => None,
        };
        Ok(Task::Adopt(AdoptTask {
            running: self.running(rt)?,
            owner: digest_in(rt, OWNER_TOKEN_FILE, self.owner.as_str())?,
            power: digest_in(rt, POWER_TOKEN_FILE, self.power.as_str())?,
            admin,
            place: self.place,
            moment: self.moment,
        }))
    }
}
