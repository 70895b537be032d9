//! `init` and `migrate`: a hall's file is made, or carried over from the first schema.
use crate::common::{COMMON, DB, owned};
use command_rows::{CommandRow, OptionRow, Options, Wrong};
use hall_types::{Digest, Name};

const ADMIN: &OptionRow = &OptionRow {
    name: "admin",
    value: "NAME",
    help: "The administrator's name",
    must: "a name has 1 to 32 characters of a-z, 0-9 and -, the first a letter",
    ..OptionRow::ALWAYS
};

const DIGEST: &OptionRow = &OptionRow {
    name: "digest",
    value: "HEX",
    help: "The SHA-256 of its bearer token, 64 digits",
    must: "a digest has 64 hexadecimal digits",
    ..OptionRow::ALWAYS
};

pub(crate) const INIT_ROW: CommandRow = CommandRow {
    name: "init",
    about: "Makes the file of a new hall",
    example: "Example: hallboot init --db hall.db --admin ada --digest \"$(printf %s \"$TOKEN\" | sha256sum | cut -c1-64)\"",
    options: &[DB, ADMIN, DIGEST],
    common: &COMMON,
};

pub(crate) const MIGRATE_ROW: CommandRow = CommandRow {
    name: "migrate",
    about: "Carries the file of a hall of the first version over to this one",
    example: "Example: hallboot migrate --db hall.db\n\nPrints migrated, or already where there is nothing to do. Keep a copy of FILE and FILE-wal first.",
    options: &[DB],
    common: &COMMON,
};

/// A new hall's file and its one operator.
#[derive(Drop)]
pub struct Init {
    pub path: String,
    pub admin: Name,
    pub digest: Digest,
}

impl Init {
    pub(crate) fn read(options: &Options<'_>) -> Result<Init, Wrong> {
        Ok(Init {
            admin: options.parse(ADMIN)?,
            digest: options.parse(DIGEST)?,
            path: owned(options, DB)?,
        })
    }
}
