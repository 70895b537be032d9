//! `backup` and `restore`: copies of a hall that isn't served.
use crate::common::{COMMON, DB, PATH, owned, path};
use command_rows::{CommandRow, OptionRow, Options, Wrong};

pub(crate) const TO: &OptionRow = &OptionRow {
    name: "to",
    value: "COPY",
    help: "Where the copy is put",
    must: PATH,
    ..OptionRow::ALWAYS
};

pub(crate) const FROM: &OptionRow = &OptionRow {
    name: "from",
    value: "COPY",
    help: "The copy",
    must: PATH,
    ..OptionRow::ALWAYS
};

pub(crate) const BACKUP_ROW: CommandRow = CommandRow {
    name: "backup",
    about: "Copies a hall that isn't served, with its log, to one file",
    example: "Example: hallboot backup --db hall.db --to copies/hall.db\n\nThe copy before is replaced once the new one is whole. A hall that is served is copied by serve --backup.",
    options: &[DB, TO],
    common: &COMMON,
};

pub(crate) const RESTORE_ROW: CommandRow = CommandRow {
    name: "restore",
    about: "Puts a copy of a hall in the place of its file",
    example: "Example: hallboot restore --db hall.db --from copies/hall.db\n\nWhat was at FILE, and its log, is kept under a name of its own, which is printed. COPY stays as it is. Stop serve first.",
    options: &[DB, FROM],
    common: &COMMON,
};

/// A hall's file, and a copy of it.
#[derive(Drop)]
pub struct HallCopy {
    pub path: String,
    pub copy: String,
}

impl HallCopy {
    // The copy is that of the option of this row.
    pub(crate) fn read(options: &Options<'_>, row: &OptionRow) -> Result<HallCopy, Wrong> {
        Ok(HallCopy {
            copy: path(options, row)?,
            path: owned(options, DB)?,
        })
    }
}
