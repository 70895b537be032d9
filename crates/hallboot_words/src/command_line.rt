//! The program's commands.
use crate::adopt::ADOPT_ROW;
use crate::backup::{BACKUP_ROW, RESTORE_ROW};
use crate::common::WHY;
use crate::frame::FRAME_ROW;
use crate::import::IMPORT_ROW;
use crate::init::{INIT_ROW, MIGRATE_ROW};
use crate::report::{EXPORT_ROW, REPORT_ROW};
use crate::request::REQUEST_ROW;
use crate::serve::SERVE_ROW;
use command_rows::{Front, Options, Usage};
use std::alloc::Global;

// The program's version, the schema of the files that it makes, and the kit that proved it, as README.md has it.
const VERSION: &str = "2, schema 2, rattle-kit-13f logic dac8208d650f15bf";

/// What the words of a command line say, of which the first is the program's name.
pub fn read<'a>(alloc: Global, words: &'a [String]) -> Result<Options<'a>, Usage> {
    let commands = [
        FRAME_ROW,
        INIT_ROW,
        MIGRATE_ROW,
        REQUEST_ROW,
        SERVE_ROW,
        REPORT_ROW,
        IMPORT_ROW,
        ADOPT_ROW,
        EXPORT_ROW,
        BACKUP_ROW,
        RESTORE_ROW,
    ];
    let front = Front {
        name: "hallboot",
        version: VERSION,
        about: "The boot desk of a server hall",
        after: "Exit status: 0 done, 1 fault, 2 wrong usage, 3 no answer.",
        options: &[],
        commands: &commands,
        needs_command: false,
    };
    Options::read(alloc, &front, words)
}

/// Whether the reason of a fault is asked for.
pub fn wants_reason(options: &Options<'_>) -> bool {
    options.is_given(WHY)
}
