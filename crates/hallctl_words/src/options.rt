//! Options that several commands have.
use command_rows::{CommandRow, OptionRow};

// ---- what values must be

pub(crate) const NAME: &str = "a name has 1 to 32 characters of a-z, 0-9 and -, the first a letter";

pub(crate) const TIME: &str =
    "a time is seconds, or as in 30s, 10m, 2h, at most 8760h, and is said once";

// ---- options of every command

pub(crate) const DESK: &OptionRow = &OptionRow {
    name: "desk",
    value: "URL",
    help: "The desk, as http://desk.hall.example; without it HALL_DESK says",
    ..OptionRow::MAYBE
};

pub(crate) const TOKEN_FILE: &OptionRow = &OptionRow {
    name: "token-file",
    value: "FILE",
    help: "A file whose first line is your token; without it HALL_TOKEN_FILE says",
    ..OptionRow::MAYBE
};

pub(crate) const HALL: &OptionRow = &OptionRow {
    name: "hall",
    value: "NAME",
    help: "The hall of the file of halls whose desk it is, in place of --desk; without both HALL says",
    must: NAME,
    ..OptionRow::MAYBE
};

pub(crate) const HALLS: &OptionRow = &OptionRow {
    name: "halls",
    value: "FILE",
    help: "The file of halls; without it HALLS says, or else it is ~/.config/hall/halls.toml",
    ..OptionRow::MAYBE
};

pub(crate) const TIMEOUT: &OptionRow = &OptionRow {
    name: "timeout",
    value: "TIME",
    help: "How long the desk is tried without an answer: seconds, or as 2m; 60 without it",
    must: TIME,
    ..OptionRow::MAYBE
};

pub(crate) const KEY: &OptionRow = &OptionRow {
    name: "key",
    value: "UUID",
    help: "The key of a command that got no answer, which is sent again",
    must: "a key is a UUID, and is the one command's",
    ..OptionRow::MAYBE
};

pub(crate) const KEYS: &OptionRow = &OptionRow {
    name: "keys",
    value: "FILE",
    help: "Adds each command's key to this file before it is sent, and how it ended",
    ..OptionRow::MAYBE
};

pub(crate) const JSON: &OptionRow = &OptionRow {
    name: "json",
    help: "Prints the desk's JSON",
    ..OptionRow::FLAG
};

pub(crate) const DRY_RUN: &OptionRow = &OptionRow {
    name: "dry-run",
    help: "Says what would be sent to the desk, and sends nothing",
    ..OptionRow::FLAG
};

/// What a command that reads shares with all others. It may stand before the command as well.
pub(crate) static READING: [&OptionRow; 7] = [
    DESK, TOKEN_FILE, HALL, HALLS, TIMEOUT, JSON, DRY_RUN,
];

/// What commands share that change something: a command's key beside.
pub(crate) static CHANGING: [&OptionRow; 9] = [
    DESK, TOKEN_FILE, HALL, HALLS, TIMEOUT, KEY, KEYS, JSON, DRY_RUN,
];

/// What a command shares whose time limit is its own.
pub(crate) static WAITING: [&OptionRow; 6] = [DESK, TOKEN_FILE, HALL, HALLS, JSON, DRY_RUN];

/// What a command has of these that asks the desk of each hall.
pub(crate) static EACH_HALL: [&OptionRow; 3] = [HALLS, JSON, DRY_RUN];

/// What the rows of commands have in common, before what they share is added.
pub(crate) const COMMAND: CommandRow = CommandRow {
    name: "",
    about: "",
    example: "",
    options: &[],
    common: &[],
};

// ---- options of several commands

pub(crate) const MACHINE: &OptionRow = &OptionRow {
    name: "machine",
    value: "MACHINE",
    help: "The machine's number",
    must: "a machine's number, without leading zeros",
    ..OptionRow::PLACE
};

pub(crate) const POOL: &OptionRow = &OptionRow {
    name: "pool",
    value: "POOL",
    help: "The pool",
    must: NAME,
    ..OptionRow::ALWAYS
};

pub(crate) const MAC: &OptionRow = &OptionRow {
    name: "mac",
    value: "ADDRESS",
    help: "The hardware address",
    must: "a hardware address is as in 52:54:00:12:34:56",
    ..OptionRow::ALWAYS
};

pub(crate) const ARCH: &OptionRow = &OptionRow {
    name: "arch",
    value: "ARCH",
    help: "The architecture: bios, uefi32, uefi64 or arm64",
    must: "bios, uefi32, uefi64 or arm64",
    ..OptionRow::ALWAYS
};

pub(crate) const OPERATOR_NAME: &OptionRow = &OptionRow {
    name: "operator",
    value: "OPERATOR",
    help: "The operator's name",
    must: NAME,
    ..OptionRow::PLACE
};
