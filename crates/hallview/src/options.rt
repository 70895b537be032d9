//! The options of hallview.
use command_rows::{OptionRow, Shape};

pub(crate) const DESK: &OptionRow = &OptionRow {
    name: "desk",
    value: "URL",
    help: "The desk of the one hall that is shown, as http://desk.hall.example",
    must: "it is given beside --token-file, or --config is in place of both",
    ..OptionRow::MAYBE
};

pub(crate) const TOKEN_FILE: &OptionRow = &OptionRow {
    name: "token-file",
    value: "FILE",
    help: "A file whose first line is a token of that desk",
    must: "it is given beside --desk",
    ..OptionRow::MAYBE
};

pub(crate) const CONFIG: &OptionRow = &OptionRow {
    name: "config",
    value: "FILE",
    help: "The file of the halls that are shown, with the desk and token_file of each",
    must: "not beside --desk or --token-file",
    ..OptionRow::MAYBE
};

pub(crate) const LISTEN: &OptionRow = &OptionRow {
    name: "listen",
    value: "ADDR",
    help: "Where pages are asked for; put a proxy with TLS before any address but loopback's",
    must: "an address and a port are as in 127.0.0.1:8067 or [::1]:8067",
    shape: Shape::OrElse("127.0.0.1:8067"),
    ..OptionRow::MAYBE
};

pub(crate) const EVERY: &OptionRow = &OptionRow {
    name: "every",
    value: "SECONDS",
    help: "How often each desk is asked",
    must: "it is a number of seconds without a leading zero, from 1 to 3600",
    shape: Shape::OrElse("5"),
    ..OptionRow::MAYBE
};

pub(crate) const NAME: &OptionRow = &OptionRow {
    name: "name",
    value: "HOST",
    help: "A host that requests may name beside loopback's, as view.hall.example",
    must: "a host has 1 to 253 letters, digits, hyphens and dots",
    shape: Shape::Often,
    ..OptionRow::MAYBE
};

/// All options, in the order of the help.
pub(crate) static OPTIONS: [&OptionRow; 6] = [DESK, TOKEN_FILE, CONFIG, LISTEN, EVERY, NAME];
