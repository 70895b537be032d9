//! The command line, and what its words ask for.
ghost use Rattle.std.specs.Prelude.{◌≤◌, IfOk, IfSome};

use crate::asked::{Halls, Line};
use crate::end::End;
use crate::options::{CONFIG, DESK, EVERY, LISTEN, NAME, OPTIONS, TOKEN_FILE};
use command_rows::{Front, Options, Wrong};
use hall_types::Number;
use std::alloc::Global;

// The program's version, and the kit that proved it, as README.md has it.
const VERSION: &str = "2, rattle-kit-13f logic dac8208d650f15bf";

// The most seconds from one look at a desk to the next.
const MAX_SECONDS: u64 = 3_600;

// The characters of the longest host (RFC 1123 section 2.1).
const MAX_HOST_LEN: usize = 253;

// The seconds from one look at a desk to the next.
fn seconds_of(text: &str) -> Option<u64>
    ensures { IfSome result (λ seconds. (1 ≤ seconds) × (seconds ≤ MAX_SECONDS)) }
{
    match text.parse::<Number>() {
        Ok(number) if number.get() <= MAX_SECONDS => Some(number.get()),
        _ => None,
    }
}

fn every(options: &Options<'_>) -> Result<u64, Wrong>
    ensures { IfOk result (λ seconds. (1 ≤ seconds) × (seconds ≤ MAX_SECONDS)) }
{
    match seconds_of(options.required(EVERY)?) {
        Some(seconds) => Ok(seconds),
        None => Err(options.wrong(EVERY)),
    }
}

fn is_host(text: &str) -> bool {
    for octet in text.bytes() {
        if !(octet.is_ascii_alphanumeric() || octet == b'-' || octet == b'.') {
            return false;
        }
    }
    !text.is_empty() && text.len() <= MAX_HOST_LEN
}

fn names<'a>(options: &Options<'a>) -> Result<Vec<&'a str>, Wrong> {
    let names = options.texts(NAME)?;
    for name in names.as_slice() {
        if !is_host(name) {
            return Err(Wrong::of(options.alloc(), NAME, Some(name)));
        }
    }
    Ok(names)
}

fn halls<'a>(options: &Options<'a>) -> Result<Halls<'a>, Wrong> {
    let desk = (options.text(DESK), options.text(TOKEN_FILE));
    match (options.text(CONFIG), desk) {
        (None, (Some(desk), Some(token_file))) => Ok(Halls::One { desk, token_file }),
        (None, (None, Some(_))) => Err(options.wrong(TOKEN_FILE)),
        (None, (_, None)) => Err(options.wrong(DESK)),
        (Some(file), (None, None)) => Ok(Halls::File(file)),
        (Some(_), _) => Err(options.wrong(CONFIG)),
    }
}

fn line_of<'a>(options: &Options<'a>) -> Result<Line<'a>, Wrong>
    ensures { IfOk result (λ line. (1 ≤ line.every) × (line.every ≤ MAX_SECONDS)) }
{
    let halls = halls(options)?;
    let listen = options.parse(LISTEN)?;
    let every = every(options)?;
    Ok(Line {
        listen,
        every,
        names: names(options)?,
        halls,
    })
}

/// What the words of a command line ask for, of which the first is the program's name.
///
/// # Errors
///
/// `Usage` where the words are none of the command line's or ask for help, and `Wrong` where an option isn't what it must be.
pub(crate) fn read<'a>(alloc: Global, words: &'a [String]) -> Result<Line<'a>, End>
    ensures { IfOk result (λ line. (1 ≤ line.every) × (line.every ≤ 3600)) }
{
    let front = Front {
        name: "hallview",
        version: VERSION,
        about: "Shows the machines of halls in a browser, and changes none",
        after: "Exit status: 1 fault, 2 wrong usage.",
        options: &OPTIONS,
        commands: &[],
        needs_command: false,
    };
    let options = Options::read(alloc, &front, words)?;
    Ok(line_of(&options)?)
}
