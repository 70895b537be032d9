//! The command line: its commands in the order of the help, and what the words of one ask for.
use crate::asked::{Line, Listing, Wish};
use crate::hall::{add_operator, hall_command};
use crate::halls::{all_halls, hall_of};
use crate::machines::{WAIT_FOR, YES, commands_on};
use crate::options::{
    CHANGING, COMMAND, DESK, DRY_RUN, EACH_HALL, HALLS, JSON, KEY, KEYS, READING, TIMEOUT,
    TOKEN_FILE, WAITING,
};
use crate::values::{key_of, seconds_of};
use crate::waiting::wait;
use crate::{hall, halls, listings, machines, waiting};
use command_rows::{CommandRow, Front, OptionRow, Options, Usage, Wrong};
use hall_events::HallCommand;
use hall_types::{Name, RequestKey};
use std::alloc::{AllocError, Global};

// The program's version, and the kit that proved it, as README.md has it.
const VERSION: &str = "2, rattle-kit-13f logic dac8208d650f15bf";

// How long an answer is tried for, in seconds, where nothing else is said.
const TRIES: u64 = 60;

// How long a status is waited for.
const WAITS: u64 = 1800;

// How long the desk of each hall is tried for.
const LOOKS: u64 = 5;

static IMPORT: [CommandRow; 1] = [CommandRow {
    name: "import",
    about: "Adds the machines of a file of comma-separated values",
    example: "Example: hallctl import machines.csv",
    options: &[FILE, KEYS],
    ..COMMAND
}];

static COMPLETION: [CommandRow; 1] = [CommandRow {
    name: "completion",
    about: "Prints the completion for bash",
    example: "Example: hallctl completion > /etc/bash_completion.d/hallctl",
    ..COMMAND
}];

const FILE: &OptionRow = &OptionRow {
    name: "file",
    value: "FILE",
    help: "The file of machines; - is standard input",
    ..OptionRow::PLACE
};

// Adds the rows of commands that share these options.
fn push(
    rows: &mut Vec<CommandRow>,
    more: &[CommandRow],
    common: &'static [&'static OptionRow],
) -> Result<(), AllocError> {
    for row in more {
        rows.push(CommandRow { common, ..*row })?;
    }
    Ok(())
}

/// All commands, in the order of the help.
pub(crate) fn rows(alloc: Global) -> Result<Vec<CommandRow>, AllocError> {
    let mut rows = Vec::new(alloc);
    push(&mut rows, &listings::ROWS, &READING)?;
    push(&mut rows, &halls::ROWS, &EACH_HALL)?;
    push(&mut rows, &machines::ROWS, &CHANGING)?;
    push(&mut rows, &hall::ROWS, &CHANGING)?;
    push(&mut rows, &waiting::ROWS, &WAITING)?;
    push(&mut rows, &IMPORT, &READING)?;
    push(&mut rows, &COMPLETION, &[])?;
    Ok(rows)
}

/// Why a command line asks for nothing.
#[derive(Drop)]
pub enum LineFault {
    /// The words are none of the command line's, or ask for help.
    Usage(Usage),
    /// An option isn't what it must be.
    Wrong(Wrong),
}

// The commands that are sent.
fn commands(name: &str, options: &Options<'_>) -> Result<Vec<HallCommand>, Wrong> {
    match hall_command(name, options)? {
        Some(command) => Ok(Vec::from_array(options.alloc(), [command])?),
        None => commands_on(name, options),
    }
}

fn wish_of<'a>(name: &str, options: &Options<'a>) -> Result<Wish<'a>, Wrong> {
    match name {
        "machines" => Ok(Wish::List(listings::machines(options)?)),
        "machine" => Ok(Wish::List(listings::machine(options)?)),
        "orders" => Ok(Wish::List(Listing::Orders)),
        "order" => listings::order(options),
        "hello" => Ok(Wish::Hello),
        "halls" => all_halls(options),
        "add-operator" => add_operator(options),
        "wait" => wait(options),
        "import" => Ok(Wish::Import(options.required(FILE)?)),
        "completion" => Ok(Wish::Completion),
        _ => Ok(Wish::Change(commands(name, options)?)),
    }
}

// How long a desk is tried, or a status is waited for. It is said once, before the command or behind it.
fn timeout(name: &str, options: &Options<'_>) -> Result<u64, Wrong> {
    if options.texts(TIMEOUT)?.len() > 1 {
        return Err(options.wrong(TIMEOUT));
    }
    let usual = match name {
        "wait" => WAITS,
        "halls" => LOOKS,
        _ => TRIES,
    };
    let said = options.value_if(TIMEOUT, |text| seconds_of(text.as_bytes()))?;
    Ok(said.unwrap_or(usual))
}

// Whether one request has the one key, as far as the line says.
fn is_one(wish: &Wish<'_>) -> bool {
    match wish {
        Wish::Change(commands) => commands.len() == 1,
        Wish::NewOperator(_) => true,
        _ => false,
    }
}

fn key_for(options: &Options<'_>, wish: &Wish<'_>) -> Result<Option<RequestKey>, Wrong> {
    match options.value_if(KEY, |text| key_of(text))? {
        Some(_) if !is_one(wish) => Err(options.wrong(KEY)),
        key => Ok(key),
    }
}

// A command's key, the hall whose desk is asked, and for how long is waited afterwards.
type Beside = (Option<RequestKey>, Option<Name>, Option<u64>);

fn said_beside(options: &Options<'_>, wish: &Wish<'_>) -> Result<Beside, Wrong> {
    let key = key_for(options, wish)?;
    let hall = hall_of(options)?;
    let wait = options.value_if(WAIT_FOR, |text| seconds_of(text.as_bytes()))?;
    Ok((key, hall, wait))
}

fn line_of<'a>(options: &Options<'a>) -> Result<Line<'a>, Wrong> {
    let name = options.command().unwrap_or("");
    let timeout = timeout(name, options)?;
    let wish = wish_of(name, options)?;
    let (key, hall, wait) = said_beside(options, &wish)?;
    Ok(Line {
        desk: options.text(DESK),
        token_file: options.text(TOKEN_FILE),
        hall,
        halls: options.text(HALLS),
        timeout,
        key,
        keys: options.text(KEYS),
        wait,
        yes: options.is_given(YES),
        dry_run: options.is_given(DRY_RUN),
        json: options.is_given(JSON),
        wish,
    })
}

/// What the words of a command line ask for, of which the first is the program's name.
///
/// # Errors
///
/// `Usage` where the words are none of the command line's or ask for help, and `Wrong` where an option isn't what it must be.
pub fn read<'a>(alloc: Global, words: &'a [String]) -> Result<Line<'a>, LineFault> {
    let rows = rows(alloc).map_err(|_| LineFault::Wrong(Wrong::Memory))?;
    let front = Front {
        name: "hallctl",
        version: VERSION,
        about: "Asks the boot desk of a server hall",
        after: "Exit status: 0 done, 1 refused, 2 wrong usage, 3 no answer, 4 waited in vain.",
        options: &READING,
        commands: rows.as_slice(),
        needs_command: true,
    };
    let options = Options::read(alloc, &front, words).map_err(LineFault::Usage)?;
    line_of(&options).map_err(LineFault::Wrong)
}
