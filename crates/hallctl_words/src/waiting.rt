//! `wait`.
use crate::asked::{Waited, Which, Wish};
use crate::names::status_in;
use crate::options::{COMMAND, TIME};
use crate::spans::{MAX_MACHINES, machines_of};
use crate::values::mac_of;
use command_rows::{CommandRow, OptionRow, Options, Shape, Wrong};
use hall_types::Status;
use std::alloc::Global;

/// The command that waits.
pub(crate) static ROWS: [CommandRow; 1] = [CommandRow {
    name: "wait",
    about: "Waits until machines have a status",
    example: "Example: hallctl wait 1 5-9 --for Ready --timeout 30m",
    options: &[MACHINES, FOR, OR, DESPITE_FAILURES, PATIENCE],
    ..COMMAND
}];

const MACHINES: &OptionRow = &OptionRow {
    name: "machines",
    value: "MACHINE",
    help: "Numbers of machines, ranges of numbers as 5-9, and hardware addresses",
    must: "a machine's number, a range of numbers as in 5-9, or a hardware address; at most 10000 machines",
    shape: Shape::Places,
    ..OptionRow::PLACE
};

const FOR: &OptionRow = &OptionRow {
    name: "for",
    value: "STATUS",
    help: "The status that is waited for, as Ready; a wrong one lists all",
    must: "a status is given",
    ..OptionRow::ALWAYS
};

const OR: &OptionRow = &OptionRow {
    name: "or",
    value: "STATUS",
    help: "Another status that ends it",
    shape: Shape::Often,
    ..OptionRow::MAYBE
};

const DESPITE_FAILURES: &OptionRow = &OptionRow {
    name: "despite-failures",
    help: "Goes on waiting for a machine that has failed or is broken",
    ..OptionRow::FLAG
};

const PATIENCE: &OptionRow = &OptionRow {
    name: "timeout",
    value: "TIME",
    help: "How long it waits: seconds, or as 30m, which it is without it",
    must: TIME,
    ..OptionRow::MAYBE
};

// The machines of a word, if they aren't too many: the one with a hardware address, or those with numbers.
fn push_word(alloc: Global, machines: &mut Vec<Which>, word: &str) -> Result<(), Wrong> {
    match mac_of(word) {
        Some(address) => machines.push(Which::Address(address))?,
        None => {
            let numbers = machines_of(alloc, MACHINES, &[word])?;
            for number in numbers.as_slice() {
                machines.push(Which::Number(*number))?;
            }
        }
    }
    if machines.len() > MAX_MACHINES {
        return Err(Wrong::of(alloc, MACHINES, Some(word)));
    }
    Ok(())
}

fn machines(options: &Options<'_>) -> Result<Vec<Which>, Wrong> {
    let mut machines = Vec::new(options.alloc());
    let texts = options.texts(MACHINES)?;
    for text in texts.as_slice() {
        push_word(options.alloc(), &mut machines, text)?;
    }
    Ok(machines)
}

fn statuses(options: &Options<'_>) -> Result<Vec<Status>, Wrong> {
    let alloc = options.alloc();
    let first = status_in(alloc, FOR, options.required(FOR)?)?;
    let mut statuses = Vec::from_array(alloc, [first])?;
    let texts = options.texts(OR)?;
    for text in texts.as_slice() {
        statuses.push(status_in(alloc, OR, text)?)?;
    }
    Ok(statuses)
}

/// The machines that are waited for, and the statuses that end it.
pub(crate) fn wait<'a>(options: &Options<'a>) -> Result<Wish<'a>, Wrong> {
    Ok(Wish::Wait(Waited {
        machines: machines(options)?,
        statuses: statuses(options)?,
        despite_failures: options.is_given(DESPITE_FAILURES),
    }))
}
