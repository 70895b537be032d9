//! What may be done to a machine by its status.
use hall_types::{Act, Arch, Machine, Name, Number, Status};
use life_cycle::{Action, Signal, next};
use std::alloc::{AllocError, Global};

// A machine in a status, of which nothing else is asked.
fn machine_in(status: Status) -> Option<Machine> {
    let pool = "default".parse::<Name>().ok()?;
    Some(Machine {
        status,
        ..Machine::new(Number::FIRST, Arch::Bios, pool, None)
    })
}

// Whether an action has a row in the table of the life cycle. The guard of a Deployed machine has none.
fn is_allowed(machine: &Machine, action: Action) -> bool {
    match action {
        Action::Act(Act::Lock | Act::Unlock) => machine.status == Status::Deployed,
        _ => next(machine, Signal::By(action)).is_some(),
    }
}

// Adds the word of an action that is allowed, as the command line has it.
fn push_if(
    alloc: Global,
    text: &mut String,
    machine: &Machine,
    action: Action,
    word: &str,
) -> Result<(), AllocError> {
    if is_allowed(machine, action) {
        text.push_str(if text.is_empty() { "" } else { ", " })?;
        text.push_str(word.replace(alloc, "_", "-")?.as_str())?;
    }
    Ok(())
}

fn push_all(alloc: Global, text: &mut String, machine: &Machine) -> Result<(), AllocError> {
    push_if(alloc, text, machine, Action::Commission, "commission")?;
    push_if(alloc, text, machine, Action::Deploy, "deploy")?;
    push_if(alloc, text, machine, Action::Release, "release")?;
    for act in Act::ALL.as_slice() {
        push_if(alloc, text, machine, Action::Act(*act), act.text())?;
    }
    Ok(())
}

/// What a status allows, in a sentence without a full stop: `It is Deployed, which allows release, rescue, lock, unlock`.
pub fn allowed_text(alloc: Global, status: Status) -> Result<String, AllocError> {
    let mut acts = String::new(alloc);
    if let Some(machine) = machine_in(status) {
        push_all(alloc, &mut acts, &machine)?;
    }
    let name = status.text();
    if acts.is_empty() {
        return format!(in alloc; "It is {name}, which allows nothing until it ends");
    }
    format!(in alloc; "It is {name}, which allows {acts}")
}
