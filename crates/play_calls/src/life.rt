//! The life cycle of machines.
use cases::{CaseFault, Out, Played, halves, parsed};
use hall_types::{
    Act, Arch, Digest, Erase, LastIssued, Machine, Moment, Name, Number, Numbers, Operator,
    Outcome, Progress, Refusal, Role, Status,
};
use life_cycle::Signal::{self, *};
use life_cycle::{Action, Entered, Step, enter, may, next};
use play_log::last;

const ACTIONS: [(&str, Signal); 4] = [
    ("commission", By(Action::Commission)),
    ("deploy", By(Action::Deploy)),
    ("release", By(Action::Release)),
    ("release erasing", By(Action::ReleaseErasing)),
];

const OTHERS: [(&str, Signal); 7] = [
    ("report started", Report(Progress::Started)),
    ("report done", Report(Progress::Done)),
    ("report failed", Report(Progress::Failed)),
    ("order done", Answer(Outcome::Done)),
    ("order failed", Answer(Outcome::Failed)),
    ("expired", Expired),
    ("fourth boot", FourthBoot),
];

fn signal(text: &str) -> Result<Signal, CaseFault> {
    if let Ok(act) = text.parse::<Act>() {
        return Ok(By(Action::Act(act)));
    }
    let mut known = ACTIONS.iter().chain(OTHERS.iter());
    let known = known.find(|known| known.0 == text);
    known.map(|known| known.1).ok_or(CaseFault::Form)
}

// The first machine, in version 1, for which an order with this number waits, none if it is 0.
fn beginning(pool: Name, status: Status, order: LastIssued) -> Entered {
    let machine = Machine {
        status,
        waiting: Number::new(order.get()).ok(),
        ..Machine::new(Number::FIRST, Arch::Uefi64, pool, None)
    };
    let numbers = Numbers {
        machine: LastIssued::NONE,
        boot: LastIssued::NONE,
        order,
    };
    Entered {
        machine,
        numbers,
        order: None,
        withdrawn: None,
    }
}

fn print_step(machine: &Machine, name: &str, signal: Signal, out: &mut Out) {
    let Some(step) = next(machine, signal) else {
        return;
    };
    out.show(format_args!("{name}: {}", step.status.text()));
    if let Some(order) = step.order {
        out.show(format_args!(" with {}", order.text()));
    }
    out.push("\n");
}

fn print_steps(machine: &Machine, out: &mut Out) {
    for (name, signal) in &ACTIONS {
        print_step(machine, name, *signal, out);
    }
    for act in &Act::ALL {
        print_step(machine, act.text(), By(Action::Act(*act)), out);
    }
    for (name, signal) in &OTHERS {
        print_step(machine, name, *signal, out);
    }
}

// With which heading a machine is tried: whether tests were asked for, and the status from which a rescue began.
const TRIED: [(&str, bool, Option<Status>); 4] = [
    ("", false, None),
    ("rescued from Deployed:\n", false, Some(Status::Deployed)),
    ("tests:\n", true, None),
    ("tests, rescued from Broken:\n", true, Some(Status::Broken)),
];

/// Where each signal leads that leads somewhere from a status, and once more for each machine of which it is otherwise.
pub fn signals(rest: &str, out: &mut Out) -> Played {
    let mut machine = beginning(parsed("east")?, parsed(rest)?, LastIssued::NONE).machine;
    let mut last = String::new(out.alloc());
    for (with, tests, back) in TRIED {
        (machine.tests, machine.back) = (tests, back);
        let mut steps = Out::new(out.alloc());
        print_steps(&machine, &mut steps);
        let steps = steps.into_text()?;
        if steps.as_str() != last.as_str() {
            out.show(format_args!("{with}{steps}"));
            last = steps;
        }
    }
    Ok(())
}

fn print_deadline(machine: &Machine, out: &mut Out) {
    match machine.deadline {
        Some(deadline) => out.show(format_args!("deadline {deadline}")),
        None => out.push("no deadline"),
    }
}

// What a step makes of it, the same where there is no step or no order is left.
fn entered(before: &Entered, step: Option<Step>, moment: Moment) -> Entered {
    match step {
        Some(step) => enter(&before.machine, step, moment, before.numbers).unwrap_or(*before),
        None => *before,
    }
}

/// The deadline of a machine that enters a status at the moment 1000.
pub fn limit(rest: &str, out: &mut Out) -> Played {
    let (status, order) = (parsed(rest)?, None);
    let ready = beginning(parsed("east")?, Status::Ready, LastIssued::NONE);
    let after = entered(&ready, Some(Step { status, order }), parsed("1000")?);
    print_deadline(&after.machine, out);
    Ok(())
}

/// Whether a step keeps the owner, the kind of erasing and the boot, `STATUS, SIGNAL`.
pub fn kept(rest: &str, out: &mut Out) -> Played {
    let (from, by) = halves(rest, ", ")?;
    let mut before = beginning(parsed("east")?, parsed(from)?, LastIssued::NONE);
    let mut machine = before.machine;
    machine.owner = Some(machine.pool);
    machine.erase = Some(Erase::Full);
    machine.boot = Some(Number::FIRST);
    before.machine = machine;
    let step = next(&machine, signal(by)?);
    let after = entered(&before, step, parsed("1000")?).machine;
    let owner = if after.owner.is_some() { "owner" } else { "-" };
    let erase = if after.erase.is_some() { "erase" } else { "-" };
    let boot = if after.boot.is_some() { "boot" } else { "-" };
    out.show(format_args!("{owner} {erase} {boot}"));
    Ok(())
}

fn permission(answer: Result<(), Refusal>) -> &'static str {
    answer.err().map_or("yes", |refusal| refusal.name())
}

/// Who may take an action on a machine of the owner's: each operator as no member of its pool, and as a member.
pub fn permissions(rest: &str, out: &mut Out) -> Played {
    let By(action) = signal(rest)? else {
        return Err(CaseFault::Form);
    };
    let mut machine = beginning(parsed("east")?, Status::Allocated, LastIssued::NONE).machine;
    machine.owner = Some(parsed("owner")?);
    for (who, role) in [
        ("stranger", Role::User),
        ("owner", Role::User),
        ("admin", Role::Admin),
    ] {
        let operator = Operator {
            name: parsed(who)?,
            role,
            digest: Digest::from([0; 32]),
            enabled: true,
        };
        let other = permission(may(&operator, &machine, action, false));
        let member = permission(may(&operator, &machine, action, true));
        out.show(format_args!("{who} {other}, as a member {member}\n"));
    }
    Ok(())
}

fn print_entered(entered: &Entered, out: &mut Out) {
    out.show(format_args!("{}, ", entered.machine.status.text()));
    print_deadline(&entered.machine, out);
    if let Some(order) = entered.order {
        out.show(format_args!(", order {} {}", order.number.get(), order.kind.text()));
    }
    if let Some(withdrawn) = entered.withdrawn {
        out.show(format_args!(", withdrawn {}", withdrawn.get()));
    }
    out.push("\n");
}

/// What signals make of a machine in turn, `STATUS, ORDER, SIGNAL at MOMENT, ..`; then its version and the last order.
pub fn life(rest: &str, out: &mut Out) -> Played {
    let (from, rest) = halves(rest, ", ")?;
    let (order, rest) = halves(rest, ", ")?;
    let mut at = beginning(parsed("east")?, parsed(from)?, last(order)?);
    for part in rest.split(", ") {
        let (by, seconds) = halves(part, " at ")?;
        let step = next(&at.machine, signal(by)?);
        at = entered(&at, step, parsed(seconds)?);
        print_entered(&at, out);
    }
    let (version, last) = (at.machine.version.get(), at.numbers.order.get());
    out.show(format_args!("version {version}, last order {last}"));
    Ok(())
}
