//! The ways of the life cycle, from one status to another.
use crate::ways::{WAYS, way_number};
use hall_types::{Act, Arch, Machine, Name, Number, Outcome, Progress, Status};
use life_cycle::{Action, Signal, next};

/// Which ways the table of the life cycle has.
#[derive(Clone, Copy)]
pub struct LifeCycle {
    has: [bool; WAYS],
}

// What moves machines, but for acts that a word names.
const SIGNALS: [Signal; 11] = [
    Signal::By(Action::Commission),
    Signal::By(Action::Deploy),
    Signal::By(Action::Release),
    Signal::By(Action::ReleaseErasing),
    Signal::Report(Progress::Started),
    Signal::Report(Progress::Done),
    Signal::Report(Progress::Failed),
    Signal::Answer(Outcome::Done),
    Signal::Answer(Outcome::Failed),
    Signal::Expired,
    Signal::FourthBoot,
];

// A machine of which nothing is known but its status, whether tests were asked for, and where a rescue began.
fn machine_in(status: Status, tests: bool, back: Status) -> Option<Machine> {
    let pool = "default".parse::<Name>().ok()?;
    Some(Machine {
        status,
        tests,
        back: Some(back),
        ..Machine::new(Number::FIRST, Arch::Bios, pool, None)
    })
}

impl LifeCycle {
    /// All ways of the table.
    pub fn new() -> LifeCycle {
        let mut ways = LifeCycle { has: [false; WAYS] };
        for status in Status::ALL.as_slice() {
            for tests in [false, true] {
                ways.add_all(*status, tests, Status::Deployed);
                ways.add_all(*status, tests, Status::Broken);
            }
        }
        ways
    }

    fn add_all(&mut self, status: Status, tests: bool, back: Status) {
        let Some(machine) = machine_in(status, tests, back) else {
            return;
        };
        for signal in SIGNALS.as_slice() {
            self.add(&machine, *signal);
        }
        for act in Act::ALL.as_slice() {
            self.add(&machine, Signal::By(Action::Act(*act)));
        }
    }

    fn add(&mut self, machine: &Machine, signal: Signal) {
        if let Some(step) = next(machine, signal) {
            if let Some(has) = self.has.get_mut(way_number(machine.status, step.status)) {
                *has = true;
            }
        }
    }

    /// Whether a machine can come from one status to the other.
    pub fn leads(&self, from: Status, to: Status) -> bool {
        match self.has.get(way_number(from, to)) {
            Some(has) => *has,
            None => false,
        }
    }
}
