//! Machines are waited for.
use crate::answer::Answer;
use crate::desk::Heard;
use crate::dial::Why;
use crate::end::{Step, TaskEnd};
use crate::session::Session;
use crate::surroundings::Surroundings;
use hall_types::Status;
use hallctl_requests::Ask;
use hallctl_texts::{
    AnswerFault, DeskAnswer, ListedMachine, MachineState, machine_numbered, machine_with, state_at,
    value_of,
};
use hallctl_words::{Waited, Which};
use serde_json::Value;
use std::alloc::{AllocError, Global};

// How long, in milliseconds, is waited before the machines are looked at again.
const BETWEEN: u64 = 2_000;

// The milliseconds of a second.
const SECOND: u64 = 1_000;

/// A machine that is waited for.
#[derive(Clone, Copy)]
struct Wanted {
    which: Which,
    /// The status that the last look has shown.
    last: Option<Status>,
    /// Whether nothing more is waited for.
    is_over: bool,
}

/// What one look says.
enum Glance {
    /// Each of the machines that are waited for, if the desk has it.
    Listed(Found),
    /// There was no answer, for this reason: the machines are looked at again.
    Nothing(Why),
}

// What is asked of the desk: one machine, or the list of all.
fn ask_of(machines: &[Which]) -> Ask<'static> {
    match machines {
        [Which::Number(number)] => Ask::Machine(*number),
        _ => Ask::Machines,
    }
}

fn state_of(machine: ListedMachine) -> MachineState {
    MachineState {
        id: machine.id,
        status: machine.status,
        version: machine.version,
    }
}

// A machine in the list of all, if it has it.
fn machine_in(value: &Value, which: Which) -> Result<Option<MachineState>, AnswerFault> {
    let object = match which {
        Which::Number(number) => machine_numbered(value, number)?,
        Which::Address(address) => machine_with(value, address)?,
    };
    let Some(object) = object else {
        return Ok(None);
    };
    match state_at(object) {
        Some(state) => Ok(Some(state)),
        None => Err(AnswerFault::NotTheDesk),
    }
}

/// Machines that are waited for, as far as the desk has them.
type Found = Vec<Option<MachineState>>;

fn push(machines: &mut Found, machine: Option<MachineState>) -> Result<(), AllocError> {
    machines.push(machine)?;
    Ok(())
}

// One machine.
fn only(alloc: Global, machine: MachineState) -> Result<Found, AllocError> {
    Ok(Vec::from_array(alloc, [Some(machine)])?)
}

fn machines_in(alloc: Global, value: &Value, wanted: &[Wanted]) -> Result<Found, AnswerFault> {
    let mut machines = Vec::with_capacity(alloc, wanted.len())?;
    for one in wanted {
        push(&mut machines, machine_in(value, one.which)?)?;
    }
    Ok(machines)
}

fn found_at(found: &[Option<MachineState>], place: usize) -> Option<&MachineState> {
    match found.get(place) {
        Some(Some(machine)) => Some(machine),
        _ => None,
    }
}

fn all_wanted(alloc: Global, machines: &[Which]) -> Result<Vec<Wanted>, AllocError> {
    let wanted = machines.iter().map(|which| Wanted {
        which: *which,
        last: None,
        is_over: false,
    });
    wanted.collect(alloc)
}

// A machine as the command line names it.
fn name_of(alloc: Global, which: Which) -> Result<String, AllocError> {
    match which {
        Which::Number(number) => {
            let id = number.get();
            format!(in alloc; "{id}")
        }
        Which::Address(address) => pxe_vendor::print_mac(alloc, &address.octets()),
    }
}

impl<S: Surroundings> Session<'_, S> {
    // The machines that are waited for, in the desk's answer.
    fn found_in(&mut self, ask: &Ask<'_>, answer: &Answer, wanted: &[Wanted]) -> Step<Found> {
        if let Ask::Machine(_) = ask {
            let machine = self.listed_machine(ask, answer)?;
            return Ok(only(self.alloc, state_of(machine))?);
        }
        let Some(value) = value_of(self.alloc, answer.body())? else {
            return self.end_by_stranger(ask, answer.strange());
        };
        match machines_in(self.alloc, &value, wanted) {
            Ok(machines) => Ok(machines),
            Err(AnswerFault::NotTheDesk) => self.end_by_stranger(ask, answer.strange()),
            Err(AnswerFault::Memory) => Err(AllocError.into()),
        }
    }

    fn look_once(&mut self, ask: &Ask<'_>, wanted: &[Wanted], milliseconds: u64) -> Step<Glance> {
        match self.ask_once(ask, milliseconds)? {
            Heard::Said(DeskAnswer::Refused(refusal), _) => self.end_refused(refusal),
            Heard::Said(_, answer) => Ok(Glance::Listed(self.found_in(ask, &answer, wanted)?)),
            Heard::NotTheDesk(strange) => self.end_by_stranger(ask, strange),
            Heard::Unknown(why) | Heard::Unsent(why) => Ok(Glance::Nothing(why)),
        }
    }

    // Prints that a machine has a status that is waited for.
    fn print_arrived(&mut self, machine: &MachineState) -> Step<()> {
        let (id, version) = (machine.id.get(), machine.version.get());
        let status = machine.status.text();
        if self.line.json {
            self.print_line(format_args!(
                "{{\"id\":{id},\"status\":\"{status}\",\"version\":{version}}}"
            ))
        } else {
            self.print_line(format_args!("machine {id}: {status}, version {version}"))
        }
    }

    // Prints or reports how a machine ends for which nothing more is waited for, if it does: it has a status that is waited for, has failed,
    // or isn't there.
    fn ended(
        &mut self,
        waited: &Waited,
        which: Which,
        found: Option<&MachineState>,
    ) -> Step<Option<TaskEnd>> {
        let Some(machine) = found else {
            let name = name_of(self.alloc, which)?;
            self.report(format_args!("machine {name}: the hall has no such machine"))?;
            return Ok(Some(TaskEnd::Refused));
        };
        let (id, version) = (machine.id.get(), machine.version.get());
        let status = machine.status.text();
        if waited.statuses.contains(&machine.status) {
            self.print_arrived(machine)?;
            return Ok(Some(TaskEnd::Done));
        }
        if machine.status.is_failure() && !waited.despite_failures {
            self.report(format_args!("machine {id}: {status}, version {version}"))?;
            return Ok(Some(TaskEnd::Refused));
        }
        Ok(None)
    }

    // Notes what a look has shown of each machine, and says how those end for which nothing more is waited for.
    fn note_found(
        &mut self,
        waited: &Waited,
        wanted: &mut [Wanted],
        found: &[Option<MachineState>],
    ) -> Step<TaskEnd> {
        let mut end = TaskEnd::Done;
        for (place, one) in wanted.iter_mut().enumerate() {
            if one.is_over {
                continue;
            }
            let machine = found_at(found, place);
            if let Some(its) = self.ended(waited, one.which, machine)? {
                one.is_over = true;
                end = end.and_then(its);
            }
            one.last = machine.map(|machine| machine.status);
        }
        Ok(end)
    }

    // Reports that the desk doesn't answer, and is asked again.
    fn report_lost(&mut self, wanted: &[Wanted], why: Why) -> Result<(), AllocError> {
        match wanted {
            [one] => {
                let name = name_of(self.alloc, one.which)?;
                self.report(format_args!("machine {name}: no answer ({why}), asking again"))
            }
            _ => self.report(format_args!("no answer ({why}), asking again")),
        }
    }

    // Reports what each machine was last that is still waited for, after all the time, at whose end the desk was lost or not.
    fn end_in_vain(&mut self, wanted: &[Wanted], seconds: u64, is_lost: bool) -> Step<TaskEnd> {
        for one in wanted {
            if !one.is_over {
                let name = name_of(self.alloc, one.which)?;
                let last = match one.last {
                    Some(last) if !is_lost => last.text(),
                    _ => "no answer",
                };
                self.report(format_args!("machine {name}: {last}, after {seconds} seconds"))?;
            }
        }
        Ok(if is_lost {
            TaskEnd::NoAnswer
        } else {
            TaskEnd::TimeOver
        })
    }

    // The milliseconds of the wait that are left.
    fn wait_left(&mut self, start: u64, seconds: u64) -> u64 {
        let limit = seconds.saturating_mul(SECOND);
        limit.saturating_sub(self.surroundings.passed().saturating_sub(start))
    }

    // Waits before the next look, and says for how many milliseconds there is time for one.
    fn left_after_pause(&mut self, start: u64, seconds: u64) -> u64 {
        let between = self.wait_left(start, seconds).min(BETWEEN);
        self.surroundings.pause(between);
        self.wait_left(start, seconds)
    }

    // Looks at the machines until nothing more is waited for. Each time that the desk is lost, that is reported once.
    fn wait_for(&mut self, waited: &Waited, wanted: &mut [Wanted], seconds: u64) -> Step<TaskEnd> {
        let start = self.surroundings.passed();
        let ask = ask_of(waited.machines.as_slice());
        let mut end = TaskEnd::Done;
        let mut is_lost = false;
        // No time at all is one look.
        let mut limit = match seconds {
            0 => u64::MAX,
            seconds => seconds.saturating_mul(SECOND),
        };
        for _ in 0..u64::MAX {
            match self.look_once(&ask, wanted, limit)? {
                Glance::Listed(found) => {
                    let now = self.note_found(waited, wanted, found.as_slice())?;
                    end = end.and_then(now);
                    is_lost = false;
                }
                Glance::Nothing(why) => {
                    if !is_lost {
                        self.report_lost(wanted, why)?;
                    }
                    is_lost = true;
                }
            }
            if wanted.iter().all(|one| one.is_over) {
                return Ok(end);
            }
            limit = self.left_after_pause(start, seconds);
            if limit == 0 {
                break;
            }
        }
        self.end_in_vain(wanted, seconds, is_lost)
    }

    /// Looks at machines every two seconds, for at most so many seconds, until each has one of the statuses, has failed or isn't there, and
    /// prints a line for each.
    pub(crate) fn wait(&mut self, waited: &Waited, seconds: u64) -> Step<TaskEnd> {
        let mut wanted = all_wanted(self.alloc, waited.machines.as_slice())?;
        self.wait_for(waited, wanted.as_mut_slice(), seconds)
    }
}
