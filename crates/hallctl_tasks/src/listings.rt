//! What the desk lists is printed.
use crate::answer::Answer;
use crate::desk::Heard;
use crate::end::{EarlyEnd, Step, TaskEnd, TaskFault};
use crate::session::Session;
use crate::surroundings::Surroundings;
use hall_types::MacAddress;
use hallctl_requests::Ask;
use hallctl_texts::{
    AnswerFault, DeskAnswer, chosen, machine_ids, machine_json, machine_lines, machine_table,
    machine_with, order_table, value_of,
};
use hallctl_words::{Form, Listing, MachineList, Which};
use serde_json::Value;
use std::alloc::Global;

// How long, in milliseconds, is waited before a list is printed again.
const BETWEEN: u64 = 2_000;

// What clears a terminal's screen (ECMA-48 sections 8.3.21 and 8.3.39).
const CLEAR: &str = "\u{1b}[H\u{1b}[J";

// What is asked of the desk for a listing. It has no list of the machines with an address, so that is found in the list of all.
fn ask_of(listing: &Listing<'_>) -> Ask<'static> {
    match listing {
        Listing::Machine(Which::Number(number)) => Ask::Machine(*number),
        Listing::Machine(Which::Address(_)) | Listing::Machines(_) => Ask::Machines,
        Listing::Orders => Ask::Orders,
    }
}

// Whether all that the desk answers is printed, so that its JSON is printed as it came.
fn is_whole(listing: &Listing<'_>) -> bool {
    match listing {
        Listing::Machine(Which::Number(_)) | Listing::Orders => true,
        Listing::Machine(Which::Address(_)) | Listing::Machines(_) => false,
    }
}

fn is_watched(listing: &Listing<'_>) -> bool {
    matches!(listing, Listing::Machines(list) if list.is_watched)
}

fn machines_text(
    alloc: Global,
    value: &Value,
    list: &MachineList<'_>,
    now: Option<u64>,
) -> Result<String, AnswerFault> {
    let machines = chosen(alloc, value, &list.choice)?;
    let machines = machines.as_slice();
    match list.form {
        Form::Table => machine_table(alloc, machines, list.columns.as_slice(), now),
        Form::Json => {
            let list = machine_json(alloc, machines)?;
            Ok(format!(in alloc; "{list}\n")?)
        }
        Form::Ids => machine_ids(alloc, machines),
    }
}

impl<S: Surroundings> Session<'_, S> {
    // The machine with an address, in the list of all: its lines, or its object.
    fn found_text(
        &self,
        value: &Value,
        address: MacAddress,
        now: Option<u64>,
    ) -> Result<String, AnswerFault> {
        match machine_with(value, address)? {
            Some(machine) if self.line.json => {
                let text = machine.to_string(self.alloc)?;
                Ok(format!(in self.alloc; "{text}\n")?)
            }
            Some(machine) => machine_lines(self.alloc, machine, now),
            None => Ok(String::new(self.alloc)),
        }
    }

    // What the desk lists, as it is printed. It is empty for an address that no machine has.
    fn text_in(
        &self,
        value: &Value,
        listing: &Listing<'_>,
        now: Option<u64>,
    ) -> Result<String, AnswerFault> {
        match listing {
            Listing::Machines(list) => machines_text(self.alloc, value, list, now),
            Listing::Machine(Which::Number(_)) => machine_lines(self.alloc, value, now),
            Listing::Machine(Which::Address(address)) => self.found_text(value, *address, now),
            Listing::Orders => order_table(self.alloc, value),
        }
    }

    // The text of a listing: the desk's own where that is asked for.
    fn text_of(
        &self,
        answer: &Answer,
        listing: &Listing<'_>,
        now: Option<u64>,
    ) -> Result<String, AnswerFault> {
        if self.line.json && is_whole(listing) {
            let text = answer.text().ok_or(AnswerFault::NotTheDesk)?;
            return Ok(format!(in self.alloc; "{text}\n")?);
        }
        let value = value_of(self.alloc, answer.body())?.ok_or(AnswerFault::NotTheDesk)?;
        self.text_in(&value, listing, now)
    }

    fn print_listing(&mut self, listing: &Listing<'_>, answer: &Answer) -> Step<TaskEnd> {
        let now = self.surroundings.moment();
        match self.text_of(answer, listing, now) {
            Ok(text) if text.is_empty() && matches!(listing, Listing::Machine(_)) => {
                self.end(TaskEnd::Refused, "no machine has this address")
            }
            Ok(text) => {
                self.print(text.as_str())?;
                Ok(TaskEnd::Done)
            }
            Err(AnswerFault::NotTheDesk) => {
                self.end_by_stranger(&ask_of(listing), answer.strange())
            }
            Err(AnswerFault::Memory) => Err(EarlyEnd::Fault(TaskFault::Memory)),
        }
    }

    // Asks the desk for its list.
    fn asked_listing(&mut self, listing: &Listing<'_>) -> Step<Answer> {
        let ask = ask_of(listing);
        match self.ask(&ask)? {
            Heard::Said(DeskAnswer::Refused(refusal), _) => self.end_refused(refusal),
            Heard::Said(_, answer) => Ok(answer),
            Heard::NotTheDesk(strange) => self.end_by_stranger(&ask, strange),
            Heard::Unknown(why) | Heard::Unsent(why) => self.end_unanswered(why),
        }
    }

    // Before a list that was printed before: on a terminal it is written over, else an empty line stands between them.
    fn print_gap(&mut self) -> Step<()> {
        if self.surroundings.is_screen() {
            self.print(CLEAR)
        } else {
            self.print("\n")
        }
    }

    // Prints a list every two seconds, until the desk doesn't answer.
    fn watch(&mut self, listing: &Listing<'_>) -> Step<TaskEnd> {
        for place in 0..u64::MAX {
            let answer = self.asked_listing(listing)?;
            if place > 0 || self.surroundings.is_screen() {
                self.print_gap()?;
            }
            let _ = self.print_listing(listing, &answer)?;
            drop(answer);
            self.surroundings.pause(BETWEEN);
        }
        Ok(TaskEnd::Done)
    }

    /// Prints what the desk lists.
    pub(crate) fn list(&mut self, listing: &Listing<'_>) -> Step<TaskEnd> {
        if is_watched(listing) {
            return self.watch(listing);
        }
        let answer = self.asked_listing(listing)?;
        self.print_listing(listing, &answer)
    }
}
