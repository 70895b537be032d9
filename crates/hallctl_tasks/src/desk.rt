//! The desk that is asked.
use crate::answer::{Answer, Exchanged, Strange};
use crate::dial::Why;
use crate::end::{EarlyEnd, Step, TaskFault};
use crate::exchanging::{MAX_TRY, Patience, exchange};
use crate::session::Session;
use crate::surroundings::Surroundings;
use hall_events::HallCommand;
use hallctl_requests::{Ask, BearerToken, DeskAddress, RequestFault, request};
use hallctl_texts::{DeskAnswer, Question, desk_answer};
use std::alloc::{AllocError, Global};

/// Where a desk is, the operator's token, and for how many milliseconds an answer is tried for.
#[derive(Drop)]
pub struct Desk {
    pub address: DeskAddress,
    pub token: BearerToken,
    pub milliseconds: u64,
}

impl Desk {
    /// The URL that is asked.
    pub(crate) fn url(&self, alloc: Global, ask: &Ask<'_>) -> Result<String, AllocError> {
        let authority = self.address.authority.text();
        match ask {
            Ask::Machines => format!(in alloc; "http://{authority}/machines"),
            Ask::Machine(machine) => {
                let machine = machine.get();
                format!(in alloc; "http://{authority}/machines/{machine}")
            }
            Ask::Orders => format!(in alloc; "http://{authority}/orders"),
            Ask::Answer { order, .. } => {
                let order = order.get();
                format!(in alloc; "http://{authority}/orders/{order}")
            }
            Ask::Command { .. } => format!(in alloc; "http://{authority}/commands"),
        }
    }
}

/// What comes of asking the desk.
#[derive(Drop)]
pub(crate) enum Heard {
    /// The desk says this, in the octets of this answer.
    Said(DeskAnswer, Answer),
    NotTheDesk(Strange),
    /// No try had an answer, the last one for this reason: it isn't known whether a command was done.
    Unknown(Why),
    /// No try had a connection, the last one for this reason: nothing was sent.
    Unsent(Why),
}

fn question_of<'c>(ask: &Ask<'c>) -> Question<'c> {
    match ask {
        Ask::Machines => Question::Machines,
        Ask::Machine(machine) => Question::Machine(*machine),
        Ask::Orders => Question::Orders,
        Ask::Answer { .. } => Question::Answer,
        Ask::Command { command, .. } => Question::Command(command),
    }
}

// The command of what is asked, if it is one.
fn command_of<'c>(ask: &Ask<'c>) -> Option<&'c HallCommand> {
    match ask {
        Ask::Command { command, .. } => Some(command),
        Ask::Machines | Ask::Machine(_) | Ask::Orders | Ask::Answer { .. } => None,
    }
}

// What an answer says to a question, which is about this command, if it is about one. The command is passed beside it, since the prover's
// borrow checker has its type from nothing else here.
fn said_to(
    alloc: Global,
    question: &Question<'_>,
    _command: Option<&HallCommand>,
    answer: &Answer,
) -> Result<Option<DeskAnswer>, AllocError> {
    match std::str::from_utf8(answer.body()) {
        Ok(body) => desk_answer(alloc, question, answer.status(), body),
        Err(_) => Ok(None),
    }
}

// What a whole answer says to what was asked.
fn said(alloc: Global, ask: &Ask<'_>, answer: &Answer) -> Result<Option<DeskAnswer>, AllocError> {
    let command = command_of(ask);
    let question = question_of(ask);
    said_to(alloc, &question, command, answer)
}

impl<S: Surroundings> Session<'_, S> {
    // What an exchange gives. An answer is the desk's only if it is one to what was asked; time is counted anew from it on.
    fn heard(&mut self, ask: &Ask<'_>, exchanged: Exchanged) -> Result<Heard, AllocError> {
        match exchanged {
            Exchanged::Answered(answer) => match said(self.alloc, ask, &answer)? {
                Some(said) => {
                    self.surroundings.count_anew();
                    Ok(Heard::Said(said, answer))
                }
                None => Ok(Heard::NotTheDesk(answer.strange())),
            },
            Exchanged::NotTheDesk(strange) => Ok(Heard::NotTheDesk(strange)),
            Exchanged::Unknown(why) => Ok(Heard::Unknown(why)),
            Exchanged::Unsent(why) => Ok(Heard::Unsent(why)),
        }
    }

    fn ask_for(&mut self, ask: &Ask<'_>, patience: Patience) -> Step<Heard> {
        let (authority, token) = (&self.desk.address.authority, &self.desk.token);
        match request(self.alloc, authority, token, ask) {
            Ok(octets) => {
                let sent = octets.as_slice();
                let exchanged = exchange(self.alloc, self.surroundings, sent, patience);
                drop(octets);
                Ok(self.heard(ask, exchanged)?)
            }
            Err(RequestFault::BlankUuid) => Err(EarlyEnd::Fault(TaskFault::BlankUuid)),
            Err(RequestFault::Memory) => Err(EarlyEnd::Fault(TaskFault::Memory)),
        }
    }

    // The milliseconds of the line's time that are left: it is counted anew from each answer of the desk on.
    fn time_left(&mut self) -> u64 {
        self.desk
            .milliseconds
            .saturating_sub(self.surroundings.idle())
    }

    /// Asks the desk, again and again until there is an answer or the time is over.
    pub(crate) fn ask(&mut self, ask: &Ask<'_>) -> Step<Heard> {
        let all = self.time_left();
        // No time at all is one try.
        let first = if self.desk.milliseconds == 0 {
            MAX_TRY
        } else {
            all.min(MAX_TRY)
        };
        self.ask_for(ask, Patience { all, first })
    }

    /// Asks the desk once, for at most so many milliseconds.
    pub(crate) fn ask_once(&mut self, ask: &Ask<'_>, milliseconds: u64) -> Step<Heard> {
        let first = milliseconds.min(MAX_TRY);
        self.ask_for(ask, Patience { all: 0, first })
    }

    /// Asks the desk once for what can be done without, for at most half of the time that is left.
    pub(crate) fn ask_in_passing(&mut self, ask: &Ask<'_>) -> Step<Heard> {
        let milliseconds = if self.desk.milliseconds == 0 {
            MAX_TRY
        } else {
            self.time_left() / 2
        };
        self.ask_once(ask, milliseconds)
    }
}
