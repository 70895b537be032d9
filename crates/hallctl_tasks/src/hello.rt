//! Whether the desk is there, and which role the token has.
use crate::desk::Heard;
use crate::end::{Step, TaskEnd};
use crate::session::Session;
use crate::surroundings::Surroundings;
use hall_types::{Number, Refusal, Role};
use hallctl_requests::Ask;
use hallctl_texts::DeskAnswer;

impl<S: Surroundings> Session<'_, S> {
    // Whether the token's role lets the desk answer this. That there is nothing of the kind is an answer too.
    fn is_let(&mut self, ask: &Ask<'_>) -> Step<bool> {
        match self.ask(ask)? {
            Heard::Said(DeskAnswer::Refused(Refusal::RoleNeeded), _) => Ok(false),
            Heard::Said(DeskAnswer::Refused(Refusal::NoMachine), _) => Ok(true),
            Heard::Said(DeskAnswer::Refused(refusal), _) => self.end_refused(refusal),
            Heard::Said(_, _) => Ok(true),
            Heard::NotTheDesk(strange) => self.end_by_stranger(ask, strange),
            Heard::Unknown(why) | Heard::Unsent(why) => self.end_unanswered(why),
        }
    }

    // Admins see machines and orders, users machines alone, and the power program orders alone.
    fn role(&mut self) -> Step<Role> {
        if !self.is_let(&Ask::Orders)? {
            return Ok(Role::User);
        }
        let machine = Ask::Machine(Number::FIRST);
        Ok(if self.is_let(&machine)? {
            Role::Admin
        } else {
            Role::Power
        })
    }

    /// Prints that the desk is there, and which role the token has.
    pub(crate) fn greet(&mut self) -> Step<TaskEnd> {
        let role = self.role()?.text();
        if self.line.json {
            self.print_line(format_args!("{{\"role\":\"{role}\"}}"))?;
        } else {
            let desk = format!(in self.alloc; "http://{}", self.desk.address.authority.text())?;
            self.print_line(format_args!("the boot desk at {desk} is there; your role is {role}"))?;
        }
        Ok(TaskEnd::Done)
    }
}
