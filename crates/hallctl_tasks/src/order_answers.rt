//! A power order is answered by hand.
use crate::answer::Answer;
use crate::desk::Heard;
use crate::end::{Step, TaskEnd};
use crate::session::Session;
use crate::surroundings::Surroundings;
use hall_types::{Number, Outcome};
use hallctl_requests::Ask;
use hallctl_texts::{DeskAnswer, refusal_line};
use std::fmt::Display;

impl<S: Surroundings> Session<'_, S> {
    // Prints a line about an order.
    fn print_order(&mut self, order: Number, line: impl Display + Drop) -> Step<()> {
        let order = order.get();
        self.print_line(format_args!("order {order}: {line}"))
    }

    // Prints what the desk says of the answer to an order, as it came or as a line.
    fn print_noted(
        &mut self,
        order: Number,
        outcome: Outcome,
        said: &DeskAnswer,
        answer: &Answer,
    ) -> Step<TaskEnd> {
        let word = outcome.text();
        match (answer.text(), said) {
            (Some(text), _) if self.line.json => self.print_line(text)?,
            (_, DeskAnswer::Refused(refusal)) => {
                let line = refusal_line(self.alloc, None, *refusal)?;
                self.print_order(order, line)?;
            }
            (_, DeskAnswer::Repeated) => {
                self.print_order(order, format_args!("{word}, as before"))?;
            }
            _ => self.print_order(order, word)?,
        }
        match said {
            DeskAnswer::Refused(_) => Ok(TaskEnd::Refused),
            _ => Ok(TaskEnd::Done),
        }
    }

    /// Tells the desk what an order has come to. Said again, it counts once.
    pub(crate) fn answer_order(&mut self, order: Number, outcome: Outcome) -> Step<TaskEnd> {
        let ask = Ask::Answer { order, outcome };
        match self.ask(&ask)? {
            Heard::Said(said, answer) => self.print_noted(order, outcome, &said, &answer),
            Heard::NotTheDesk(strange) => self.end_by_stranger(&ask, strange),
            Heard::Unknown(why) | Heard::Unsent(why) => self.end_unanswered(why),
        }
    }
}
