//! What a line would send is said, and nothing is sent.
use crate::end::{Step, TaskEnd};
use crate::importing::command_of;
use crate::session::Session;
use crate::surroundings::Surroundings;
use hall_events::HallCommand;
use hall_report::ImportRow;
use hall_types::{Number, Outcome};
use hallctl_words::{Listing, NewOperator, Which, Wish};

impl<S: Surroundings> Session<'_, S> {
    // Says which command would be sent, with a key of its own.
    fn tell_command(&mut self, command: &HallCommand) -> Step<()> {
        let text = command.text(self.alloc)?;
        self.print_line(format_args!("POST /commands {text}"))
    }

    fn tell_commands(&mut self, commands: &[HallCommand]) -> Step<()> {
        for command in commands {
            self.tell_command(command)?;
        }
        Ok(())
    }

    fn tell_row(&mut self, row: &ImportRow) -> Step<()> {
        let command = command_of(row);
        let told = self.tell_command(&command);
        drop(command);
        told
    }

    fn tell_rows(&mut self, path: &str) -> Step<()> {
        let rows = self.rows_of(path)?;
        for row in rows.as_slice() {
            self.tell_row(row)?;
        }
        Ok(())
    }

    fn tell_listing(&mut self, listing: &Listing<'_>) -> Step<()> {
        match listing {
            Listing::Machine(Which::Number(machine)) => {
                self.print_line(format_args!("GET /machines/{}", machine.get()))
            }
            Listing::Machines(_) | Listing::Machine(Which::Address(_)) => {
                self.print_line("GET /machines")
            }
            Listing::Orders => self.print_line("GET /orders"),
        }
    }

    fn tell_answer(&mut self, order: Number, outcome: Outcome) -> Step<()> {
        let (order, outcome) = (order.get(), outcome.text());
        self.print_line(format_args!("POST /orders/{order} {{\"outcome\":\"{outcome}\"}}"))
    }

    fn tell_operator(&mut self, new: &NewOperator<'_>) -> Step<()> {
        let (operator, role) = (new.operator, new.role.text());
        self.print_line(format_args!(
            "POST /commands {{\"command\":\"add_operator\",\"digest\":\"that of a new token\",\"operator\":\"{operator}\",\"role\":\"{role}\"}}"
        ))
    }

    /// Says what the line would send, a line for each request.
    pub(crate) fn tell(&mut self) -> Step<TaskEnd> {
        let line = self.line;
        match &line.wish {
            Wish::List(listing) => self.tell_listing(listing)?,
            Wish::Answer { order, outcome } => self.tell_answer(*order, *outcome)?,
            Wish::Hello => self.print_line("GET /orders\nGET /machines/1")?,
            Wish::Change(commands) => self.tell_commands(commands.as_slice())?,
            Wish::NewOperator(new) => self.tell_operator(new)?,
            Wish::Import(path) => self.tell_rows(path)?,
            Wish::Wait(_) | Wish::Halls | Wish::Completion => self.print_line("GET /machines")?,
        }
        Ok(TaskEnd::Done)
    }
}
