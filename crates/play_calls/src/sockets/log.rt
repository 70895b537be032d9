//! The log of the service's turns.
use super::client::Client;
use cases::{Out, Played};
use desk_lines::{arrival_text, is_of_note};
use hall_desk::{Account, Answer, What};
use hall_report::LogFormat;
use hall_types::{Moment, Port};
use hallboot_tasks::turn_line;
use serve_sockets::{Handover, Kind, Said, Turn, TurnLog};
use std::alloc::Global;

/// Keeps the lines of turns, and counts the turns.
#[derive(Drop)]
pub struct Log {
    // The text of the last arrival, if it's of note and its turn wasn't noted yet.
    arrival: Option<String>,
    lines: Out,
    // The addresses from which something was handed over, each with a blank after it.
    handed: Out,
    /// How many turns there were.
    pub turns: u64,
    /// How many turns in a row moved nothing.
    pub still: u64,
    /// How many times stamps began to fail.
    pub failures: u64,
}

// A word, or the name of the client whose address it is.
fn name_of<'a>(word: &'a str, clients: &'a [Client]) -> &'a str {
    let mut clients = clients.iter().rev();
    let client = clients.find(|client| client.address.as_str() == word);
    client.map_or(word, |client| client.name.as_str())
}

// Prints a text with clients' names in place of addresses.
fn push_named(out: &mut Out, text: &str, clients: &[Client]) {
    for (place, word) in text.split(' ').enumerate() {
        if place > 0 {
            out.push(" ");
        }
        out.push(name_of(word, clients));
    }
}

impl Log {
    /// No turn is noted yet.
    pub fn new(alloc: Global) -> Log {
        Log {
            arrival: None,
            lines: Out::new(alloc),
            handed: Out::new(alloc),
            turns: 0,
            still: 0,
            failures: 0,
        }
    }

    /// Prints the names of the clients from whom something was handed over since the last call.
    pub fn push_handed(&mut self, out: &mut Out, clients: &[Client]) -> Played {
        let handed = self.handed.take()?;
        push_named(out, handed.as_str().trim_end(), clients);
        Ok(())
    }

    /// Prints the lines about the client with an address, with clients' names in place of addresses.
    pub fn push_about(&self, out: &mut Out, address: &str, clients: &[Client]) {
        for line in self.lines.as_str().lines() {
            if line.split(' ').nth(1) == Some(address) {
                push_named(out, line, clients);
                out.push("\n");
            }
        }
    }
}

// Prints what was handed over: its kind, how many octets it had, and what the desk said.
fn push_handover(out: &mut Out, handover: &Handover) {
    let kind = match handover.kind {
        Kind::Datagram(Port::Discover) => "discover",
        Kind::Datagram(Port::Boot) => "boot",
        Kind::Request => "request",
        Kind::Quiet => "quiet",
    };
    out.show(format_args!(" ({kind} of {} octets: ", handover.len));
    match handover.said {
        Said::Silence => out.push("silence)"),
        Said::Unavailable => out.push("unavailable)"),
        Said::Frame { len } => out.show(format_args!("a frame of {len})")),
        Said::Response { status, len } => out.show(format_args!("{status}, {len} octets)")),
    }
}

impl TurnLog for Log {
    fn arrived(&mut self, what: What<'_>, answer: &Answer, account: &Account) {
        if is_of_note(what, answer, account) {
            self.arrival = arrival_text(self.lines.alloc(), what, answer, account).ok();
        }
    }

    fn note(&mut self, moment: Moment, turn: &Turn) {
        self.turns = self.turns.saturating_add(1);
        let handover = match turn {
            Turn::Handed(handover) | Turn::Unsent(handover) => Some(handover),
            _ => None,
        };
        self.still = match turn {
            Turn::Nothing => self.still.saturating_add(1),
            Turn::Handed(handover) if handover.kind == Kind::Quiet => self.still.saturating_add(1),
            _ => 0,
        };
        if let Some(from) = handover.and_then(|handover| handover.from) {
            self.handed.show(format_args!("{from} "));
        }
        let arrival = self.arrival.take();
        let arrival = arrival.as_ref().map(|text| text.as_str());
        let (alloc, format) = (self.lines.alloc(), LogFormat::Seconds);
        if let Ok(Some(line)) = turn_line(alloc, format, moment, turn, arrival) {
            self.lines.push(line.as_str().trim_end());
            if let Some(handover) = handover {
                push_handover(&mut self.lines, handover);
            }
            self.lines.push("\n");
        }
    }

    fn unstamped(&mut self) {
        self.failures = self.failures.saturating_add(1);
    }
}
