//! Printing what comes of an act.
use crate::fault::CaseFault;
use std::alloc::Global;
use std::fmt::{Debug, Display};
use std::mem;

/// What comes of an act, as far as it is printed. Want of memory is noted, and what is printed after it may be lost.
#[derive(Drop)]
pub struct Out {
    alloc: Global,
    text: String,
    is_short: bool,
}

impl Out {
    /// Nothing is printed yet.
    pub fn new(alloc: Global) -> Out {
        Out {
            alloc,
            text: String::new(alloc),
            is_short: false,
        }
    }

    /// Where memory comes from.
    pub fn alloc(&self) -> Global {
        self.alloc
    }

    /// What was printed.
    pub fn as_str(&self) -> &str {
        self.text.as_str()
    }

    /// The text that was printed.
    pub fn into_text(self) -> Result<String, CaseFault> {
        if self.is_short {
            return Err(CaseFault::Memory);
        }
        Ok(self.text)
    }

    /// The text that was printed; then nothing is printed yet.
    pub fn take(&mut self) -> Result<String, CaseFault> {
        mem::replace(self, Out::new(self.alloc)).into_text()
    }

    /// Prints a text.
    pub fn push(&mut self, text: &str) {
        if self.text.push_str(text).is_err() {
            self.is_short = true;
        }
    }

    /// Prints a text and a line feed.
    pub fn line(&mut self, text: &str) {
        self.push(text);
        self.push("\n");
    }

    /// Prints a value.
    pub fn show(&mut self, value: impl Display + Drop) {
        if write!(self.text, "{value}").is_err() {
            self.is_short = true;
        }
    }

    /// Prints the number and the name of a fault, or of another one of a kind.
    pub fn fault(&mut self, number: u8, name: impl Debug + Drop) {
        self.show(format_args!("{number} {name:?}"));
    }

    /// Prints what separates parts of an answer, before each but the first.
    pub fn separate(&mut self) {
        if !self.text.is_empty() {
            self.push("; ");
        }
    }

    /// Prints octets in hexadecimal.
    pub fn hex(&mut self, octets: &[u8]) {
        match hex::encode(self.alloc, octets) {
            Ok(digits) => self.push(digits.as_str()),
            Err(_) => self.is_short = true,
        }
    }

    fn octet(&mut self, octet: u8) {
        match octet {
            b'\n' => self.push("\\n"),
            b'\r' => self.push("\\r"),
            b'\t' => self.push("\\t"),
            0 => self.push("\\0"),
            b' '..=b'[' | b']'..=b'~' => self.show(char::from(octet)),
            _ => self.show(format_args!("\\x{octet:02x}")),
        }
    }

    /// Prints octets as a text with escapes.
    pub fn escaped(&mut self, octets: &[u8]) {
        for octet in octets {
            self.octet(*octet);
        }
    }
}
