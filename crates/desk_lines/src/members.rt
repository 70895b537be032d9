//! The members of an object of JSON (RFC 8259 section 4), one after another.
use serde_json::Value;
use std::alloc::{AllocError, Global};

/// A text of a log, or want of memory for it.
pub type Text = Result<String, AllocError>;

/// Members of an object, without its brackets. Want of memory is noted, and comes with the text.
#[derive(Drop)]
pub struct Members {
    alloc: Global,
    text: String,
    is_short: bool,
}

fn escaped(alloc: Global, value: &str) -> Text {
    Value::try_from_str(alloc, value)?.to_string(alloc)
}

impl Members {
    /// No members yet. `alloc` is for their text.
    pub fn new(alloc: Global) -> Members {
        Members {
            alloc,
            text: String::new(alloc),
            is_short: false,
        }
    }

    /// Where memory comes from.
    pub fn alloc(&self) -> Global {
        self.alloc
    }

    fn push(&mut self, text: &str) {
        self.is_short |= self.text.push_str(text).is_err();
    }

    // A name needs no escape, nor does the value.
    fn push_member(&mut self, name: &str, value: Text) {
        if !self.text.is_empty() {
            self.push(",");
        }
        self.push("\"");
        self.push(name);
        self.push("\":");
        match value {
            Ok(value) => self.push(value.as_str()),
            Err(AllocError) => self.is_short = true,
        }
    }

    /// Adds a member with a text, whose characters are escaped (RFC 8259 section 7). The name needs no escape.
    pub fn push_text(&mut self, name: &str, value: &str) {
        self.push_member(name, escaped(self.alloc, value));
    }

    /// Adds a member with a text that was made for it, or what there was no memory for.
    pub fn push_made(&mut self, name: &str, value: Text) {
        match value {
            Ok(value) => self.push_text(name, value.as_str()),
            Err(AllocError) => self.is_short = true,
        }
    }

    /// Adds a member with a number.
    pub fn push_number(&mut self, name: &str, number: u64) {
        self.push_member(name, number.to_string(self.alloc));
    }

    /// Adds a member that is true.
    pub fn push_true(&mut self, name: &str) {
        self.push_member(name, String::from_str(self.alloc, "true"));
    }

    /// Adds members that were written before, if there are any.
    pub fn push_members(&mut self, members: &str) {
        if !self.text.is_empty() && !members.is_empty() {
            self.push(",");
        }
        self.push(members);
    }

    pub(crate) fn into_text(self) -> Text {
        if self.is_short {
            return Err(AllocError);
        }
        Ok(self.text)
    }

    /// The object, with a line feed.
    pub fn into_line(self) -> Text {
        let alloc = self.alloc;
        let text = self.into_text()?;
        format!(in alloc; "{{{text}}}\n")
    }
}
