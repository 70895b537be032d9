//! Values of pages. Each is written as text.
use hall_types::Status;
use hallctl_texts::allowed_text;
use hallview_state::text::{number, share, span, stamp, stamp_text, until};
use hallview_state::{State, url_word};
use pxe_vendor::print_mac;
use std::alloc::{AllocError, Global};
use uuid::Uuid;

/// A value of a page.
#[derive(Clone, Copy)]
pub(crate) enum Value<'v> {
    Text(&'v str),
    /// A text in lower case.
    Lower(&'v str),
    /// A text as a word of a URL.
    Word(&'v str),
    Number(u64),
    /// How many hundredths of the second number the first one is.
    Share(u64, u64),
    /// How long something lasts, in seconds.
    Span(u64),
    /// How far away a moment is.
    Until(u64),
    /// A moment, as RFC 3339 has it.
    Stamp(u64),
    /// A moment, as people read it.
    Moment(u64),
    /// What a status allows, in a sentence without its end.
    Allowed(Status),
    /// A hardware address.
    Address([u8; 6]),
    /// A UUID in wire order.
    Uuid([u8; 16]),
}

/// When a page is of, and whether its halls have names.
#[derive(Clone, Copy)]
pub(crate) struct Context {
    /// Seconds since 1970.
    pub(crate) now: u64,
    pub(crate) is_named: bool,
}

impl Context {
    /// That of a state now.
    pub(crate) fn of(state: &State, now: u64) -> Context {
        Context {
            now,
            is_named: state.is_named,
        }
    }
}

impl Value<'_> {
    /// Its text on a page of this moment.
    pub(crate) fn text(self, alloc: Global, now: u64) -> Result<String, AllocError> {
        match self {
            Value::Text(text) => String::from_str(alloc, text),
            Value::Lower(text) => text.to_ascii_lowercase(alloc),
            Value::Word(text) => url_word(alloc, text),
            Value::Number(value) => number(alloc, value),
            Value::Share(part, whole) => share(alloc, part, whole),
            Value::Span(seconds) => span(alloc, seconds),
            Value::Until(moment) => until(alloc, moment, now),
            Value::Stamp(moment) => stamp(alloc, moment),
            Value::Moment(moment) => stamp_text(alloc, moment),
            Value::Allowed(status) => allowed_text(alloc, status),
            Value::Address(octets) => print_mac(alloc, &octets),
            Value::Uuid(octets) => Uuid::from_bytes(octets).to_string(alloc),
        }
    }
}
