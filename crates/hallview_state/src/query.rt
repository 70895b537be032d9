//! What the query of a page's URL asks for.
use form_urlencoded::parse;
use percent_encoding::{AsciiSet, NON_ALPHANUMERIC, ascii_set, utf8_percent_encode};
use std::alloc::{AllocError, Global};

/// A field of a query.
#[derive(Clone, Copy, PartialEq, Eq)]
pub enum Field {
    /// The hall that is shown.
    Hall,
    /// What a row of a machine shows.
    Text,
    Pool,
    Owner,
    Status,
    Image,
    /// The column by which machines are sorted, after `-` if it falls.
    Sort,
    /// The page of the machines, from 1 on.
    Page,
}

impl Field {
    /// All of them, in the order of links.
    pub const ALL: [Field; 8] = [
        Field::Hall,
        Field::Text,
        Field::Pool,
        Field::Owner,
        Field::Status,
        Field::Image,
        Field::Sort,
        Field::Page,
    ];

    /// Those that choose machines.
    pub const CHOOSING: [Field; 5] = [
        Field::Text,
        Field::Pool,
        Field::Owner,
        Field::Status,
        Field::Image,
    ];

    /// Its name in URLs.
    pub fn name(self) -> &'static str {
        match self {
            Field::Hall => "hall",
            Field::Text => "q",
            Field::Pool => "pool",
            Field::Owner => "owner",
            Field::Status => "status",
            Field::Image => "image",
            Field::Sort => "sort",
            Field::Page => "page",
        }
    }

    fn with_name(name: &str) -> Option<Field> {
        for field in Field::ALL.as_slice() {
            if field.name() == name {
                return Some(*field);
            }
        }
        None
    }
}

/// The text of a field.
#[derive(Drop)]
struct Given {
    field: Field,
    text: String,
}

/// What a query asks for.
#[derive(Drop)]
pub struct Query {
    given: Vec<Given>,
}

// What no page may have, or what would show other texts in another order: control characters, marks of direction and of nothing.
fn is_shown(character: char) -> bool {
    !matches!(
        character,
        '\0'..='\x1f'
            | '\x7f'..='\u{9f}'
            | '\u{200b}'..='\u{200f}'
            | '\u{2028}'..='\u{202e}'
            | '\u{2060}'..='\u{206f}'
            | '\u{feff}'
            | '\u{fff0}'..='\u{fffb}'
            | '\u{fffe}'..='\u{ffff}'
    )
}

// A text with U+FFFD in place of each character that isn't shown.
fn clean(alloc: Global, text: &str) -> Result<String, AllocError> {
    let mut shown = String::with_capacity(alloc, text.len())?;
    for character in text.chars() {
        shown.push(if is_shown(character) {
            character
        } else {
            '\u{fffd}'
        })?;
    }
    Ok(shown)
}

impl Query {
    /// What follows the `?` of a URL. The first of a repeated field counts, and unknown ones are ignored.
    pub fn parse(alloc: Global, text: &str) -> Result<Query, AllocError> {
        let mut query = Query {
            given: Vec::new(alloc),
        };
        for pair in parse(alloc, text.as_bytes()) {
            let (name, value) = pair?;
            if let Some(field) = Field::with_name(name.as_str()) {
                query.add(alloc, field, value.as_str())?;
            }
        }
        Ok(query)
    }

    fn add(&mut self, alloc: Global, field: Field, text: &str) -> Result<(), AllocError> {
        if self.given_text(field).is_some() {
            return Ok(());
        }
        let text = clean(alloc, text)?;
        self.given.push(Given { field, text })?;
        Ok(())
    }

    fn given_text(&self, field: Field) -> Option<&str> {
        for given in self.given.as_slice() {
            if given.field == field {
                return Some(given.text.as_str());
            }
        }
        None
    }

    /// The text of a field, empty where it isn't given.
    pub fn text(&self, field: Field) -> &str {
        self.given_text(field).unwrap_or("")
    }

    /// Whether it asks for this text in a field, or for nothing in it.
    pub fn takes(&self, field: Field, text: &str) -> bool {
        let wanted = self.text(field);
        wanted.is_empty() || wanted == text
    }
}

// What stands for itself in a URL (RFC 3986 section 2.3).
const ESCAPED: AsciiSet = ascii_set!(
    NON_ALPHANUMERIC
        .remove(b'-')
        .remove(b'.')
        .remove(b'_')
        .remove(b'~')
);

/// A text as a word of a URL.
pub fn url_word(alloc: Global, text: &str) -> Result<String, AllocError> {
    let mut word = String::new(alloc);
    utf8_percent_encode(text, ESCAPED).append_to(&mut word)?;
    Ok(word)
}
