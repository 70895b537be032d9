//! Pages, written part by part. What isn't the program's own markup is text: no value begins a tag, an attribute or an entity.
ghost use Rattle.std.specs.Prelude.{◌≡◌, ◌≢◌, ◌++◌, IsFalse, IsTrue, OnOk, IfOk};
ghost use Rattle.hallview_pages.specs.{Ages.Grows, Markup.{IsPage, after, entity, escape, step}};

use crate::value::{Context, Value};
use std::alloc::{AllocError, Global};
use std::marker::Model;

/// Where a reader of markup stands.
#[derive(Clone, Copy)]
pub(crate) enum Place {
    /// In text.
    Text,
    /// In a tag, and in no value of an attribute.
    Tag,
    /// In the value of an attribute.
    Quoted,
}

#[tactic(auto, unfolding(crate::specs::Markup::step))]
fn step(place: Place, octet: u8) -> Place
    ensures { result ≡ step place octet }
{
    match place {
        Place::Text if octet == b'<' => Place::Tag,
        Place::Text => Place::Text,
        Place::Tag if octet == b'>' => Place::Text,
        Place::Tag if octet == b'"' => Place::Quoted,
        Place::Tag => Place::Tag,
        Place::Quoted if octet == b'"' => Place::Tag,
        Place::Quoted => Place::Quoted,
    }
}

fn after(place: Place, octets: &[u8]) -> Place
    ensures { result ≡ after place octets.now }
{
    octets
        .iter()
        .fold(place, |place, octet| step(place, *octet))
}

fn is_tag(place: Place) -> bool
    ensures { IsFalse result → place ≢ Place.Tag }
{
    matches!(place, Place::Tag)
}

fn is_text(place: Place) -> bool
    ensures { IsTrue result → place ≡ Place.Text }
{
    matches!(place, Place::Text)
}

/// A page so far. Contracts see its octets.
#[derive(Drop)]
pub(crate) struct Page {
    alloc: Global,
    octets: Vec<u8>,
    place: Place,
    pub(crate) context: Context,
    // Memory was wanting for a part.
    is_short: bool,
}

impl Model for Page {
    ghost use Rattle.std.specs.Prelude.{◌≡◌, ℕ, List};
    ghost use Rattle.hallview_pages.specs.Markup.{IsPage, after};
    ghost use Rattle.hallview_pages.specs.declared.markup.Place.TheVariants.{Text};

    ghost Value = { List ℕ };

    ghost view = { λ page. page.octets.items };

    ghost invariant = { λ page. IsPage page.octets.items × (page.place ≡ after Text page.octets.items) };
}

// The octets that stand for one of a text, if it isn't itself.
#[tactic(auto, unfolding(crate::specs::Markup::entity))]
fn push_entity(octets: &mut Vec<u8>, octet: u8) -> Result<(), AllocError>
    ensures { OnOk result (octets.new.items ≡ octets.old.items ++ entity octet) }
{
    match octet {
        b'&' => octets.extend_from_slice(b"&amp;"),
        b'<' => octets.extend_from_slice(b"&lt;"),
        b'>' => octets.extend_from_slice(b"&gt;"),
        b'"' => octets.extend_from_slice(b"&quot;"),
        b'\'' => octets.extend_from_slice(b"&#39;"),
        _ => octets.extend_from_slice(&[octet]),
    }
}

fn escaped(alloc: Global, text: &str) -> Result<Vec<u8>, AllocError>
    ensures { IfOk result (λ octets. octets.items ≡ escape text.now) }
{
    let mut octets = Vec::with_capacity(alloc, text.len())?;
    for octet in text.bytes() {
        push_entity(&mut octets, octet)?;
    }
    Ok(octets)
}

impl Page {
    /// A page before its first part.
    pub(crate) fn new(alloc: Global, context: Context) -> Page {
        Page {
            alloc,
            octets: Vec::new(alloc),
            place: Place::Text,
            context,
            is_short: false,
        }
    }

    /// Writes markup without a text.
    pub(crate) fn mark(&mut self, part: &'static str) -> Result<(), AllocError>
        ensures { OnOk result (self.new ≡ self.old ++ part.now) }
    {
        let part = part.as_bytes();
        self.octets.extend_from_slice(part)?;
        self.place = after(self.place, part);
        Ok(())
    }

    /// Writes a text, and says whether it was written: within a tag nothing is.
    pub(crate) fn push_text(&mut self, part: &str) -> Result<bool, AllocError>
        ensures text { IfOk result (λ written. IsTrue written → self.new ≡ self.old ++ escape part.now) }
        ensures nothing { IfOk result (λ written. IsFalse written → self.new ≡ self.old) }
    {
        if is_tag(self.place) {
            return Ok(false);
        }
        let part = escaped(self.alloc, part)?;
        self.octets.extend_from_slice(part.as_slice())?;
        Ok(true)
    }

    // Writes a value. Within a tag nothing is written.
    fn push_value(&mut self, value: Value<'_>) -> Result<(), AllocError> {
        let text = value.text(self.alloc, self.context.now)?;
        let _ = self.push_text(text.as_str())?;
        Ok(())
    }

    /// Writes markup, with a value in place of each `{}`, or gives up for want of memory.
    pub(crate) fn try_put(
        &mut self,
        markup: &'static str,
        values: &[Value<'_>],
    ) -> Result<(), AllocError> {
        let mut parts = markup.split("{}");
        self.mark(parts.next().unwrap_or(""))?;
        for (part, value) in parts.zip(values.iter()) {
            self.push_value(*value)?;
            self.mark(part)?;
        }
        Ok(())
    }

    /// Writes markup, with a value in place of each `{}`. Want of memory is noted.
    pub(crate) fn put(&mut self, markup: &'static str, values: &[Value<'_>]) {
        if self.try_put(markup, values).is_err() {
            self.is_short = true;
        }
    }

    /// Writes all of another page. Within a tag nothing is written. An error is want of memory, here or of what the other page lacks.
    pub(crate) fn append(&mut self, other: &Page) -> Result<(), AllocError>
        ensures { OnOk result (Grows self.old self.new) }
    {
        if other.is_short {
            return Err(AllocError);
        }
        if is_text(self.place) {
            self.octets.extend_from_slice(other.octets.as_slice())?;
            self.place = other.place;
        }
        Ok(())
    }

    /// The octets of the page. An error is want of memory for one of its parts.
    pub(crate) fn into_octets(self) -> Result<Vec<u8>, AllocError>
        ensures page { IfOk result (λ octets. IsPage octets.items) }
        ensures octets { IfOk result (λ octets. octets.items ≡ self) }
    {
        if self.is_short {
            return Err(AllocError);
        }
        Ok(self.octets)
    }
}
