//! Samples as text (Prometheus' text format 0.0.4, OpenMetrics 1.0). Contracts see what a plain reader finds in the text.
ghost use Rattle.std.specs.Prelude.{◌≡◌, true, ◌∷◌, ◌++◌, [], List, codes, flat_map, string_bytes, IfOk, OnOk};
ghost use Rattle.hallview_state.specs.{Exposition.{AreLines, IsBegun, Sample, at_line, escaped, is_one_line, label_text, read, with_label, with_value}, Families.{label_name, of_hall}, declared.families.Label.Label};

use crate::families::{Family, Label};
use std::alloc::{AllocError, Global};
use std::marker::Model;

// The octets that stand for one of a label's value.
#[tactic(auto, unfolding(crate::specs::Exposition::escaped))]
fn push_octet(octets: &mut Vec<u8>, octet: u8) -> Result<(), AllocError>
    ensures { OnOk result (octets.new.items ≡ octets.old.items ++ escaped octet) }
{
    match octet {
        b'\\' => octets.extend_from_slice(b"\\\\"),
        b'"' => octets.extend_from_slice(b"\\\""),
        b'\n' => octets.extend_from_slice(b"\\n"),
        _ => octets.extend_from_slice(&[octet]),
    }
}

fn push_escaped(octets: &mut Vec<u8>, text: &str) -> Result<(), AllocError>
    ensures { OnOk result (octets.new.items ≡ octets.old.items ++ flat_map escaped text.now) }
{
    for octet in text.bytes() {
        push_octet(octets, octet)?;
    }
    Ok(())
}

fn push_label(octets: &mut Vec<u8>, label: Label, text: &str) -> Result<(), AllocError>
    ensures { OnOk result (octets.new.items ≡ octets.old.items ++ label_text (label_name label) text.now) }
{
    octets.extend_from_slice(label.name().as_bytes())?;
    octets.extend_from_slice(b"=\"")?;
    push_escaped(octets, text)?;
    octets.extend_from_slice(b"\"")
}

/// The beginning of a sample: its name, and the hall.
#[tactic(auto, using(crate::proofs::FamilyLemmas::family_begins))]
fn begun(alloc: Global, family: Family, hall: &str) -> Result<Vec<u8>, AllocError>
    ensures { IfOk result (λ octets. IsBegun octets.items (of_hall family hall.now)) }
{
    let mut octets = Vec::from_slice(alloc, family.sample_name().as_bytes())?;
    octets.extend_from_slice(b"{")?;
    push_label(&mut octets, Label::Hall, hall)?;
    Ok(octets)
}

// Another label of a sample.
#[tactic(auto, using(crate::specs::ExpositionLaws::samples_go_on, crate::proofs::FamilyLemmas::label_is_plain))]
fn push_next(octets: &mut Vec<u8>, label: Label, text: &str) -> Result<(), AllocError>
    ensures { OnOk result ((sample : Sample) → IsBegun octets.old.items sample → IsBegun octets.new.items (with_label sample (label_name label) text.now)) }
{
    octets.extend_from_slice(b",")?;
    push_label(octets, label, text)
}

// The value of a sample.
#[tactic(auto, using(crate::specs::ExpositionLaws::samples_end))]
fn push_value(octets: &mut Vec<u8>, value: &str) -> Result<(), AllocError>
    requires { is_one_line value.now ≡ true }
    ensures { OnOk result ((sample : Sample) → IsBegun octets.old.items sample → AreLines octets.new.items (with_value sample value.now ∷ [])) }
{
    octets.extend_from_slice(b"} ")?;
    octets.extend_from_slice(value.as_bytes())?;
    octets.extend_from_slice(b"\n")
}

fn comment_text(alloc: Global, kind: &str, name: &str, text: &str) -> Result<String, AllocError>
    ensures { IfOk result (λ octets. string_bytes octets ≡ kind.now ++ name.now ++ codes " " ++ text.now) }
{
    let mut octets = String::from_str(alloc, kind)?;
    octets.push_str(name)?;
    octets.push_str(" ")?;
    octets.push_str(text)?;
    Ok(octets)
}

// A line that isn't a sample.
#[tactic(auto, using(crate::specs::ExpositionLaws::comments_are_skipped))]
fn comment(alloc: Global, text: &str) -> Result<Vec<u8>, AllocError>
    requires { is_one_line text.now ≡ true }
    ensures { IfOk result (λ octets. AreLines octets.items []) }
{
    let mut octets = Vec::from_slice(alloc, b"#")?;
    octets.extend_from_slice(text.as_bytes())?;
    octets.extend_from_slice(b"\n")?;
    Ok(octets)
}

/// Metrics so far, in one of the two formats. Contracts see the samples that a reader finds in them.
#[derive(Drop)]
pub(crate) struct Metrics {
    alloc: Global,
    octets: Vec<u8>,
    is_open: bool,
}

impl Model for Metrics {
    ghost use Rattle.std.specs.Prelude.{◌≡◌, List};
    ghost use Rattle.hallview_state.specs.Exposition.{Sample, at_line, read};

    ghost Value = { List Sample };

    ghost view = { λ metrics. (read metrics.octets.items).samples };

    ghost invariant = { λ metrics. read metrics.octets.items ≡ at_line (read metrics.octets.items).samples };
}

impl Metrics {
    /// None yet.
    pub(crate) fn new(alloc: Global, is_open: bool) -> Metrics
        ensures { result ≡ [] }
    {
        Metrics {
            alloc,
            octets: Vec::new(alloc),
            is_open,
        }
    }

    // Writes whole lines.
    fn push(&mut self, lines: &[u8]) -> Result<(), AllocError>
        requires { (more : List Sample) × AreLines lines.now more }
        ensures { OnOk result ((more : List Sample) → AreLines lines.now more → self.new ≡ self.old ++ more) }
    {
        self.octets.extend_from_slice(lines)
    }

    // A line that isn't a sample's. `kind` begins with a space.
    fn push_comment(&mut self, kind: &str, name: &str, text: &str) -> Result<(), AllocError>
        requires kind { is_one_line kind.now ≡ true }
        requires name { is_one_line name.now ≡ true }
        requires text { is_one_line text.now ≡ true }
        ensures { OnOk result (self.new ≡ self.old) }
    {
        let text = comment_text(self.alloc, kind, name, text)?;
        let line = comment(self.alloc, text.as_str())?;
        self.push(line.as_slice())
    }

    // The name of a family. Prometheus' own format has that of its samples.
    fn name_of(&self, family: Family) -> &'static str
        ensures { is_one_line result.now ≡ true }
    {
        if self.is_open {
            family.name()
        } else {
            family.sample_name()
        }
    }

    /// The lines before the samples of a family.
    pub(crate) fn begin(&mut self, family: Family) -> Result<(), AllocError>
        ensures { OnOk result (self.new ≡ self.old) }
    {
        let name = self.name_of(family);
        self.push_comment(" TYPE ", name, family.kind())?;
        if self.is_open && matches!(family, Family::Pause | Family::Took | Family::Age) {
            self.push_comment(" UNIT ", name, "seconds")?;
        }
        self.push_comment(" HELP ", name, family.help())
    }

    // A sample that has all of its labels, with its value.
    fn push_sample(&mut self, octets: Vec<u8>, value: &str) -> Result<(), AllocError>
        requires begun { (sample : Sample) × IsBegun octets.items sample }
        requires value { is_one_line value.now ≡ true }
        ensures { OnOk result ((sample : Sample) → IsBegun octets.items sample → self.new ≡ self.old ++ with_value sample value.now ∷ []) }
    {
        let mut octets = octets;
        push_value(&mut octets, value)?;
        self.push(octets.as_slice())
    }

    /// A sample of a hall.
    pub(crate) fn add(&mut self, family: Family, hall: &str, value: &str) -> Result<(), AllocError>
        requires { is_one_line value.now ≡ true }
        ensures { OnOk result (self.new ≡ self.old ++ with_value (of_hall family hall.now) value.now ∷ []) }
    {
        let octets = begun(self.alloc, family, hall)?;
        self.push_sample(octets, value)
    }

    /// A sample of a hall with another label.
    pub(crate) fn add_labelled(
        &mut self,
        family: Family,
        hall: &str,
        label: (Label, &str),
        value: &str,
    ) -> Result<(), AllocError>
        requires { is_one_line value.now ≡ true }
        ensures { OnOk result (self.new ≡ self.old ++ with_value (with_label (of_hall family hall.now) (label_name label.entry.0) label.entry.1.now) value.now ∷ []) }
    {
        let mut octets = begun(self.alloc, family, hall)?;
        push_next(&mut octets, label.0, label.1)?;
        self.push_sample(octets, value)
    }

    /// A sample of a hall with two other labels.
    pub(crate) fn add_twice_labelled(
        &mut self,
        family: Family,
        hall: &str,
        one: (Label, &str),
        other: (Label, &str),
        value: &str,
    ) -> Result<(), AllocError>
        requires { is_one_line value.now ≡ true }
        ensures { OnOk result (self.new ≡ self.old ++ with_value (with_label (with_label (of_hall family hall.now) (label_name one.entry.0) one.entry.1.now) (label_name other.entry.0) other.entry.1.now) value.now ∷ []) }
    {
        let mut octets = begun(self.alloc, family, hall)?;
        push_next(&mut octets, one.0, one.1)?;
        push_next(&mut octets, other.0, other.1)?;
        self.push_sample(octets, value)
    }

    fn push_end(&mut self) -> Result<(), AllocError>
        ensures { OnOk result (self.new ≡ self.old) }
    {
        if self.is_open {
            let line = comment(self.alloc, " EOF")?;
            self.push(line.as_slice())
        } else {
            Ok(())
        }
    }

    /// The octets of all of them.
    pub(crate) fn finish(mut self) -> Result<Vec<u8>, AllocError>
        ensures { IfOk result (λ octets. read octets.items ≡ at_line self) }
    {
        self.push_end()?;
        Ok(self.octets)
    }
}
