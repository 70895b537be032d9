//! Numbers of machines, and ranges of numbers.
ghost use Rattle.std.specs.Prelude.{◌≡◌, ◌==◌, ◌<◌, ◌≤◌, ◌+◌, ◌++◌, length, vec_len, map, position, IfOk, IfSome, OnOk, IfErr, Some, None};
ghost use Rattle.hall_types.specs.Number.{max_number, number_of_text};
ghost use Rattle.hallctl_words.specs.Spans.{between, machines_in, max_machines, numbers_from, span_in, with_word, IsWordsFault};

use command_rows::{OptionRow, Wrong};
use hall_types::Number;
use pxe_vendor::numeral;
use std::alloc::{AllocError, Global};

/// The maximum of the machines that one command line names: as many as a hall has.
pub(crate) const MAX_MACHINES: usize = 10_000;

// So many numbers from a first one on.
#[derive(Clone, Copy)]
struct Span {
    first: u64,
    count: u64,
}

// The number of a machine.
fn number_of(text: &[u8]) -> Option<Number>
    ensures { result ≡ number_of_text text.now }
{
    Number::new(numeral(text)?).ok()
}

#[tactic(auto, unfolding(crate::specs::Spans::between))]
fn between(first: &[u8], last: &[u8]) -> Option<Span>
    ensures span { result ≡ between first.now last.now }
    ensures positive { IfSome result (λ span. 1 ≤ span.first) }
    ensures range { IfSome result (λ span. span.first + span.count ≤ max_number + 1) }
{
    let first = number_of(first)?.get();
    let last = number_of(last)?.get();
    if first > last {
        return None;
    }
    Some(Span {
        first,
        count: last - first + 1,
    })
}

fn hyphen_in(text: &[u8]) -> Option<usize>
    ensures place { result ≡ position (λ octet. octet == 45) text.now }
    ensures within { IfSome result (λ hyphen. hyphen < length text.now) }
{
    text.iter().position(|octet| *octet == b'-')
}

// A number, or two numbers with a hyphen between them.
#[tactic(auto, unfolding(crate::specs::Spans::span_in))]
fn span_of(text: &[u8]) -> Option<Span>
    ensures span { result ≡ span_in text.now }
    ensures positive { IfSome result (λ span. 1 ≤ span.first) }
    ensures range { IfSome result (λ span. span.first + span.count ≤ max_number + 1) }
{
    match hyphen_in(text) {
        Some(hyphen) => between(&text[..hyphen], &text[hyphen + 1..]),
        None => between(text, text),
    }
}

#[tactic(auto, using(crate::proofs::SpanLemmas::pushed))]
fn push_from(machines: &mut Vec<Number>, first: u64, count: u64) -> Result<(), AllocError>
    requires positive { 1 ≤ first }
    requires range { first + count ≤ max_number + 1 }
    ensures items { OnOk result (machines.new.items ≡ machines.old.items ++ numbers_from first count) }
    ensures len { OnOk result (vec_len machines.new ≡ vec_len machines.old + count) }
{
    for i in 0..count {
        match Number::new(first + i) {
            Ok(number) => machines.push(number)?,
            Err(_) => unreachable!(),
        }
    }
    Ok(())
}

// Adds the machines of a word of this option, if they aren't too many.
fn push_word(
    alloc: Global,
    machines: &mut Vec<Number>,
    row: &OptionRow,
    word: &str,
) -> Result<(), Wrong>
    requires { vec_len machines.old ≤ max_machines }
    ensures ok { OnOk result (with_word machines.old.items word.entry.now ≡ Some machines.new.items) }
    ensures few { OnOk result (vec_len machines.new ≤ max_machines) }
    ensures fault { IfErr result (λ fault. IsWordsFault fault → with_word machines.old.items word.entry.now ≡ None) }
{
    let Some(span) = span_of(word.as_bytes()) else {
        return Err(Wrong::of(alloc, row, Some(word)));
    };
    if span.count > (MAX_MACHINES - machines.len()) as u64 {
        return Err(Wrong::of(alloc, row, Some(word)));
    }
    push_from(machines, span.first, span.count)?;
    Ok(())
}

/// The machines that words of this option name, each by its number or in a range of numbers as `5-9`: 10,000 at most.
pub(crate) fn machines_of(
    alloc: Global,
    row: &OptionRow,
    words: &[&str],
) -> Result<Vec<Number>, Wrong>
    ensures ok { IfOk result (λ machines. machines_in (map (λ word. word.now) words.entry.now) ≡ Some machines.items) }
    ensures fault { IfErr result (λ fault. IsWordsFault fault → machines_in (map (λ word. word.now) words.entry.now) ≡ None) }
{
    let mut machines = Vec::new(alloc);
    for word in words {
        push_word(alloc, &mut machines, row, word)?;
    }
    Ok(machines)
}
