//! Command lines of hallctl, ready to copy.
use crate::markup::Page;
use crate::value::Value;
use hall_types::{Erase, Machine, Status};
use hallview_state::{Hall, Listed};

/// How hallctl is called for a hall, which is named where there is a file of halls.
pub(crate) fn put_hallctl(page: &mut Page, hall: &Hall) {
    if page.context.is_named {
        page.put("hallctl --hall {}", &[Value::Text(hall.name.text())]);
    } else {
        page.put("hallctl", &[]);
    }
}

/// A command on a hall.
pub(crate) fn put_line(page: &mut Page, hall: &Hall, words: &'static str) {
    page.put(" <code>", &[]);
    put_hallctl(page, hall);
    page.put(" {}</code>", &[Value::Text(words)]);
}

// How a machine that failed to be released is to be erased.
fn erase_for(machine: &Machine) -> &'static str {
    match (machine.status, machine.erase) {
        (Status::FailedReleasing, _) => "none",
        (_, Some(Erase::Full)) => "full",
        _ => "quick",
    }
}

// What stands after a word and the machines' numbers.
fn put_options(page: &mut Page, word: &str, machine: &Machine) {
    match (word, &machine.image) {
        ("deploy", Some(image)) => page.put(" --image {}", &[Value::Text(image.text())]),
        ("deploy", None) => page.put(" --image IMAGE", &[]),
        ("release", _) => page.put(" --erase {}", &[Value::Text(erase_for(machine))]),
        _ => {}
    }
}

// How many spans of numbers a command has at most.
const MAX_SPANS: usize = 20;

// Whether a machine's number follows that of the one before.
fn follows(machines: &[&Listed], place: usize) -> bool {
    match (machines.get(place.wrapping_sub(1)), machines.get(place)) {
        (Some(before), Some(one)) => before.machine.id.get().saturating_add(1)
            == one.machine.id.get(),
        _ => false,
    }
}

/// How many machines of those whose numbers rise the first 20 spans have.
pub(crate) fn in_spans(machines: &[&Listed]) -> usize {
    let mut spans: usize = 0;
    for place in 0..machines.len() {
        if !follows(machines, place) {
            if spans == MAX_SPANS {
                return place;
            }
            spans = spans.saturating_add(1);
        }
    }
    machines.len()
}

// The first spans of the machines' numbers as hallctl reads them, as `7 12-15`. They rise.
fn put_spans(page: &mut Page, machines: &[&Listed]) {
    for (place, one) in machines.iter().enumerate().take(in_spans(machines)) {
        let id = Value::Number(one.machine.id.get());
        if !follows(machines, place) {
            page.put(" {}", &[id]);
        } else if !follows(machines, place.saturating_add(1)) {
            page.put("-{}", &[id]);
        }
    }
}

/// A command on the first machines of these, for one of which the options are.
pub(crate) fn put_command(
    page: &mut Page,
    hall: &Hall,
    word: &'static str,
    machines: &[&Listed],
    one: &Machine,
) {
    page.put(" <code>", &[]);
    put_hallctl(page, hall);
    page.put(" {}", &[Value::Text(word)]);
    put_spans(page, machines);
    put_options(page, word, one);
    page.put("</code>", &[]);
}
