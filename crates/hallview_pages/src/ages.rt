//! How old what is shown of a hall is. Whatever shows a hall by an old list says so.
ghost use Rattle.std.specs.Prelude.{◌≡◌, ◌++◌, IfOk, List, ℕ, codes, string_bytes};
ghost use Rattle.hallview_pages.specs.Ages.{SaysAge, age_words, listed_at};

use crate::markup::Page;
use crate::value::Value;
use hallview_state::text::span;
use hallview_state::{Hall, Loss};
use std::alloc::{AllocError, Global};

// Why a list wasn't renewed.
fn cause(alloc: Global, loss: Option<Loss>) -> Result<String, AllocError> {
    match loss {
        Some(loss) => loss.text(alloc),
        None => String::from_str(alloc, "Its list wasn't renewed in time."),
    }
}

// How old the list of a hall is, in a sentence.
fn age_words(alloc: Global, hall: &Hall, now: u64) -> Result<String, AllocError>
    ensures { IfOk result (λ text. string_bytes text ≡ age_words now (listed_at hall.now)) }
{
    match hall.listed_at() {
        Some(at) => {
            let age = span(alloc, now.saturating_sub(at))?;
            format!(in alloc; "What is shown of it is {age} old.")
        }
        None => String::from_str(alloc, "Nothing is known of it yet."),
    }
}

fn said(alloc: Global, name: &str, cause: &str, age: &str) -> Result<String, AllocError>
    ensures { IfOk result (λ text. string_bytes text ≡ name.now ++ codes ": " ++ cause.now ++ codes " " ++ age.now) }
{
    let mut text = String::from_str(alloc, name)?;
    text.push_str(": ")?;
    text.push_str(cause)?;
    text.push_str(" ")?;
    text.push_str(age)?;
    Ok(text)
}

/// What is said of a hall whose list is old.
pub(crate) fn fault_text(alloc: Global, hall: &Hall, now: u64) -> Result<String, AllocError>
    ensures { IfOk result (λ text. SaysAge hall.now now (string_bytes text)) }
{
    let name = hall.name.text();
    let cause = cause(alloc, hall.loss)?;
    let age = age_words(alloc, hall, now)?;
    let text = said(alloc, name, cause.as_str(), age.as_str())?;
    Ok(text)
}

/// How old a hall's list is: `5 s old`, or `no list yet`.
pub(crate) fn put_age(page: &mut Page, hall: &Hall) {
    let now = page.context.now;
    match hall.listed_at() {
        Some(at) => page.put("{} old", &[Value::Span(now.saturating_sub(at))]),
        None => page.put("no list yet", &[]),
    }
}

/// The same after a comma, if the list is old, and else nothing.
pub(crate) fn put_old_age(page: &mut Page, hall: &Hall) {
    if hall.is_stale(page.context.now) {
        page.put(", ", &[]);
        put_age(page, hall);
    }
}

/// What a text about machines of several halls has to say of those whose lists are old.
pub(crate) fn put_old_ages(page: &mut Page, halls: &[&Hall]) {
    for hall in halls {
        let name = Value::Text(hall.name.text());
        if hall.listed_at().is_none() {
            page.put("; nothing is known of {}", &[name]);
        } else if hall.is_stale(page.context.now) {
            page.put("; {} is ", &[name]);
            put_age(page, hall);
        }
    }
}
