//! Whole pages: what stands before and after what a page shows. Each begins with what of it is old.
ghost use Rattle.std.specs.Prelude.{IfOk, OnOk};
ghost use Rattle.hallview_pages.specs.{Ages.{Grows, Shows, TellsAges, Told}, Markup.IsPage};

use crate::ages::fault_text;
use crate::markup::Page;
use crate::script::SCRIPT;
use crate::style::STYLE;
use crate::value::{Context, Value};
use hallview_state::{Hall, State};
use std::alloc::{AllocError, Global};

/// What stands on a page beside what all pages have.
#[derive(Drop)]
pub(crate) struct Contents {
    pub(crate) title: Page,
    pub(crate) heading: Page,
    pub(crate) shown: Page,
}

impl Contents {
    /// Nothing yet, of a page of a state now.
    pub(crate) fn new(alloc: Global, state: &State, now: u64) -> Contents {
        let context = Context::of(state, now);
        Contents {
            title: Page::new(alloc, context),
            heading: Page::new(alloc, context),
            shown: Page::new(alloc, context),
        }
    }
}

// A page up to its heading and the moment that it is of.
fn put_head(page: &mut Page, now: u64, title: &Page, heading: &Page) -> Result<(), AllocError> {
    page.mark(
        "<!DOCTYPE html>\n<html lang=\"en\">\n<head>\n<meta charset=\"utf-8\"/>\n<meta name=\"viewport\" content=\"width=device-width, initial-scale=1\"/>\n<title>",
    )?;
    page.append(title)?;
    page.mark("</title>\n<style>")?;
    page.mark(STYLE)?;
    page.mark("</style>\n</head>\n<body>\n<main>\n<h1>")?;
    page.append(heading)?;
    page.try_put(
        "</h1>\n<p>At <time datetime=\"{}\">{}</time></p>\n",
        &[Value::Stamp(now), Value::Moment(now)],
    )
}

// Writes a text. A page that can't have it isn't given.
fn put_text(page: &mut Page, text: &str) -> Result<(), AllocError>
    ensures shows { OnOk result (Shows page.new text.now) }
    ensures grows { OnOk result (Grows page.old page.new) }
{
    if page.push_text(text)? {
        Ok(())
    } else {
        Err(AllocError)
    }
}

// What looks at a hall's desk.
fn put_look(page: &mut Page, hall: &Hall) -> Result<(), AllocError>
    ensures { OnOk result (Grows page.old page.new) }
{
    page.mark(" <code>hallctl ")?;
    if page.context.is_named {
        page.mark("--hall ")?;
        put_text(page, hall.name.text())?;
        page.mark(" ")?;
    }
    page.mark("hello</code>")
}

// If a hall's list is old, says how old, and what looks at its desk.
fn put_age(alloc: Global, page: &mut Page, hall: &Hall, now: u64) -> Result<(), AllocError>
    ensures told { OnOk result (Told now page.new hall.now) }
    ensures grows { OnOk result (Grows page.old page.new) }
{
    if !hall.is_stale(now) {
        return Ok(());
    }
    let text = fault_text(alloc, hall, now)?;
    page.mark("<p role=\"alert\"><strong>")?;
    put_text(page, text.as_str())?;
    page.mark("</strong> Look at the desk:")?;
    put_look(page, hall)?;
    page.mark("</p>\n")
}

// Says of each hall whose list is old how old that is.
fn put_ages(alloc: Global, page: &mut Page, state: &State, now: u64) -> Result<(), AllocError>
    ensures { OnOk result (TellsAges state.now now page.new) }
{
    for hall in state.halls.as_slice() {
        put_age(alloc, page, hall, now)?;
    }
    Ok(())
}

fn put_end(page: &mut Page) -> Result<(), AllocError>
    ensures { OnOk result (Grows page.old page.new) }
{
    page.mark(
        "</main>\n<footer>\n<p>hallview reads only; it never changes a hall. For programs: <a href=\"/metrics\">metrics</a> <a href=\"/state.json\">state</a></p>\n</footer>\n<script>",
    )?;
    page.mark(SCRIPT)?;
    page.mark("</script>\n</body>\n</html>\n")
}

/// The octets of a page with these contents.
pub(crate) fn whole_page(
    alloc: Global,
    state: &State,
    now: u64,
    contents: &Contents,
) -> Result<Vec<u8>, AllocError>
    ensures page { IfOk result (λ octets. IsPage octets.items) }
    ensures ages { IfOk result (λ octets. TellsAges state.now now octets.items) }
{
    let mut page = Page::new(alloc, Context::of(state, now));
    put_head(&mut page, now, &contents.title, &contents.heading)?;
    put_ages(alloc, &mut page, state, now)?;
    page.append(&contents.shown)?;
    put_end(&mut page)?;
    Ok(page.into_octets()?)
}
