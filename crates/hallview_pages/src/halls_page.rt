//! The page of halls.
ghost use Rattle.std.specs.Prelude.{IfOk};
ghost use Rattle.hallview_pages.specs.{Ages.TellsAges, Markup.IsPage};

use crate::day::put_day;
use crate::machines::put_machines;
use crate::markup::Page;
use crate::overview::{put_halls, put_heading, put_nav, put_title};
use crate::trouble::put_trouble;
use crate::whole::{Contents, whole_page};
use crate::work::put_work;
use hallview_state::{Query, State, View};
use std::alloc::{AllocError, Global};

// What the page shows.
fn put_parts(alloc: Global, page: &mut Page, view: &View<'_>) -> Result<(), AllocError> {
    put_nav(page, view);
    put_halls(alloc, page, view)?;
    put_trouble(page, view);
    put_work(page, view);
    put_machines(alloc, page, view)?;
    put_day(alloc, page, view)
}

fn contents_of(alloc: Global, view: &View<'_>) -> Result<Contents, AllocError> {
    let mut contents = Contents::new(alloc, view.state, view.now);
    put_title(&mut contents.title, view);
    put_heading(&mut contents.heading, view);
    put_parts(alloc, &mut contents.shown, view)?;
    Ok(contents)
}

/// The page of halls that a query asks for.
pub(crate) fn halls_page(
    alloc: Global,
    state: &State,
    now: u64,
    query: &str,
) -> Result<Vec<u8>, AllocError>
    ensures page { IfOk result (λ octets. IsPage octets.items) }
    ensures ages { IfOk result (λ octets. TellsAges state.now now octets.items) }
{
    let query = Query::parse(alloc, query)?;
    let view = View::new(alloc, state, now, query)?;
    let contents = contents_of(alloc, &view)?;
    whole_page(alloc, state, now, &contents)
}
