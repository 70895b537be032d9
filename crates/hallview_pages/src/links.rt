//! Links to the page of halls, as values of attributes.
use crate::markup::Page;
use crate::value::Value;
use hallview_state::{Field, Query};

// Adds a field, if it has a text, and says whether none was added yet.
fn put_field(page: &mut Page, is_first: bool, field: Field, text: &str) -> bool {
    if text.is_empty() {
        return is_first;
    }
    page.put(
        if is_first { "?{}={}" } else { "&amp;{}={}" },
        &[Value::Text(field.name()), Value::Word(text)],
    );
    false
}

/// The page of halls with a query of these fields.
pub(crate) fn put_link(page: &mut Page, fields: &[(Field, &str)]) {
    page.put("/", &[]);
    let mut is_first = true;
    for (field, text) in fields {
        is_first = put_field(page, is_first, *field, text);
    }
}

/// The page of halls with a query and a change of it, which leads to the first page of machines.
pub(crate) fn put_change(page: &mut Page, query: &Query, changed: Field, text: &str) {
    page.put("/", &[]);
    let mut is_first = true;
    for field in Field::ALL.as_slice() {
        if *field == changed {
            is_first = put_field(page, is_first, changed, text);
        } else if *field != Field::Page {
            is_first = put_field(page, is_first, *field, query.text(*field));
        }
    }
}

/// The page of halls with a query, and this page of machines, from 1 on.
pub(crate) fn put_sheet(page: &mut Page, query: &Query, sheet: usize) {
    page.put("/", &[]);
    let mut is_first = true;
    for field in Field::ALL.as_slice() {
        if *field != Field::Page {
            is_first = put_field(page, is_first, *field, query.text(*field));
        }
    }
    if sheet > 1 {
        page.put(
            if is_first { "?page={}" } else { "&amp;page={}" },
            &[Value::Number(sheet as u64)],
        );
    }
}
