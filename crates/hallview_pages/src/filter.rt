//! The form by which machines are chosen.
use crate::markup::Page;
use crate::value::Value;
use hall_types::{Machine, Status};
use hallview_state::{Field, View, or_dash};
use std::alloc::{AllocError, Global};

// How many values a field offers.
const MAX_OPTIONS: usize = 200;

const CHOSEN: &str = "<option value=\"{}\" selected=\"\">{}</option>\n";

const OFFERED: &str = "<option value=\"{}\">{}</option>\n";

fn value_in(machine: &Machine, field: Field) -> &str {
    match field {
        Field::Owner => or_dash(&machine.owner),
        Field::Image => or_dash(&machine.image),
        _ => machine.pool.text(),
    }
}

// The values that machines have in a field, by their texts.
fn values_of<'s>(alloc: Global, view: &View<'s>, field: Field) -> Result<Vec<&'s str>, AllocError> {
    let mut values: Vec<&'s str> = Vec::new(alloc);
    for hall in view.halls.as_slice() {
        for one in hall.machines() {
            let value = value_in(&one.machine, field);
            if let Err(place) = values.binary_search_by(|other| (*other).cmp(value)) {
                values.insert(place, value)?;
            }
        }
    }
    values.truncate(MAX_OPTIONS);
    Ok(values)
}

fn has(values: &[&str], text: &str) -> bool {
    for value in values {
        if *value == text {
            return true;
        }
    }
    false
}

fn put_select(
    page: &mut Page,
    view: &View<'_>,
    field: Field,
    label: &'static str,
    values: &[&str],
) {
    let current = view.query.text(field);
    page.put(
        "<label>{} <select name=\"{}\">\n<option value=\"\">any</option>\n",
        &[Value::Text(label), Value::Text(field.name())],
    );
    if !current.is_empty() && !has(values, current) {
        page.put(CHOSEN, &[Value::Text(current), Value::Text(current)]);
    }
    for value in values.iter().take(MAX_OPTIONS) {
        let text = if *value == "-" { "none" } else { value };
        page.put(
            if *value == current { CHOSEN } else { OFFERED },
            &[Value::Text(value), Value::Text(text)],
        );
    }
    page.put("</select></label>\n", &[]);
}

fn put_halls(alloc: Global, page: &mut Page, view: &View<'_>) -> Result<(), AllocError> {
    let mut names = Vec::new(alloc);
    for hall in view.state.halls.as_slice() {
        names.push(hall.name.text())?;
    }
    put_select(page, view, Field::Hall, "Hall", names.as_slice());
    Ok(())
}

fn put_statuses(alloc: Global, page: &mut Page, view: &View<'_>) -> Result<(), AllocError> {
    let mut texts = Vec::new(alloc);
    for status in Status::ALL.as_slice() {
        texts.push(status.text())?;
    }
    put_select(page, view, Field::Status, "Status", texts.as_slice());
    Ok(())
}

fn put_values(
    alloc: Global,
    page: &mut Page,
    view: &View<'_>,
    field: Field,
    label: &'static str,
) -> Result<(), AllocError> {
    let values = values_of(alloc, view, field)?;
    put_select(page, view, field, label, values.as_slice());
    Ok(())
}

/// The beginning of the section of machines, and the form.
pub(crate) fn put_filter(
    alloc: Global,
    page: &mut Page,
    view: &View<'_>,
) -> Result<(), AllocError> {
    page.put(
        "<section id=\"machines\">\n<h2>Machines</h2>\n<form method=\"get\" action=\"/#machines\">\n<label>Address or other text <input type=\"search\" name=\"q\" value=\"{}\"/></label>\n",
        &[Value::Text(view.query.text(Field::Text))],
    );
    if view.state.halls.len() > 1 {
        put_halls(alloc, page, view)?;
    }
    put_values(alloc, page, view, Field::Pool, "Pool")?;
    put_statuses(alloc, page, view)?;
    put_values(alloc, page, view, Field::Owner, "Owner")?;
    put_values(alloc, page, view, Field::Image, "Image")?;
    let sort = view.query.text(Field::Sort);
    if !sort.is_empty() {
        page.put(
            "<input type=\"hidden\" name=\"sort\" value=\"{}\"/>\n",
            &[Value::Text(sort)],
        );
    }
    page.put("<button>Show</button>\n</form>\n", &[]);
    Ok(())
}
