//! What is at work, with the time that is left.
use crate::ages::put_old_ages;
use crate::links::put_change;
use crate::markup::Page;
use crate::parts::{begin_cells, end_section, end_table, put_cell, put_columns, put_names};
use crate::value::Value;
use hallview_state::text::percent;
use hallview_state::{Field, View, Work, limit_of, order_kind};

// How many rows a page has.
const MAX_ROWS: usize = 100;

// A deadline that is nearer than these seconds is marked.
const LATE: u64 = 120;

// The order that a machine waits for, and for how long.
fn put_order(page: &mut Page, work: &Work<'_>) {
    let Some(waiting) = work.one.machine.waiting else {
        return put_cell(page, Value::Text("-"));
    };
    page.put(
        "<td>{} {}, {}</td>",
        &[
            Value::Text(order_kind(work.one.machine.status).text()),
            Value::Number(waiting.get()),
            Value::Span(work.hall.order_waits(waiting)),
        ],
    );
}

fn put_row(page: &mut Page, has_several: bool, work: &Work<'_>) {
    let machine = &work.one.machine;
    let left = work.deadline.saturating_sub(page.context.now);
    page.put(
        if left < LATE {
            "<tr class=\"trouble\">"
        } else {
            "<tr>"
        },
        &[],
    );
    begin_cells(page, work.hall, machine.id);
    if has_several {
        put_cell(page, Value::Text(work.hall.name.text()));
    }
    let limit = limit_of(machine.status).unwrap_or(0);
    page.put(
        "<td><svg width=\"100\" height=\"10\" aria-hidden=\"true\"><rect width=\"{}%\" height=\"10\"/></svg>{}</td>",
        &[
            Value::Number(percent(limit.saturating_sub(left), limit)),
            Value::Until(work.deadline),
        ],
    );
    put_cell(page, Value::Text(machine.status.text()));
    put_order(page, work);
    put_names(page, machine);
    page.put("\n</tr>", &[]);
}

fn put_table(page: &mut Page, view: &View<'_>) {
    page.put(
        "<div role=\"group\" aria-label=\"At work\" tabindex=\"0\">\n<table>\n<caption>By deadline, the next one first",
        &[],
    );
    put_old_ages(page, view.halls.as_slice());
    page.put("</caption>\n<thead>\n<tr>", &[]);
    let has_several = view.has_several();
    put_columns(
        page,
        if has_several {
            &["Machine", "Hall"]
        } else {
            &["Machine"]
        },
    );
    put_columns(
        page,
        &["Deadline", "Status", "Order", "Pool", "Owner", "Image"],
    );
    page.put("</tr>\n</thead>\n<tbody>", &[]);
    for work in view.work.iter().take(MAX_ROWS) {
        put_row(page, has_several, work);
    }
    end_table(page);
}

/// The machines that are at work.
pub(crate) fn put_work(page: &mut Page, view: &View<'_>) {
    let count = view.work.len();
    page.put(
        "<section id=\"work\">\n<h2>At work: {}</h2>\n",
        &[Value::Number(count as u64)],
    );
    if count == 0 {
        page.put("<p>No machine is at work", &[]);
        put_old_ages(page, view.halls.as_slice());
        page.put(".</p>\n", &[]);
    } else {
        put_table(page, view);
    }
    if count > MAX_ROWS {
        page.put("<p><a href=\"", &[]);
        put_change(page, &view.query, Field::Sort, "deadline");
        page.put(
            "#machines\">{} more</a></p>\n",
            &[Value::Number((count - MAX_ROWS) as u64)],
        );
    }
    end_section(page);
}
