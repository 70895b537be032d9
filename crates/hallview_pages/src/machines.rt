//! The table of machines, with its filter and its pages.
use crate::ages::put_old_ages;
use crate::filter::put_filter;
use crate::links::{put_change, put_link, put_sheet};
use crate::markup::Page;
use crate::parts::{begin_row, end_row, end_section, end_table, put_cell, put_names, word};
use crate::value::Value;
use hall_types::Machine;
use hallview_state::{
    Column, Field, Order, Query, Row, StatusKind, View, chosen, is_passed, order_of,
};
use std::alloc::{AllocError, Global};

// How many rows a page has.
const MAX_ROWS: usize = 500;

/// A page of the table, from 1 on, and how many there are.
#[derive(Clone, Copy)]
struct Sheet {
    page: usize,
    pages: usize,
}

// The page that a query asks for: the first where there is no such one.
fn sheet_of(query: &Query, rows: usize) -> Sheet {
    let pages = rows.div_ceil(MAX_ROWS).max(1);
    match query.text(Field::Page).parse::<usize>() {
        Ok(page) if 1 <= page && page <= pages => Sheet { page, pages },
        _ => Sheet { page: 1, pages },
    }
}

// Which rows are on a page, of which the first ones are on pages before it.
fn put_part(page: &mut Page, view: &View<'_>, sheet: Sheet, first: usize, here: usize) {
    if here == 0 {
        put_old_ages(page, view.halls.as_slice());
    } else if sheet.pages > 1 {
        page.put(
            ", here {} to {}",
            &[
                Value::Number(first.saturating_add(1) as u64),
                Value::Number(first.saturating_add(here) as u64),
            ],
        );
    }
}

fn is_chosen_from(query: &Query) -> bool {
    for field in Field::CHOOSING.as_slice() {
        if !query.text(*field).is_empty() {
            return true;
        }
    }
    false
}

// How many machines are chosen, and which of them are on this page.
fn put_count(
    page: &mut Page,
    view: &View<'_>,
    sheet: Sheet,
    rows: usize,
    first: usize,
    here: usize,
) {
    let is_chosen = is_chosen_from(&view.query);
    page.put("<p>", &[]);
    if is_chosen {
        page.put("{} of ", &[Value::Number(rows as u64)]);
    }
    let all = view.machines;
    page.put(
        "{} {}",
        &[
            Value::Number(all as u64),
            Value::Text(word(all, "machine", "machines")),
        ],
    );
    put_part(page, view, sheet, first, here);
    if is_chosen {
        page.put(" <a href=\"", &[]);
        put_link(
            page,
            &[
                (Field::Hall, view.query.text(Field::Hall)),
                (Field::Sort, view.query.text(Field::Sort)),
            ],
        );
        page.put("#machines\">Show all</a>", &[]);
    }
    page.put("</p>\n", &[]);
}

fn put_page_link(page: &mut Page, query: &Query, sheet: usize, text: &'static str) {
    page.put("<li><a href=\"", &[]);
    put_sheet(page, query, sheet);
    page.put("#machines\">{}</a></li>\n", &[Value::Text(text)]);
}

// The links to the page before and the next one.
fn put_pages(page: &mut Page, query: &Query, sheet: Sheet) {
    if sheet.pages == 1 {
        return;
    }
    page.put("<nav aria-label=\"Pages of machines\">\n<ul>\n", &[]);
    if sheet.page > 1 {
        put_page_link(page, query, sheet.page - 1, "Page before");
    }
    if sheet.page < sheet.pages {
        put_page_link(page, query, sheet.page + 1, "Next page");
    }
    page.put("</ul>\n</nav>\n", &[]);
}

// A column's title, which sorts by it.
fn put_title(page: &mut Page, query: &Query, column: Column, order: Order) {
    let (title, _) = column.title();
    let (begin, sort) = if column != order.column {
        ("<th scope=\"col\">", column.sort(false))
    } else if order.falls {
        ("<th scope=\"col\" aria-sort=\"descending\">", column.name())
    } else {
        (
            "<th scope=\"col\" aria-sort=\"ascending\">",
            column.sort(true),
        )
    };
    page.put(begin, &[]);
    page.put("<a href=\"", &[]);
    put_change(page, query, Field::Sort, sort);
    page.put("#machines\">{}</a></th>", &[Value::Text(title)]);
}

fn put_deadline(page: &mut Page, machine: &Machine) {
    match machine.deadline {
        Some(deadline) if is_passed(machine, page.context.now) => {
            page.put("<td><strong>{}</strong></td>", &[Value::Until(deadline)]);
        }
        Some(deadline) => put_cell(page, Value::Until(deadline)),
        None => put_cell(page, Value::Text("-")),
    }
}

fn put_status(page: &mut Page, machine: &Machine) {
    let cell = if StatusKind::of(machine.status) == StatusKind::Trouble {
        "<td><strong>{}{}</strong></td>"
    } else {
        "<td>{}{}</td>"
    };
    let locked = if machine.locked { ", locked" } else { "" };
    page.put(
        cell,
        &[Value::Text(machine.status.text()), Value::Text(locked)],
    );
}

fn put_row(page: &mut Page, has_several: bool, row: &Row<'_>) {
    let machine = &row.one.machine;
    begin_row(page, row.hall, machine.id);
    if has_several {
        put_cell(page, Value::Text(row.hall.name.text()));
    }
    put_status(page, machine);
    put_deadline(page, machine);
    put_names(page, machine);
    end_row(page, row.one.interfaces.as_slice());
}

fn put_table(page: &mut Page, view: &View<'_>, order: Order, rows: &[Row<'_>]) {
    let (_, title) = order.column.title();
    page.put(
        "<div role=\"group\" aria-label=\"Machines\" tabindex=\"0\">\n<table>\n<caption>Sorted by {}{}",
        &[
            Value::Text(title),
            Value::Text(if order.falls { ", falling" } else { "" }),
        ],
    );
    put_old_ages(page, view.halls.as_slice());
    page.put("</caption>\n<thead>\n<tr>", &[]);
    let has_several = view.has_several();
    for column in Column::ALL.as_slice() {
        if *column != Column::Hall || has_several {
            put_title(page, &view.query, *column, order);
        }
    }
    page.put("</tr>\n</thead>\n<tbody>", &[]);
    for row in rows {
        put_row(page, has_several, row);
    }
    end_table(page);
}

/// The machines that a view's query chooses.
pub(crate) fn put_machines(
    alloc: Global,
    page: &mut Page,
    view: &View<'_>,
) -> Result<(), AllocError> {
    put_filter(alloc, page, view)?;
    let order = order_of(&view.query, view.has_several());
    let rows = chosen(alloc, view, order)?;
    let sheet = sheet_of(&view.query, rows.len());
    let first = sheet.page.saturating_sub(1).saturating_mul(MAX_ROWS);
    let rest = rows.as_slice().get(first..).unwrap_or(&[]);
    let here = rest.get(..MAX_ROWS).unwrap_or(rest);
    put_count(page, view, sheet, rows.len(), first, here.len());
    put_pages(page, &view.query, sheet);
    if !here.is_empty() {
        put_table(page, view, order, here);
        put_pages(page, &view.query, sheet);
    }
    end_section(page);
    Ok(())
}
