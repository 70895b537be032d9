//! How many machines of a hall each pool has in each status.
use crate::ages::put_old_age;
use crate::links::put_link;
use crate::markup::Page;
use crate::parts::word;
use crate::value::Value;
use hall_types::Status;
use hallview_state::text::percent;
use hallview_state::{Field, Hall, PoolCounts, StatusKind, View, count_at, counts_of, pools_of};
use std::alloc::{AllocError, Global};
use std::cmp::Ordering;

// How many pools have a column.
const MAX_POOLS: usize = 12;

fn by_size(one: &PoolCounts, other: &PoolCounts) -> Ordering {
    other
        .all
        .cmp(&one.all)
        .then(one.pool.text().cmp(other.pool.text()))
}

// The largest pools, by name.
fn shown_of(alloc: Global, pools: &[PoolCounts]) -> Result<Vec<PoolCounts>, AllocError> {
    let mut shown = Vec::from_slice(alloc, pools)?;
    if shown.len() > MAX_POOLS {
        shown.sort_by(by_size)?;
        shown.truncate(MAX_POOLS);
        shown.sort_by(|one, other| one.pool.text().cmp(other.pool.text()))?;
    }
    Ok(shown)
}

fn put_count(page: &mut Page, number: u64) {
    let cell = if number == 0 {
        "<td class=\"n none\">{}</td>"
    } else {
        "<td class=\"n\">{}</td>"
    };
    page.put(cell, &[Value::Number(number)]);
}

/// A table of counts that is being written.
#[derive(Clone, Copy)]
struct Table<'t> {
    hall: &'t str,
    shown: &'t [PoolCounts],
    /// How many pools aren't shown.
    others: usize,
    all: u64,
}

impl Table<'_> {
    // The cells of the pools that are shown, and of all others together: of one status, or of all.
    fn put_cells(&self, page: &mut Page, status: Option<Status>, all: u64) {
        let mut rest = all;
        for pool in self.shown {
            let number = match status {
                Some(status) => count_at(&pool.counts, status),
                None => pool.all,
            };
            rest = rest.saturating_sub(number);
            put_count(page, number);
        }
        if self.others > 0 {
            put_count(page, rest);
        }
    }

    fn put_head(&self, page: &mut Page) {
        page.put(
            "<thead>\n<tr><th scope=\"col\">Status</th><th scope=\"col\" class=\"n\">All</th><th scope=\"col\">Share</th>",
            &[],
        );
        for pool in self.shown {
            let name = pool.pool.text();
            page.put("<th scope=\"col\" class=\"n\"><a href=\"", &[]);
            put_link(page, &[(Field::Hall, self.hall), (Field::Pool, name)]);
            page.put("#machines\">{}</a></th>", &[Value::Text(name)]);
        }
        if self.others > 0 {
            page.put(
                "<th scope=\"col\" class=\"n\">{} {}</th>",
                &[
                    Value::Number(self.others as u64),
                    Value::Text(word(self.others, "other pool", "other pools")),
                ],
            );
        }
        page.put("\n</tr>\n</thead>\n<tbody>", &[]);
    }

    fn put_status(&self, page: &mut Page, status: Status, number: u64) {
        let name = status.text();
        page.put(
            "<tr class=\"{}\"><th scope=\"row\"><a href=\"",
            &[Value::Text(StatusKind::of(status).class())],
        );
        put_link(page, &[(Field::Hall, self.hall), (Field::Status, name)]);
        page.put(
            "#machines\">{}</a></th><td class=\"n\">{}</td><td><svg width=\"100\" height=\"10\" aria-hidden=\"true\"><rect width=\"{}%\" height=\"10\"/></svg>{}</td>",
            &[
                Value::Text(name),
                Value::Number(number),
                Value::Number(percent(number, self.all).max(1)),
                Value::Share(number, self.all),
            ],
        );
        self.put_cells(page, Some(status), number);
        page.put("\n</tr>", &[]);
    }
}

fn put_caption(page: &mut Page, hall: &Hall) {
    page.put("{} by status and pool", &[Value::Text(hall.name.text())]);
    put_old_age(page, hall);
}

// The beginning of a hall's counts, which are open where they are the only ones.
fn begin(page: &mut Page, hall: &Hall, is_open: bool) {
    let open = if is_open {
        "<details open=\"\">\n<summary>"
    } else {
        "<details>\n<summary>"
    };
    page.put(open, &[]);
    put_caption(page, hall);
    page.put("</summary>\n<div role=\"group\" aria-label=\"", &[]);
    put_caption(page, hall);
    page.put("\" tabindex=\"0\">\n<table>\n", &[]);
}

/// The counts of a hall by status and pool.
pub(crate) fn put_counts(
    alloc: Global,
    page: &mut Page,
    view: &View<'_>,
    hall: &Hall,
) -> Result<(), AllocError> {
    let machines = hall.machines();
    let pools = pools_of(alloc, machines)?;
    let shown = shown_of(alloc, pools.as_slice())?;
    let table = Table {
        hall: view.hall_in_links(hall),
        shown: shown.as_slice(),
        others: pools.len().saturating_sub(shown.len()),
        all: machines.len() as u64,
    };
    begin(page, hall, !view.has_several());
    table.put_head(page);
    let counts = counts_of(machines);
    for status in Status::ALL.as_slice() {
        let number = count_at(&counts, *status);
        if number > 0 {
            table.put_status(page, *status, number);
        }
    }
    page.put(
        "</tbody>\n<tfoot>\n<tr><th scope=\"row\">All</th><td class=\"n\">{}</td><td></td>",
        &[Value::Number(table.all)],
    );
    table.put_cells(page, None, table.all);
    page.put("\n</tr>\n</tfoot>\n</table>\n</div>\n</details>\n", &[]);
    Ok(())
}
