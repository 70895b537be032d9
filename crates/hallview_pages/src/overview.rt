//! The beginning of the page of halls: what is on it, the table of halls, and their counts.
use crate::ages::put_age;
use crate::commands::put_line;
use crate::counts::put_counts;
use crate::links::put_change;
use crate::markup::Page;
use crate::parts::{end_section, put_note, word};
use crate::value::Value;
use hallview_state::{Field, Hall, Total, View};
use std::alloc::{AllocError, Global};

/// How many halls' counts and plots are all on one page.
pub(crate) const MAX_TABLES: usize = 6;

/// What is said in place of more.
pub(crate) const TOO_MANY_HALLS: &str =
    "Counts and plots are shown for 6 halls at most: choose one in the table of halls.";

/// What a hall is called above its pages: by its name, or by its desk where halls have no names.
pub(crate) fn put_hall_title(page: &mut Page, hall: &Hall) {
    if page.context.is_named {
        page.put("Hall {}", &[Value::Text(hall.name.text())]);
    } else {
        page.put("Hall of {}", &[Value::Text(hall.desk.as_str())]);
    }
}

/// The page's heading: the hall, or how many there are.
pub(crate) fn put_heading(page: &mut Page, view: &View<'_>) {
    if let [hall] = view.halls.as_slice() {
        return put_hall_title(page, hall);
    }
    let count = view.halls.len();
    page.put(
        "{} {}",
        &[
            Value::Number(count as u64),
            Value::Text(word(count, "hall", "halls")),
        ],
    );
}

/// The page's title: what is wrong, and the heading.
pub(crate) fn put_title(page: &mut Page, view: &View<'_>) {
    let (stale, trouble) = (view.stale, view.trouble);
    if stale > 0 {
        page.put(
            "{} {}, ",
            &[
                Value::Number(stale as u64),
                Value::Text(word(stale, "hall down", "halls down")),
            ],
        );
    }
    if trouble > 0 {
        page.put("{} in trouble, ", &[Value::Number(trouble as u64)]);
    }
    put_heading(page, view);
}

/// What is on the page.
pub(crate) fn put_nav(page: &mut Page, view: &View<'_>) {
    let trouble = view.trouble;
    page.put(
        "<nav aria-label=\"On this page\">\n<ul>\n<li><a href=\"#trouble\">",
        &[],
    );
    page.put(
        if trouble > 0 {
            "<strong>In trouble: {}</strong>"
        } else {
            "In trouble: {}"
        },
        &[Value::Number(trouble as u64)],
    );
    page.put(
        "</a></li>\n<li><a href=\"#work\">At work: {}</a></li>\n<li><a href=\"#machines\">Machines: {}</a></li>\n<li><a href=\"#day\">The last day</a></li>\n",
        &[
            Value::Number(view.work.len() as u64),
            Value::Number(view.machines as u64),
        ],
    );
    if !view.query.text(Field::Hall).is_empty() {
        page.put("<li><a href=\"/\">All halls</a></li>\n", &[]);
    }
    page.put("</ul>\n</nav>\n", &[]);
}

// Whether the desk answers, and how old the list is.
fn put_list(page: &mut Page, hall: &Hall, now: u64) {
    match &hall.list {
        Some(list) if !hall.is_stale(now) => {
            page.put("<td>up</td><td>", &[]);
            put_age(page, hall);
            page.put(", took {} ms</td>", &[Value::Number(list.took)]);
        }
        _ => {
            page.put("<td><strong>down</strong></td><td><strong>", &[]);
            put_age(page, hall);
            page.put("</strong></td>", &[]);
        }
    }
}

fn put_totals(page: &mut Page, hall: &Hall, total: &Total) {
    for number in [total.machines, total.trouble, total.work, total.orders] {
        let number = if hall.list.is_none() {
            Value::Text("-")
        } else {
            Value::Number(number as u64)
        };
        page.put("<td class=\"n\">{}</td>", &[number]);
    }
    page.put("\n</tr>", &[]);
}

fn put_table(page: &mut Page, view: &View<'_>) {
    page.put(
        "<div role=\"group\" aria-label=\"Halls\" tabindex=\"0\">\n<table>\n<thead>\n<tr><th scope=\"col\">Hall</th><th scope=\"col\">Desk</th><th scope=\"col\">List</th><th scope=\"col\" class=\"n\">Machines</th><th scope=\"col\" class=\"n\">In trouble</th><th scope=\"col\" class=\"n\">At work</th><th scope=\"col\" class=\"n\">Orders that wait</th></tr>\n</thead>\n<tbody>",
        &[],
    );
    for (hall, total) in view.halls.iter().zip(view.totals.iter()) {
        let name = hall.name.text();
        page.put("<tr><th scope=\"row\"><a href=\"", &[]);
        put_change(page, &view.query, Field::Hall, name);
        page.put("\">{}</a></th>", &[Value::Text(name)]);
        put_list(page, hall, view.now);
        put_totals(page, hall, total);
    }
    page.put("</tbody>\n</table>\n</div>\n", &[]);
}

// What is said of a hall without machines.
fn put_no_machines(page: &mut Page, hall: &Hall) {
    page.put(
        "<p><span>{} has no machine. Add one, or start one over the network where the desk enlists:</span>",
        &[Value::Text(hall.name.text())],
    );
    put_line(
        page,
        hall,
        "add-machine --mac 52:54:00:12:34:56 --arch uefi64 --pool default",
    );
    page.put("</p>\n", &[]);
}

/// The halls, and their counts by status and pool.
pub(crate) fn put_halls(alloc: Global, page: &mut Page, view: &View<'_>) -> Result<(), AllocError> {
    page.put("<section id=\"halls\">\n<h2>Halls</h2>\n", &[]);
    if view.halls.is_empty() {
        put_note(page, "No hall has this name.");
        end_section(page);
        return Ok(());
    }
    put_table(page, view);
    if view.halls.len() > MAX_TABLES {
        put_note(page, TOO_MANY_HALLS);
        end_section(page);
        return Ok(());
    }
    for hall in view.halls.as_slice() {
        match &hall.list {
            Some(list) if list.machines.is_empty() => put_no_machines(page, hall),
            Some(_) => put_counts(alloc, page, view, hall)?,
            None => {}
        }
    }
    end_section(page);
    Ok(())
}
