//! What is in trouble, and what to do about it.
use crate::ages::{put_old_age, put_old_ages};
use crate::commands::{in_spans, put_command, put_hallctl, put_line};
use crate::links::put_link;
use crate::markup::Page;
use crate::parts::{begin_row, end_row, end_section, put_cell, put_columns, put_names};
use crate::value::Value;
use hallview_state::{Cause, Field, Group, Hall, Listed, Move, View, Waiting, or_dash, words_for};

// How many groups a page has, and how many rows a group.
const MAX_GROUPS: usize = 50;

const MAX_ROWS: usize = 20;

// What identifies a group on the page.
fn put_id(page: &mut Page, group: &Group<'_>) {
    page.put("trouble-{}", &[Value::Word(group.hall.name.text())]);
    match group.cause {
        Cause::Failed(status) => page.put("-{}", &[Value::Number(status.number().into())]),
        Cause::Deadline => page.put("-deadline", &[]),
        Cause::Orders => page.put("-orders", &[]),
    }
    if !group.detail.is_empty() {
        page.put("-{}", &[Value::Text(group.detail)]);
    }
}

fn put_title(page: &mut Page, view: &View<'_>, group: &Group<'_>) {
    if view.has_several() {
        page.put("{}: ", &[Value::Text(group.hall.name.text())]);
    }
    page.put("{}", &[Value::Text(group.title())]);
    if !group.detail.is_empty() {
        page.put(", {}", &[Value::Text(group.detail)]);
    }
    page.put(": {}", &[Value::Number(group.size() as u64)]);
    put_old_age(page, group.hall);
}

// The commands on machines of a group, of which one is given; for a deadline what shows them.
fn put_commands(page: &mut Page, group: &Group<'_>, machines: &[&Listed], one: &Listed) {
    let words: &'static [&'static str] = match group.cause {
        Cause::Failed(status) => words_for(status),
        Cause::Deadline | Cause::Orders => &["machine"],
    };
    for word in words {
        put_command(page, group.hall, word, machines, &one.machine);
    }
}

// The commands for all machines of a group, if it has several.
fn put_all(page: &mut Page, group: &Group<'_>) {
    let machines = group.machines.as_slice();
    let [one, _, ..] = machines else {
        return;
    };
    if group.cause == Cause::Deadline {
        return;
    }
    let taken = in_spans(machines);
    if taken == machines.len() {
        page.put(" <span>All of them:</span>", &[]);
    } else {
        page.put(
            " <span>The first {}:</span>",
            &[Value::Number(taken as u64)],
        );
    }
    put_commands(page, group, machines, one);
}

// When a machine came to its status, as far as it was seen.
fn since(moves: &[Move], one: &Listed) -> Option<u64> {
    for step in moves.iter().rev() {
        if step.machine == one.machine.id {
            let is_last = step.to == one.machine.status;
            return if is_last { Some(step.at) } else { None };
        }
    }
    None
}

// For how long a machine has failed, or for how long its deadline has passed.
fn put_time(page: &mut Page, began: u64, group: &Group<'_>, one: &Listed) {
    let now = page.context.now;
    match (group.cause, one.machine.deadline) {
        (Cause::Deadline, Some(deadline)) => page.put(
            "<td>{}, {} ago</td>",
            &[
                Value::Text(one.machine.status.text()),
                Value::Span(now.saturating_sub(deadline)),
            ],
        ),
        _ => match since(group.hall.moves.as_slice(), one) {
            Some(at) => put_cell(page, Value::Span(now.saturating_sub(at))),
            None => page.put(
                "<td>over {}</td>",
                &[Value::Span(now.saturating_sub(began))],
            ),
        },
    }
}

fn put_machine(page: &mut Page, began: u64, group: &Group<'_>, one: &Listed) {
    begin_row(page, group.hall, one.machine.id);
    page.put("<td>", &[]);
    put_commands(page, group, &[one], one);
    page.put("</td>", &[]);
    put_time(page, began, group, one);
    put_names(page, &one.machine);
    end_row(page, one.interfaces.as_slice());
}

fn put_order(page: &mut Page, hall: &Hall, order: &Waiting<'_>) {
    let machine = &order.one.machine;
    let (id, number) = (Value::Number(machine.id.get()), Value::Number(order.number));
    begin_row(page, hall, machine.id);
    page.put(
        "<td>{} {}</td><td>{}</td><td>{}</td>",
        &[
            Value::Text(order.kind()),
            number,
            Value::Span(order.waits),
            Value::Text(machine.status.text()),
        ],
    );
    let by_hand = if order.kind() == "off" {
        "<td><span>Once machine {} is off:</span>"
    } else {
        "<td><span>Once machine {} was started again, by network:</span>"
    };
    page.put(by_hand, &[id]);
    page.put(" <code>", &[]);
    put_hallctl(page, hall);
    page.put(
        " --token-file pow.token order {} --done</code></td>\n</tr>",
        &[number],
    );
}

// What to do about a group, and the commands that do it.
fn put_advice(page: &mut Page, group: &Group<'_>) {
    let advice = group.advice(page.context.now);
    page.put("<p><span>{}</span>", &[Value::Text(advice)]);
    if group.cause == Cause::Orders {
        put_line(page, group.hall, "--token-file pow.token orders");
    } else {
        put_all(page, group);
    }
    page.put("</p>\n", &[]);
}

fn put_titles(page: &mut Page, cause: Cause) {
    let time = match cause {
        Cause::Failed(_) => "Since",
        Cause::Deadline => "Deadline",
        Cause::Orders => return put_columns(
            page,
            &["Machine", "Order", "Waits", "Status", "What to do"],
        ),
    };
    put_columns(
        page,
        &[
            "Machine",
            "What to do",
            time,
            "Pool",
            "Owner",
            "Image",
            "Addresses",
        ],
    );
}

// Leads to all machines of a group that has more than are shown.
fn put_more(page: &mut Page, view: &View<'_>, group: &Group<'_>) {
    let size = group.size();
    if size <= MAX_ROWS {
        return;
    }
    let image = match group.machines.first() {
        Some(one) if group.is_of_image() => or_dash(&one.machine.image),
        _ => "",
    };
    let fields = [
        (Field::Hall, view.hall_in_links(group.hall)),
        group.field(),
        (Field::Image, image),
    ];
    page.put("<p><a href=\"", &[]);
    put_link(page, &fields);
    page.put(
        "#machines\">{} more</a></p>\n",
        &[Value::Number((size - MAX_ROWS) as u64)],
    );
}

fn put_group(page: &mut Page, view: &View<'_>, group: &Group<'_>) {
    page.put("<details id=\"", &[]);
    put_id(page, group);
    page.put("\" open=\"\">\n<summary><h3>", &[]);
    put_title(page, view, group);
    page.put("</h3></summary>\n", &[]);
    put_advice(page, group);
    page.put("<div role=\"group\" aria-label=\"", &[]);
    put_title(page, view, group);
    page.put("\" tabindex=\"0\">\n<table>\n<thead>\n<tr>", &[]);
    put_titles(page, group.cause);
    page.put("</tr>\n</thead>\n<tbody>", &[]);
    for one in group.machines.iter().take(MAX_ROWS) {
        put_machine(page, view.state.began, group, one);
    }
    for order in group.orders.iter().take(MAX_ROWS) {
        put_order(page, group.hall, order);
    }
    page.put("</tbody>\n</table>\n</div>\n", &[]);
    put_more(page, view, group);
    page.put("</details>\n", &[]);
}

// How many machines and orders are in groups that aren't shown.
fn rest_of(groups: &[Group<'_>]) -> usize {
    let mut rest: usize = 0;
    for group in groups.iter().skip(MAX_GROUPS) {
        rest = rest.saturating_add(group.size());
    }
    rest
}

/// What is in trouble.
pub(crate) fn put_trouble(page: &mut Page, view: &View<'_>) {
    let trouble = view.trouble;
    page.put(
        "<section id=\"trouble\">\n<h2>In trouble: {}</h2>\n",
        &[Value::Number(trouble as u64)],
    );
    if trouble == 0 {
        page.put(
            "<p>No machine has failed, no deadline has passed, and no order waits for over five minutes",
            &[],
        );
        put_old_ages(page, view.halls.as_slice());
        page.put(".</p>\n", &[]);
    }
    for group in view.groups.iter().take(MAX_GROUPS) {
        put_group(page, view, group);
    }
    let rest = rest_of(view.groups.as_slice());
    if rest > 0 {
        page.put(
            "<p>{} more in trouble: choose a hall in the table of halls.</p>\n",
            &[Value::Number(rest as u64)],
        );
    }
    end_section(page);
}
