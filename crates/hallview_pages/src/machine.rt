//! The page of one machine.
ghost use Rattle.std.specs.Prelude.{IfOk};
ghost use Rattle.hallview_pages.specs.{Ages.TellsAges, Markup.IsPage};

use crate::ages::put_age;
use crate::commands::put_command;
use crate::links::put_link;
use crate::markup::Page;
use crate::overview::put_hall_title;
use crate::parts::{end_section, end_table, put_addresses, word};
use crate::value::Value;
use crate::whole::{Contents, whole_page};
use hall_types::{Machine, Number};
use hallview_state::{Field, Hall, Listed, Move, State, advice, or_dash, words_for};
use std::alloc::{AllocError, Global};

// How many moves are shown.
const MAX_MOVES: usize = 200;

fn put_nav(page: &mut Page, hall: &Hall) {
    page.put(
        "<nav aria-label=\"Back\">\n<ul>\n<li><a href=\"/\">All machines</a></li>\n<li><a href=\"",
        &[],
    );
    put_link(page, &[(Field::Hall, hall.name.text())]);
    page.put("\">", &[]);
    put_hall_title(page, hall);
    page.put("</a></li>\n</ul>\n</nav>\n<section id=\"do\">\n", &[]);
}

// What to do about the machine, in hallctl's words.
fn put_commands(page: &mut Page, hall: &Hall, one: &Listed) {
    page.put("<p><span>{}</span>", &[Value::Text("In hallctl's words:")]);
    put_command(page, hall, "machine", &[one], &one.machine);
    for word in words_for(one.machine.status) {
        put_command(page, hall, word, &[one], &one.machine);
    }
    page.put("</p>\n", &[]);
}

fn put_member(page: &mut Page, name: &'static str, value: Value<'_>) {
    page.put(
        "<tr><th scope=\"row\">{}</th><td>{}</td>\n</tr>",
        &[Value::Text(name), value],
    );
}

fn number_or_dash(number: Option<Number>) -> Value<'static> {
    match number {
        Some(number) => Value::Number(number.get()),
        None => Value::Text("-"),
    }
}

fn put_members(page: &mut Page, one: &Listed) {
    let machine = &one.machine;
    put_member(page, "id", Value::Number(machine.id.get()));
    put_member(page, "status", Value::Text(machine.status.text()));
    let locked = if machine.locked { "yes" } else { "no" };
    put_member(page, "locked", Value::Text(locked));
    let deadline = match machine.deadline {
        Some(deadline) => Value::Until(deadline),
        None => Value::Text("-"),
    };
    put_member(page, "deadline", deadline);
    put_member(page, "order", number_or_dash(machine.waiting));
    put_member(page, "boot", number_or_dash(machine.boot));
    put_member(page, "version", Value::Number(machine.version.get()));
    put_member(page, "pool", Value::Text(machine.pool.text()));
    put_member(page, "owner", Value::Text(or_dash(&machine.owner)));
    put_member(page, "image", Value::Text(or_dash(&machine.image)));
    let erase = match machine.erase {
        Some(erase) => erase.text(),
        None => "-",
    };
    put_member(page, "erase", Value::Text(erase));
    put_member(page, "arch", Value::Text(machine.arch.text()));
    let uuid = match machine.uuid {
        Some(uuid) => Value::Uuid(uuid.octets()),
        None => Value::Text("-"),
    };
    put_member(page, "uuid", uuid);
    page.put("<tr><th scope=\"row\">addresses</th><td>", &[]);
    put_addresses(page, one.interfaces.as_slice());
    page.put("</td>\n</tr>", &[]);
}

// The machine as the last list has it.
fn put_listed(page: &mut Page, hall: &Hall, one: &Listed) {
    let machine = &one.machine;
    page.put(
        "<h2>{}{}</h2>\n<p>{} {}.</p>\n",
        &[
            Value::Text(machine.status.text()),
            Value::Text(if machine.locked { ", locked" } else { "" }),
            Value::Text(advice(machine.status)),
            Value::Allowed(machine.status),
        ],
    );
    put_commands(page, hall, one);
    end_section(page);
    page.put(
        "<section id=\"members\">\n<h2>As the desk lists it</h2>\n<div role=\"group\" aria-label=\"As the desk lists it\" tabindex=\"0\">\n<table>\n<caption>The list is ",
        &[],
    );
    put_age(page, hall);
    page.put("</caption>\n<tbody>", &[]);
    put_members(page, one);
    end_table(page);
}

// A move, and how long the machine had had the status before.
fn put_move(page: &mut Page, step: &Move, before: Option<&Move>) {
    let after = match before {
        Some(before) => Value::Span(step.at.saturating_sub(before.at)),
        None => Value::Text("-"),
    };
    page.put(
        "<tr><th scope=\"row\"><time datetime=\"{}\">{}</time></th><td>{}</td><td>{}</td><td>{}</td>\n</tr>",
        &[
            Value::Stamp(step.at),
            Value::Moment(step.at),
            Value::Text(step.from.text()),
            Value::Text(step.to.text()),
            after,
        ],
    );
}

fn put_moves(page: &mut Page, began: u64, moves: &[Move]) {
    let time = page.context.now.saturating_sub(began);
    let shown = if moves.len() > MAX_MOVES {
        "; the last 200 are shown"
    } else {
        ""
    };
    page.put(
        "<section id=\"moves\">\n<h2>Moves</h2>\n<p>Hallview began {} ago, and has seen {} {} of it since{}.</p>\n",
        &[
            Value::Span(time),
            Value::Number(moves.len() as u64),
            Value::Text(word(moves.len(), "move", "moves")),
            Value::Text(shown),
        ],
    );
    if moves.is_empty() {
        return;
    }
    page.put(
        "<div role=\"group\" aria-label=\"Moves\" tabindex=\"0\">\n<table>\n<caption>The newest first; times are when hallview saw it</caption>\n<thead>\n<tr><th scope=\"col\">At</th><th scope=\"col\">From</th><th scope=\"col\">To</th><th scope=\"col\">After</th></tr>\n</thead>\n<tbody>",
        &[],
    );
    for (place, step) in moves.iter().enumerate().rev().take(MAX_MOVES) {
        put_move(page, step, moves.get(place.wrapping_sub(1)));
    }
    end_table(page);
}

fn put_heading(page: &mut Page, hall: &Hall, id: Number) {
    page.put(
        "Machine {} of {}",
        &[Value::Number(id.get()), Value::Text(hall.name.text())],
    );
}

// What the page of a machine has, which may be in the list or not.
fn contents_of(
    alloc: Global,
    state: &State,
    now: u64,
    hall: &Hall,
    id: Number,
    moves: &[Move],
) -> Contents {
    let mut contents = Contents::new(alloc, state, now);
    let one = find(hall, id);
    let status = match one {
        Some(one) => one.machine.status.text(),
        None => "not listed",
    };
    contents.title.put("{}, ", &[Value::Text(status)]);
    put_heading(&mut contents.title, hall, id);
    put_heading(&mut contents.heading, hall, id);
    let page = &mut contents.shown;
    put_nav(page, hall);
    match one {
        Some(one) => put_listed(page, hall, one),
        None => page.put(
            "<h2>Not listed</h2>\n<p>The last list of {} has no machine {}.</p>\n",
            &[Value::Text(hall.name.text()), Value::Number(id.get())],
        ),
    }
    end_section(page);
    put_moves(page, state.began, moves);
    end_section(page);
    contents
}

/// The machine with this number in a hall's last list.
pub(crate) fn find(hall: &Hall, id: Number) -> Option<&Listed> {
    for one in hall.machines() {
        if one.machine.id == id {
            return Some(one);
        }
    }
    None
}

/// The page of a machine of a hall, also of one that the hall's last list doesn't have.
pub(crate) fn machine_page(
    alloc: Global,
    state: &State,
    hall: &Hall,
    id: Number,
    now: u64,
) -> Result<Vec<u8>, AllocError>
    ensures page { IfOk result (λ octets. IsPage octets.items) }
    ensures ages { IfOk result (λ octets. TellsAges state.now now octets.items) }
{
    let mut moves = Vec::new(alloc);
    for step in hall.moves.as_slice() {
        if step.machine == id {
            moves.push(*step)?;
        }
    }
    let contents = contents_of(alloc, state, now, hall, id, moves.as_slice());
    whole_page(alloc, state, now, &contents)
}
