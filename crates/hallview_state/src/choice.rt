//! Which machines a table has, and in which order.
use crate::hall::Hall;
use crate::listed::Listed;
use crate::query::{Field, Query};
use crate::rows::{or_dash, shows};
use crate::view::{View, by_place};
use hall_types::Interface;
use std::alloc::{AllocError, Global};
use std::cmp::Ordering;

/// A column of the table.
#[derive(Clone, Copy, PartialEq, Eq)]
pub enum Column {
    Id,
    Hall,
    Status,
    Deadline,
    Pool,
    Owner,
    Image,
    Addresses,
}

impl Column {
    /// All of them, in their order.
    pub const ALL: [Column; 8] = [
        Column::Id,
        Column::Hall,
        Column::Status,
        Column::Deadline,
        Column::Pool,
        Column::Owner,
        Column::Image,
        Column::Addresses,
    ];

    /// Its name in URLs.
    pub fn name(self) -> &'static str {
        match self {
            Column::Id => "id",
            Column::Hall => "hall",
            Column::Status => "status",
            Column::Deadline => "deadline",
            Column::Pool => "pool",
            Column::Owner => "owner",
            Column::Image => "image",
            Column::Addresses => "addresses",
        }
    }

    /// What a query has to sort by it, rising or falling; nothing by the first one rising, as without a query.
    pub fn sort(self, falls: bool) -> &'static str {
        match (self, falls) {
            (Column::Id, false) => "",
            (_, false) => self.name(),
            (Column::Id, true) => "-id",
            (Column::Hall, true) => "-hall",
            (Column::Status, true) => "-status",
            (Column::Deadline, true) => "-deadline",
            (Column::Pool, true) => "-pool",
            (Column::Owner, true) => "-owner",
            (Column::Image, true) => "-image",
            (Column::Addresses, true) => "-addresses",
        }
    }

    /// Its title in the table, and within a sentence.
    pub fn title(self) -> (&'static str, &'static str) {
        match self {
            Column::Id => ("Machine", "machine"),
            Column::Hall => ("Hall", "hall"),
            Column::Status => ("Status", "status"),
            Column::Deadline => ("Deadline", "deadline"),
            Column::Pool => ("Pool", "pool"),
            Column::Owner => ("Owner", "owner"),
            Column::Image => ("Image", "image"),
            Column::Addresses => ("Addresses", "addresses"),
        }
    }
}

/// The order of a table.
#[derive(Clone, Copy)]
pub struct Order {
    pub column: Column,
    pub falls: bool,
}

/// The order that a query asks for: by number where it asks for none that there is.
pub fn order_of(query: &Query, has_several: bool) -> Order {
    let text = query.text(Field::Sort);
    let (name, falls) = match text.strip_prefix("-") {
        Some(name) => (name, true),
        None => (text, false),
    };
    for column in Column::ALL.as_slice() {
        if column.name() == name && (has_several || *column != Column::Hall) {
            return Order {
                column: *column,
                falls,
            };
        }
    }
    Order {
        column: Column::Id,
        falls: false,
    }
}

/// A row of the table: a machine and its hall.
#[derive(Clone, Copy)]
pub struct Row<'s> {
    pub hall: &'s Hall,
    pub one: &'s Listed,
}

// The text of a row in a column of names; empty where the machine has none.
fn text_in<'s>(column: Column, row: &Row<'s>) -> &'s str {
    let machine = &row.one.machine;
    match (column, &machine.owner, &machine.image) {
        (Column::Hall, _, _) => row.hall.name.text(),
        (Column::Status, _, _) => machine.status.text(),
        (Column::Pool, _, _) => machine.pool.text(),
        (Column::Owner, Some(owner), _) => owner.text(),
        (Column::Image, _, Some(image)) => image.text(),
        _ => "",
    }
}

fn turned(order: Ordering, falls: bool) -> Ordering {
    if falls { order.reverse() } else { order }
}

// What isn't there comes last, also where the column falls.
fn by_presence(one: bool, other: bool) -> Ordering {
    other.cmp(&one)
}

fn by_texts(one: &str, other: &str, falls: bool) -> Ordering {
    by_presence(!one.is_empty(), !other.is_empty()).then(turned(one.cmp(other), falls))
}

fn by_deadlines(one: Option<u64>, other: Option<u64>, falls: bool) -> Ordering {
    match (one, other) {
        (Some(one), Some(other)) => turned(one.cmp(&other), falls),
        _ => by_presence(one.is_some(), other.is_some()),
    }
}

// By the first address that differs.
fn by_addresses(one: &[Interface], other: &[Interface], falls: bool) -> Ordering {
    let mut order = by_presence(!one.is_empty(), !other.is_empty());
    for (one, other) in one.iter().zip(other.iter()) {
        order = order.then(turned(one.mac.cmp(&other.mac), falls));
    }
    order.then(turned(one.len().cmp(&other.len()), falls))
}

// Rows that are equal in the column are in the order of halls and numbers.
fn by_order(one: &Row<'_>, other: &Row<'_>, order: Order) -> Ordering {
    let (column, falls) = (order.column, order.falls);
    let (a, b) = (&one.one.machine, &other.one.machine);
    let first = match column {
        Column::Id => turned(a.id.cmp(&b.id), falls),
        Column::Deadline => by_deadlines(a.deadline, b.deadline, falls),
        Column::Addresses => by_addresses(
            one.one.interfaces.as_slice(),
            other.one.interfaces.as_slice(),
            falls,
        ),
        _ => by_texts(text_in(column, one), text_in(column, other), falls),
    };
    match first {
        Ordering::Equal => by_place(one.hall, one.one, other.hall, other.one),
        _ => first,
    }
}

fn is_chosen(
    alloc: Global,
    query: &Query,
    hall: &Hall,
    one: &Listed,
    search: &str,
) -> Result<bool, AllocError> {
    let machine = &one.machine;
    let status = query.text(Field::Status);
    if !query.takes(Field::Pool, machine.pool.text())
        || !query.takes(Field::Owner, or_dash(&machine.owner))
        || !query.takes(Field::Image, or_dash(&machine.image))
        || !(status.is_empty() || status.eq_ignore_ascii_case(machine.status.text()))
    {
        return Ok(false);
    }
    Ok(search.is_empty() || shows(alloc, hall, one, search)?)
}

// Adds the rows of a hall that a query asks for.
fn push_chosen<'s>(
    alloc: Global,
    rows: &mut Vec<Row<'s>>,
    query: &Query,
    hall: &'s Hall,
    search: &str,
) -> Result<(), AllocError> {
    for one in hall.machines() {
        if is_chosen(alloc, query, hall, one, search)? {
            rows.push(Row { hall, one })?;
        }
    }
    Ok(())
}

/// The rows that a view's query asks for, in their order.
pub fn chosen<'s>(
    alloc: Global,
    view: &View<'s>,
    order: Order,
) -> Result<Vec<Row<'s>>, AllocError> {
    let search = view.query.text(Field::Text).to_ascii_lowercase(alloc)?;
    let mut rows = Vec::new(alloc);
    for hall in view.halls.as_slice() {
        push_chosen(alloc, &mut rows, &view.query, hall, search.as_str())?;
    }
    rows.sort_by(|one, other| by_order(one, other, order))?;
    Ok(rows)
}
