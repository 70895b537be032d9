//! Columns of a list of machines, and what they show of a machine.
use crate::answer_fault::AnswerFault;
use crate::listings::{address_in, addresses};
use crate::member_texts::{push_item, value_text};
use crate::members::count_at;
use serde_json::Value;
use std::alloc::{AllocError, Global};

/// A column of a list of machines.
#[derive(Clone, Copy, PartialEq, Eq)]
pub enum Column {
    Id,
    Status,
    Locked,
    Deadline,
    Order,
    Boot,
    Version,
    Pool,
    Owner,
    Image,
    Erase,
    Arch,
    Uuid,
    Addresses,
}

impl Column {
    /// All of them, in the order in which the members of one machine are shown.
    pub const ALL: [Column; 14] = [
        Column::Id,
        Column::Status,
        Column::Locked,
        Column::Deadline,
        Column::Order,
        Column::Boot,
        Column::Version,
        Column::Pool,
        Column::Owner,
        Column::Image,
        Column::Erase,
        Column::Arch,
        Column::Uuid,
        Column::Addresses,
    ];

    /// Those of a list where none are named.
    pub const USUAL: [Column; 7] = [
        Column::Id,
        Column::Status,
        Column::Pool,
        Column::Owner,
        Column::Image,
        Column::Addresses,
        Column::Version,
    ];

    /// Its name.
    pub fn name(self) -> &'static str {
        match self {
            Column::Id => "id",
            Column::Status => "status",
            Column::Locked => "locked",
            Column::Deadline => "deadline",
            Column::Order => "order",
            Column::Boot => "boot",
            Column::Version => "version",
            Column::Pool => "pool",
            Column::Owner => "owner",
            Column::Image => "image",
            Column::Erase => "erase",
            Column::Arch => "arch",
            Column::Uuid => "uuid",
            Column::Addresses => "addresses",
        }
    }

    /// The column with this name.
    pub fn with_name(name: &str) -> Option<Column> {
        Column::ALL
            .iter()
            .copied()
            .find(|column| column.name() == name)
    }

    // Whether it shows numbers, or nothing.
    pub(crate) fn is_of_numbers(self) -> bool {
        matches!(
            self,
            Column::Id | Column::Deadline | Column::Order | Column::Boot | Column::Version
        )
    }

    /// What it shows of a machine, as the desk has it.
    pub(crate) fn plain_cell(self, alloc: Global, object: &Value) -> Result<String, AnswerFault> {
        if self == Column::Addresses {
            return addresses_text(alloc, object);
        }
        let value = object.get(self.name()).ok_or(AnswerFault::NotTheDesk)?;
        value_text(alloc, value)
    }

    /// What it shows of a machine at a moment, if that is known: `yes` or `no` in place of a flag, and how far away a deadline is.
    pub(crate) fn cell(
        self,
        alloc: Global,
        object: &Value,
        now: Option<u64>,
    ) -> Result<String, AnswerFault> {
        match self {
            Column::Deadline => match (count_at(object, self.name()), now) {
                (Some(deadline), Some(now)) => Ok(until(alloc, deadline, now)?),
                _ => self.plain_cell(alloc, object),
            },
            Column::Locked => match object.get(self.name()).and_then(Value::as_bool) {
                Some(true) => Ok(String::from_str(alloc, "yes")?),
                Some(false) => Ok(String::from_str(alloc, "no")?),
                None => Err(AnswerFault::NotTheDesk),
            },
            _ => self.plain_cell(alloc, object),
        }
    }
}

// The addresses of a machine, a comma between each two.
fn addresses_text(alloc: Global, object: &Value) -> Result<String, AnswerFault> {
    let mut text = String::new(alloc);
    for value in addresses(object)? {
        let address = address_in(value).ok_or(AnswerFault::NotTheDesk)?;
        let address = pxe_vendor::print_mac(alloc, &address.octets())?;
        push_item(&mut text, address.as_str())?;
    }
    Ok(text)
}

// The seconds of a minute.
const MINUTE: u64 = 60;

// How far away a moment is: `in 28 min`, `in 45 s`, or `passed`.
fn until(alloc: Global, moment: u64, now: u64) -> Result<String, AllocError> {
    let seconds = moment.saturating_sub(now);
    if seconds == 0 {
        return String::from_str(alloc, "passed");
    }
    if seconds < MINUTE {
        return format!(in alloc; "in {seconds} s");
    }
    let minutes = seconds / MINUTE;
    format!(in alloc; "in {minutes} min")
}
