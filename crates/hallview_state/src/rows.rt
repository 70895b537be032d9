//! What rows of machines show.
use crate::hall::Hall;
use crate::listed::Listed;
use hall_types::{Interface, Machine, Name};
use std::alloc::{AllocError, Global};
use uuid::Uuid;

/// A name, or `-`.
pub fn or_dash(name: &Option<Name>) -> &str {
    match name {
        Some(name) => name.text(),
        None => "-",
    }
}

// Addresses, a comma between each two.
fn addresses(alloc: Global, interfaces: &[Interface]) -> Result<String, AllocError> {
    let mut text = String::new(alloc);
    for interface in interfaces {
        if !text.is_empty() {
            text.push_str(", ")?;
        }
        let address = pxe_vendor::print_mac(alloc, &interface.mac.octets())?;
        text.push_str(address.as_str())?;
    }
    Ok(text)
}

// A machine's UUID in wire order, or `-`.
fn uuid_text(alloc: Global, machine: &Machine) -> Result<String, AllocError> {
    match machine.uuid {
        Some(uuid) => Uuid::from_bytes(uuid.octets()).to_string(alloc),
        None => String::from_str(alloc, "-"),
    }
}

// What a row of a machine shows, and its architecture and UUID: a line for each.
fn row_text(alloc: Global, hall: &Hall, one: &Listed) -> Result<String, AllocError> {
    let machine = &one.machine;
    let (id, hall, status) = (machine.id.get(), hall.name.text(), machine.status.text());
    let locked = if machine.locked { ", locked" } else { "" };
    let (pool, arch) = (machine.pool.text(), machine.arch.text());
    let (owner, image) = (or_dash(&machine.owner), or_dash(&machine.image));
    let uuid = uuid_text(alloc, machine)?;
    let addresses = addresses(alloc, one.interfaces.as_slice())?;
    format!(in alloc;
        "{id}\n{hall}\n{status}{locked}\n{pool}\n{owner}\n{image}\n{arch}\n{uuid}\n{addresses}"
    )
}

/// Whether a row of a machine shows a text, which is one line in lower case. An address in it may be written with hyphens.
pub(crate) fn shows(
    alloc: Global,
    hall: &Hall,
    one: &Listed,
    text: &str,
) -> Result<bool, AllocError> {
    let row = row_text(alloc, hall, one)?.to_ascii_lowercase(alloc)?;
    let address = text.replace(alloc, "-", ":")?;
    Ok(row.contains(text) || row.contains(address.as_str()))
}
