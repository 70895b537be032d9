//! Members of JSON objects, and the values of addresses and identifiers.
ghost use Rattle.std.specs.Prelude.{◌≡◌, option_map, IfOk, IfSome, OnOk};
ghost use Rattle.hall_types.specs.Octets.{AreOctets};
ghost use Rattle.serde_json.specs.{Data.{put as with, string}, View.{view, members_view}};
ghost use Rattle.hall_events.specs.{Object.{count, member_if, put_all}, Command.{mac_data, uuid_data}};

use hall_types::{MacAddress, MachineUuid};
use serde_json::{Map, Value, put};
use std::alloc::{AllocError, Global};
use uuid::Uuid;

pub(crate) fn put_text(
    alloc: Global,
    members: &mut Map<String, Value>,
    name: &str,
    text: &str,
) -> Result<(), AllocError>
    ensures { OnOk result (members_view members.new.entries ≡ with name.now (string text.now) (members_view members.old.entries)) }
{
    let text = Value::try_from_str(alloc, text)?;
    put(members, alloc, name, text)
}

pub(crate) fn put_count(
    alloc: Global,
    members: &mut Map<String, Value>,
    name: &str,
    number: u64,
) -> Result<(), AllocError>
    ensures { OnOk result (members_view members.new.entries ≡ with name.now (count number) (members_view members.old.entries)) }
{
    put(members, alloc, name, Value::from(number))
}

// A member that is left out if it has no value.
pub(crate) fn put_if(
    alloc: Global,
    members: &mut Map<String, Value>,
    name: &str,
    value: Option<Value>,
) -> Result<(), AllocError>
    ensures { OnOk result (members_view members.new.entries ≡ put_all (member_if name.now (option_map view value)) (members_view members.old.entries)) }
{
    match value {
        Some(value) => put(members, alloc, name, value),
        None => Ok(()),
    }
}

pub(crate) fn mac_value(alloc: Global, mac: MacAddress) -> Result<Value, AllocError>
    ensures value { IfOk result (λ value. view value ≡ mac_data mac) }
    ensures whole { OnOk result (AreOctets 6 mac) }
{
    let text = pxe_vendor::print_mac(alloc, &mac.octets())?;
    Ok(Value::String(text))
}

/// The value of a UUID's octets.
pub(crate) fn uuid_text(alloc: Global, octets: [u8; 16]) -> Result<Value, AllocError>
    ensures { IfOk result (λ value. view value ≡ uuid_data octets) }
{
    let mut buffer = Uuid::encode_buffer();
    let text = Uuid::from_bytes(octets)
        .hyphenated()
        .encode_lower(&mut buffer);
    Value::try_from_str(alloc, text)
}

pub(crate) fn uuid_value(
    alloc: Global,
    uuid: Option<MachineUuid>,
) -> Result<Option<Value>, AllocError>
    ensures value { IfOk result (λ value. option_map view value ≡ option_map uuid_data uuid) }
    ensures whole { OnOk result (IfSome uuid (AreOctets 16)) }
{
    match uuid {
        Some(uuid) => Ok(Some(uuid_text(alloc, uuid.octets())?)),
        None => Ok(None),
    }
}
