//! The texts of a machine's members.
ghost use Rattle.std.specs.{Prelude.{◌≡◌, ◌∷◌, ◌++◌, [], IfOk, OnOk, string_bytes}, List.flat_map};
ghost use Rattle.hall_report.specs.{Prelude.mac_text, Lines.{macs_text, uuid_text, yes_no}};

use hall_types::{Interface, MacAddress, MachineUuid};
use std::alloc::{AllocError, Global};
use uuid::Uuid;

/// A truth value, as `yes` or `no`.
pub(crate) fn yes_no(truth: bool) -> &'static str
    ensures { result.now ≡ yes_no truth }
{
    if truth { "yes" } else { "no" }
}

/// A UUID with hyphens, in lower case.
pub(crate) fn uuid_text(alloc: Global, uuid: MachineUuid) -> Result<String, AllocError>
    ensures { IfOk result (λ text. string_bytes text ≡ uuid_text uuid) }
{
    let mut buffer = Uuid::encode_buffer();
    let text = Uuid::from_bytes(uuid.octets())
        .hyphenated()
        .encode_lower(&mut buffer);
    String::from_str(alloc, text)
}

// Writes an address after a space.
fn push_mac(text: &mut String, mac: MacAddress) -> Result<(), AllocError>
    ensures { OnOk result (string_bytes text.new ≡ string_bytes text.old ++ (32 ∷ []) ++ mac_text mac) }
{
    text.push(' ')?;
    pxe_vendor::push_mac(text, &mac.octets())
}

// Writes the addresses of interfaces, each after a space.
fn push_macs(text: &mut String, interfaces: &[Interface]) -> Result<(), AllocError>
    ensures { OnOk result (string_bytes text.new ≡ string_bytes text.old ++ flat_map (λ i. (32 ∷ []) ++ mac_text i.mac) interfaces.now) }
{
    for interface in interfaces {
        push_mac(text, interface.mac)?;
    }
    Ok(())
}

/// The addresses of interfaces, one space apart.
pub(crate) fn macs_text(alloc: Global, interfaces: &[Interface]) -> Result<String, AllocError>
    ensures { IfOk result (λ text. string_bytes text ≡ macs_text interfaces.now) }
{
    let Some((first, others)) = interfaces.split_first() else {
        return Ok(String::new(alloc));
    };
    let mut text = pxe_vendor::print_mac(alloc, &first.mac.octets())?;
    push_macs(&mut text, others)?;
    Ok(text)
}
