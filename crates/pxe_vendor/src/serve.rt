//! Identifying the client that sent a message.
ghost use Rattle.std.specs.{Prelude.{◌≡◌, ◌⊎◌, ◌↔◌, ◌++◌, [], ℕ, List, unwrap_or, Option, Some, None, Ok, IfOk, IsErrOf, MatchResult, ok_or, option_copied, length, nat_eq, codes, ◌==◌, if◌then◌else◌}, List.starts_with};
ghost use Rattle.dhcp_frame.specs.Message.{Message};
ghost use Rattle.pxe_vendor.specs.{Arch.{first_known, class_numbers, numbers_of}, Client.{IsClient, uuid_of, is_ipxe, boot_item}, Served.{Answers, kind_of, class_of, item_of, decided, client_of}, Values.values_of};

use crate::arch;
use crate::arch::Arch;
use crate::blank::is_blank;
use crate::clients::{Client, Kind};
use crate::numbers::{BOOT_ITEM, BOOT_ITEM_LEN, DISCOVER, REQUEST, UUID_LEN, UUID_TYPE};
use crate::octets::Octets;
use crate::values::Values;
use dhcp_frame::{Frame, OptionIter};
use std::alloc::{AllocError, Global};
use thiserror::Error;

/// The first cause not to serve a message. The causes but `Memory` are numbered in the order in which
/// they are checked.
#[derive(Clone, Copy, Debug, PartialEq, Eq, Error)]
pub enum NotServed {
    /// There is no option 53 of one octet.
    #[error("no message type")]
    NoType = 1,
    /// Option 53 is neither a DISCOVER nor a REQUEST.
    #[error("another type of message")]
    OtherType = 2,
    /// Option 60 doesn't begin `PXEClient`.
    #[error("not a PXE client")]
    NotPxe = 3,
    /// Neither option 93 nor option 60 has a known architecture.
    #[error("no known architecture")]
    NoArch = 4,
    /// An option is cut in option 43 of a REQUEST.
    #[error("the vendor's options are cut")]
    BadVendor = 5,
    #[error("out of memory")]
    Memory = 6,
}

/// The law of clients: `client_of` identifies the client that sent a message, and at most one client
/// sent it.
pub fn one_client()
    ensures exact { (message : Message) (client : Client) → IsClient message client ↔ (client_of message ≡ Ok client) }
    ensures one { (message : Message) (client other : Client) → IsClient message client → IsClient message other → client ≡ other }
{}

#[tactic(auto, unfolding(crate::specs::Served::kind_of))]
fn kind_in(value: Option<&[u8]>) -> Result<Kind, NotServed>
    ensures { result ≡ kind_of (option_copied value.entry) }
{
    match value {
        Some([DISCOVER]) => Ok(Kind::Discover),
        Some([REQUEST]) => Ok(Kind::Request),
        Some([_]) => Err(NotServed::OtherType),
        _ => Err(NotServed::NoType),
    }
}

// The vendor class of a PXE client.
#[tactic(auto, unfolding(crate::specs::Served::class_of))]
fn class_in(value: Option<&[u8]>) -> Result<&[u8], NotServed>
    ensures { MatchResult result (λ class. class_of (option_copied value.entry) ≡ Ok class.now) (λ cause. class_of (option_copied value.entry) ≡ Err cause) }
{
    let Some(class) = value else {
        return Err(NotServed::NotPxe);
    };
    if class.starts_with(b"PXEClient") {
        Ok(class)
    } else {
        Err(NotServed::NotPxe)
    }
}

#[tactic(auto, using(crate::proofs::ArchLemmas::arch_steps))]
fn arch_in(list: Option<&[u8]>, class: &[u8]) -> Result<Arch, NotServed>
    ensures { result ≡ ok_or (first_known (numbers_of (unwrap_or (option_copied list.entry) []) ++ class_numbers class.now)) NotServed.NoArch }
{
    let listed = list.and_then(|list| arch::in_list(list));
    listed.or(arch::in_class(class)).ok_or(NotServed::NoArch)
}

fn exactly<const N: usize>(octets: &[u8]) -> Option<[u8; N]>
    ensures { result ≡ (if length octets.now == N then Some octets.now else None) }
{
    <[u8; N]>::try_from(octets).ok()
}

// The UUID in the value of option 97.
fn uuid_in(value: Option<&[u8]>) -> Option<[u8; UUID_LEN]>
    ensures { result ≡ uuid_of (option_copied value.entry) }
{
    let (kind, octets) = value?.split_first()?;
    if *kind != UUID_TYPE || is_blank(octets) {
        return None;
    }
    exactly(octets)
}

fn is_ipxe_class(value: Option<&[u8]>) -> bool
    ensures { result ≡ is_ipxe (option_copied value.entry) }
{
    match value {
        Some(class) => class == b"iPXE".as_slice() || class == b"\x04iPXE".as_slice(),
        None => false,
    }
}

#[tactic(auto, unfolding(crate::specs::Served::item_of))]
fn item_in(kind: Kind, area: Option<&[u8]>) -> Result<Option<[u8; BOOT_ITEM_LEN]>, NotServed>
    ensures { result ≡ item_of kind (option_copied area.entry) }
{
    let (Kind::Request, Some(area)) = (kind, area) else {
        return Ok(None);
    };
    let Some(tags) = OptionIter::over(area) else {
        return Err(NotServed::BadVendor);
    };
    Ok(first_item(tags))
}

fn first_item(tags: OptionIter<'_>) -> Option<[u8; BOOT_ITEM_LEN]>
    ensures { result ≡ boot_item tags.entry }
{
    for (tag, value) in tags {
        if tag == BOOT_ITEM && value.len() == BOOT_ITEM_LEN {
            return exactly(value);
        }
    }
    None
}

// The kind, the architecture and the boot item, or the first cause not to serve.
#[tactic(auto, unfolding(crate::specs::Served::decided))]
fn decide(values: &Values<'_>) -> Result<(Kind, Arch, Option<[u8; BOOT_ITEM_LEN]>), NotServed>
    ensures { result ≡ decided values.now }
{
    let kind = kind_in(values.message_type.as_slice())?;
    let class = class_in(values.class.as_slice())?;
    let arch = arch_in(values.architectures.as_slice(), class)?;
    let item = item_in(kind, values.vendor.as_slice())?;
    Ok((kind, arch, item))
}

fn kept(alloc: Global, value: Option<&[u8]>) -> Result<Option<Octets>, AllocError>
    ensures { IfOk result (λ kept. kept ≡ option_copied value.entry) }
{
    match value {
        Some(octets) => Ok(Some(Octets::from(Vec::from_slice(alloc, octets)?))),
        None => Ok(None),
    }
}

// The client that sent a message with these values, or the first cause not to serve it.
#[tactic(auto, unfolding(crate::specs::Served::client_of))]
fn client_with(alloc: Global, frame: &Frame<'_>, values: &Values<'_>) -> Result<Client, NotServed>
    requires { values.now ≡ values_of frame.now.entries }
    ensures { Answers result (client_of frame.now) }
{
    let (kind, arch, item) = decide(values)?;
    let identifier = values.identifier.as_slice();
    match kept(alloc, identifier) {
        Ok(echo97) => Ok(Client {
            mac: frame.mac(),
            kind,
            arch,
            uuid: uuid_in(identifier),
            echo97,
            item,
            ipxe: is_ipxe_class(values.user_class.as_slice()),
        }),
        Err(AllocError) => Err(NotServed::Memory),
    }
}

fn client_inner(alloc: Global, frame: &Frame<'_>) -> Result<Client, NotServed>
    ensures { Answers result (client_of frame.now) }
{
    let mut values = Values::new();
    let client = match values.join(alloc, frame) {
        Ok(()) => client_with(alloc, frame, &values),
        Err(AllocError) => Err(NotServed::Memory),
    };
    drop(values);
    client
}

/// Identifies the PXE client that sent a frame (PXE 2.1; RFC 4578). An error is the first cause not to
/// serve it, unless memory ran out.
pub fn client(alloc: Global, frame: &Frame<'_>) -> Result<Client, NotServed>
    // This client sent the message.
    ensures client { IfOk result (λ client. IsClient frame.now client) }
    // The client that sent the message is identified, unless memory ran out.
    ensures only { (client : Client) → IsClient frame.now client → (result ≡ Ok client) ⊎ IsErrOf result NotServed.Memory }
    // A cause is the first in the order, unless memory ran out.
    ensures exact { Answers result (client_of frame.now) }
{
    client_inner(alloc, frame)
}
