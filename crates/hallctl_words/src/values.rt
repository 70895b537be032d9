//! The values that words say.
ghost use Rattle.std.specs.Prelude.{◌≡◌, ◌≤◌, take, length, option_map, slice_index};
ghost use Rattle.uuid.specs.Text.{parsed};
ghost use Rattle.hallctl_words.specs.Words.{erase_in, seconds_in, times_at_most, uuid_in};

use hall_types::{Erase, MacAddress, MachineUuid, RequestKey, Status};
use pxe_vendor::numeral;
use uuid::Uuid;

// The octets of a UUID, in one of its four spellings.
fn parsed(text: &str) -> Option<[u8; 16]>
    ensures { result ≡ parsed text.now }
{
    match Uuid::parse_str(text) {
        Ok(uuid) => Some(uuid.into_bytes()),
        Err(_) => None,
    }
}

/// The request key that a UUID is.
pub(crate) fn key_of(text: &str) -> Option<RequestKey>
    ensures { result ≡ parsed text.now }
{
    let octets = parsed(text)?;
    Some(RequestKey::from(octets))
}

/// The UUID of a machine's system, which is neither all zeros nor all ones.
pub(crate) fn uuid_of(text: &str) -> Option<MachineUuid>
    ensures { result ≡ uuid_in text.now }
{
    MachineUuid::identifying(parsed(text)?)
}

/// How disks are erased; `none` isn't at all.
pub(crate) fn erase_of(text: &str) -> Option<Option<Erase>>
    ensures { result ≡ erase_in text.now }
{
    if text == "none" {
        return Some(None);
    }
    text.parse::<Erase>().ok().map(Some)
}

// The characters of a hardware address.
const ADDRESS_LEN: usize = 17;

/// The hardware address of a text, with colons or hyphens.
pub(crate) fn mac_of(text: &str) -> Option<MacAddress> {
    let mut octets = [0; ADDRESS_LEN];
    if text.len() != octets.len() {
        return None;
    }
    for (own, given) in octets.iter_mut().zip(text.bytes()) {
        *own = if given == b'-' { b':' } else { given };
    }
    std::str::from_utf8(&octets).ok()?.parse().ok()
}

// Whether an octet of a status is the one that is given, in upper or lower case, or a blank for a hyphen.
fn is_alike(own: u8, given: u8) -> bool {
    own.eq_ignore_ascii_case(&given) || (own == b' ' && given == b'-')
}

fn is_named(status: Status, text: &str) -> bool {
    let own = status.text();
    own.len() == text.len()
        && own
            .bytes()
            .zip(text.bytes())
            .all(|(own, given)| is_alike(own, given))
}

/// The status that a text names, in upper or lower case, with blanks or hyphens between its words.
pub(crate) fn status_of(text: &str) -> Option<Status> {
    Status::ALL
        .iter()
        .copied()
        .find(|status| is_named(*status, text))
}

// A year of 365 days, in seconds.
const MAX_SECONDS: u64 = 31_536_000;

// So many units of this many seconds.
fn times(text: &[u8], unit: u64) -> Option<u64>
    requires { 1 ≤ unit }
    ensures { result ≡ times_at_most unit text.now }
{
    match numeral(text) {
        Some(count) if count <= MAX_SECONDS / unit => Some(count * unit),
        _ => None,
    }
}

/// The seconds of a time in seconds, or as `30s`, `10m` or `2h`: a year at most.
pub(crate) fn seconds_of(text: &[u8]) -> Option<u64>
    ensures { result ≡ seconds_in text.now }
{
    match text {
        [count @ .., b's'] => times(count, 1),
        [count @ .., b'm'] => times(count, 60),
        [count @ .., b'h'] => times(count, 3600),
        _ => times(text, 1),
    }
}
