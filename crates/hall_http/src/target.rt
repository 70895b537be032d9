//! What the segments of a target mean.
ghost use Rattle.std.specs.Prelude.{◌≡◌, ◌≤◌, ◌<◌, ◌+◌, ◌==◌, IfOk, IfSome, length, drop, position};
ghost use Rattle.hall_http.specs.{Prelude.{number_of_text, octets_of_text}, Target.{slash_index, segment, is_coded_colon, begins_with_coded_colon, with_colons, address_of}};

use crate::slices::suffix;
use hall_types::{MacAddress, Number, Token};
use hex::FromHex;
use pxe_vendor::{numeral, read_mac};
use std::alloc::{AllocError, Global};

fn first_slash(octets: &[u8]) -> Option<usize>
    ensures place { result ≡ position (λ octet. octet == 47) octets.now }
    ensures within { IfSome result (λ at. at < length octets.now) }
{
    octets.iter().position(|octet| *octet == b'/')
}

// Where the first slash stands, or the end.
fn slash_index(octets: &[u8]) -> usize
    ensures place { result ≡ slash_index octets.now }
    ensures within { result ≤ length octets.now }
{
    first_slash(octets).unwrap_or(octets.len())
}

fn before_slash(octets: &[u8]) -> &[u8]
    ensures { result.now ≡ segment 0 octets.now }
{
    &octets[..slash_index(octets)]
}

fn after_slash(octets: &[u8]) -> &[u8]
    ensures { result.now ≡ drop (slash_index octets.now + 1) octets.now }
{
    let at = slash_index(octets);
    if at < octets.len() {
        &octets[at + 1..]
    } else {
        &[]
    }
}

/// What stands between the second slash and the third.
pub(crate) fn second_segment(target: &[u8]) -> &[u8]
    ensures { result.now ≡ segment 2 target.now }
{
    before_slash(after_slash(after_slash(target)))
}

/// What stands between the third slash and the fourth.
pub(crate) fn third_segment(target: &[u8]) -> &[u8]
    ensures { result.now ≡ segment 3 target.now }
{
    before_slash(after_slash(after_slash(after_slash(target))))
}

// Whether three octets are a percent-encoded colon.
fn is_coded_colon(percent: u8, high: u8, low: u8) -> bool
    ensures { result ≡ is_coded_colon percent high low }
{
    percent == b'%' && high == b'3' && (low == b'A' || low == b'a')
}

fn begins_with_coded_colon(text: &[u8]) -> bool
    ensures { result ≡ begins_with_coded_colon text.now }
{
    match text {
        [percent, high, low, ..] => is_coded_colon(*percent, *high, *low),
        _ => false,
    }
}

// The octets with a colon for each percent-encoded one.
fn with_colons(alloc: Global, text: &[u8]) -> Result<Vec<u8>, AllocError>
    ensures { IfOk result (λ octets. octets.items ≡ with_colons text.now) }
{
    let mut octets = Vec::with_capacity(alloc, text.len())?;
    let mut rest = text;
    while !rest.is_empty() {
        if begins_with_coded_colon(rest) {
            octets.push(b':')?;
            rest = suffix(rest, 3);
        } else {
            octets.push(rest[0])?;
            rest = suffix(rest, 1);
        }
    }
    Ok(octets)
}

/// The hardware address that a segment says; its colons may be percent-encoded.
pub(crate) fn address_of(alloc: Global, text: &[u8]) -> Result<Option<MacAddress>, AllocError>
    ensures { IfOk result (λ address. address ≡ address_of text.now) }
{
    let octets = with_colons(alloc, text)?;
    Ok(read_mac(octets.as_slice()).map(MacAddress::from))
}

/// The number that a segment says.
pub(crate) fn number_of(text: &[u8]) -> Option<Number>
    ensures { result ≡ number_of_text text.now }
{
    Number::new(numeral(text)?).ok()
}

/// The token of a boot that a segment says.
pub(crate) fn token_of(text: &[u8]) -> Option<Token>
    ensures { result ≡ octets_of_text 16 text.now }
{
    let octets = <[u8; 16] as FromHex>::from_hex(text).ok()?;
    Some(Token::from(octets))
}
