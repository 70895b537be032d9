//! Reading and printing a hardware address of six octets.
ghost use Rattle.std.specs.Prelude.{◌≡◌, ◌↔◌, ◌++◌, ◌∷◌, [], ℕ, List, Some, IfSome, IfOk, OnOk, string_bytes};
ghost use Rattle.hex.specs.Hex.{encode_lower};
ghost use Rattle.pxe_vendor.specs.MacText.{IsMacText, mac_of, mac_text, octet_of};

use hex::FromHex;
use std::alloc::{AllocError, Global};

/// The law of hardware addresses: a text is an address if and only if `mac_of` finds octets in it,
/// and then it is the address of these octets and of no others.
pub fn one_mac_text()
    ensures exact { (text octets : List ℕ) → IsMacText text octets ↔ (mac_of text ≡ Some octets) }
{}

// The octets of an address.
const ADDRESS_LEN: usize = 6;

// The characters of an address: two digits an octet, and a colon between each two octets.
const TEXT_LEN: usize = 17;

const COLON: u8 = b':';

#[tactic(auto, using(crate::proofs::DigitLemmas::octet_steps))]
fn octet(high: u8, low: u8) -> Option<u8>
    ensures { result ≡ octet_of high low }
{
    let [octet] = <[u8; 1]>::from_hex([high, low]).ok()?;
    Some(octet)
}

#[tactic(auto, using(crate::proofs::MacLemmas::mac_steps))]
fn read_inner(text: &[u8]) -> Option<[u8; ADDRESS_LEN]>
    ensures { result ≡ mac_of text.now }
{
    if text.len() != TEXT_LEN {
        return None;
    }
    let mut address = [0; ADDRESS_LEN];
    address[0] = octet(text[0], text[1])?;
    for i in 1..ADDRESS_LEN {
        if text[3 * i - 1] != COLON {
            return None;
        }
        address[i] = octet(text[3 * i], text[3 * i + 1])?;
    }
    Some(address)
}

/// Reads a hardware address, as in `52:54:00:12:34:56`, with its digits in either case. `None` means
/// that the text is no such address. It takes no memory.
pub fn read_mac(text: &[u8]) -> Option<[u8; 6]>
    // What is read is the address in the text.
    ensures address { IfSome result (λ octets. IsMacText text.now octets) }
    // Each address is read.
    ensures only { (octets : List ℕ) → IsMacText text.now octets → result ≡ Some octets }
    ensures exact { result ≡ mac_of text.now }
{
    read_inner(text)
}

// One octet, as two digits in lower case.
fn push_octet(text: &mut String, octet: u8) -> Result<(), AllocError>
    ensures { OnOk result (string_bytes text.new ≡ string_bytes text.old ++ encode_lower (octet ∷ [])) }
{
    let mut digits = [0; 2];
    let Ok(()) = hex::encode_to_slice([octet], &mut digits) else {
        unreachable!()
    };
    text.push(char::from(digits[0]))?;
    text.push(char::from(digits[1]))?;
    Ok(())
}

/// Writes a hardware address after a text, as in `52:54:00:12:34:56`, with its digits in lower case. It takes
/// no memory but the text's own.
#[tactic(auto, using(crate::proofs::MacLemmas::print_steps))]
pub fn push_mac(text: &mut String, address: &[u8; 6]) -> Result<(), AllocError>
    ensures { OnOk result (string_bytes text.new ≡ string_bytes text.old ++ mac_text address.now) }
{
    for (i, octet) in address.iter().enumerate() {
        if i > 0 {
            text.push(char::from(COLON))?;
        }
        push_octet(text, *octet)?;
    }
    Ok(())
}

/// Prints a hardware address, as in `52:54:00:12:34:56`, with its digits in lower case.
///
/// The only error is that memory ran out.
pub fn print_mac(alloc: Global, address: &[u8; 6]) -> Result<String, AllocError>
    ensures text { IfOk result (λ text. string_bytes text ≡ mac_text address.now) }
    // What is printed is read as the same address.
    ensures read { IfOk result (λ text. IsMacText (string_bytes text) address.now) }
{
    let mut text = String::with_capacity(alloc, TEXT_LEN)?;
    push_mac(&mut text, address)?;
    Ok(text)
}
