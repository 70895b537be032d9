//! The two notations of octets in cases.
use crate::fault::CaseFault;
use hex::{FromHex, FromHexError};
use std::alloc::{AllocError, Global};

fn push_often(octets: &mut Vec<u8>, count: u32, piece: &[u8]) -> Result<(), AllocError> {
    for _ in 0..count {
        octets.extend_from_slice(piece)?;
    }
    Ok(())
}

// The octet of two hexadecimal digits, and what stands after them.
fn hex_octet(text: &str) -> Result<(u8, &str), CaseFault> {
    let (digits, rest) = text.split_at_checked(2).ok_or(CaseFault::Form)?;
    let [octet] = <[u8; 1]>::from_hex(digits).map_err(|_| CaseFault::Form)?;
    Ok((octet, rest))
}

// The octet of an escape, and what stands after it.
fn escape(text: &str) -> Result<(u8, &str), CaseFault> {
    let rest = text.get(1..).ok_or(CaseFault::Form)?;
    match text.as_bytes().first() {
        Some(b'n') => Ok((b'\n', rest)),
        Some(b'r') => Ok((b'\r', rest)),
        Some(b't') => Ok((b'\t', rest)),
        Some(b'0') => Ok((0, rest)),
        Some(b'x') => hex_octet(rest),
        _ => Err(CaseFault::Form),
    }
}

// Adds the octets of a text without repetitions.
fn push_text(octets: &mut Vec<u8>, text: &str) -> Result<(), CaseFault> {
    let mut parts = text.split('\\');
    octets.extend_from_slice(parts.next().unwrap_or("").as_bytes())?;
    for part in parts {
        let (octet, rest) = escape(part)?;
        octets.push(octet)?;
        octets.extend_from_slice(rest.as_bytes())?;
    }
    Ok(())
}

// Adds a repetition, `N,..\)`, and what stands after it.
fn push_repetition(alloc: Global, octets: &mut Vec<u8>, text: &str) -> Result<(), CaseFault> {
    let (count, rest) = text.split_once(',').ok_or(CaseFault::Form)?;
    let count = count.parse::<u32>().map_err(|_| CaseFault::Form)?;
    let (repeated, rest) = rest.split_once("\\)").ok_or(CaseFault::Form)?;
    let mut piece = Vec::new(alloc);
    push_text(&mut piece, repeated)?;
    push_often(octets, count, piece.as_slice())?;
    push_text(octets, rest)
}

/// The octets of a text with the escapes `\n`, `\r`, `\t`, `\0` and `\xHH`, in which `\(N,..\)` repeats what stands in it N times.
pub fn text_of(alloc: Global, source: &str) -> Result<Vec<u8>, CaseFault> {
    let mut octets = Vec::new(alloc);
    let mut parts = source.split("\\(");
    push_text(&mut octets, parts.next().unwrap_or(""))?;
    for part in parts {
        push_repetition(alloc, &mut octets, part)?;
    }
    Ok(octets)
}

/// The characters of such a text.
pub fn string_of(alloc: Global, source: &str) -> Result<String, CaseFault> {
    String::from_utf8(text_of(alloc, source)?)
        .ok()
        .ok_or(CaseFault::Form)
}

// The octets of digits.
fn decoded(alloc: Global, digits: &str) -> Result<Vec<u8>, CaseFault> {
    match hex::decode(alloc, digits) {
        Ok(octets) => Ok(octets),
        Err(FromHexError::OutOfMemory) => Err(CaseFault::Memory),
        Err(_) => Err(CaseFault::Form),
    }
}

/// The octets of words of hexadecimal, in which `HH*N` is N times the same.
pub fn octets_of(alloc: Global, source: &str) -> Result<Vec<u8>, CaseFault> {
    let mut octets = Vec::new(alloc);
    for word in source.split_ascii_whitespace() {
        let (digits, count) = word.split_once('*').unwrap_or((word, "1"));
        let count = count.parse::<u32>().map_err(|_| CaseFault::Form)?;
        push_often(&mut octets, count, decoded(alloc, digits)?.as_slice())?;
    }
    Ok(octets)
}
