//! The input of a frame's run: Ethernet addresses, each on a line, an empty line, and one line of hexadecimal.
ghost use Rattle.std.specs.{Prelude.{◌≡◌, ◌≤◌, ◌<◌, ◌↔◌, ◌⊎◌, List, ℕ, None, Some, length, option_map, option_copied, map, position, ◌==◌, Contains, IsTrue, IfOk, IfErr, IfSome, IsErrOf, vec_len, suc}, Str.bytes_eq, List.slice_split};
ghost use Rattle.desk_operations.specs.{Prelude.IsFrameFault, FrameInput.{IsInput, Understood, hex_octets, only_line, understood, understood_lines}, Frame.{line_number, numbered}};

use hall_report::Fault;
use hall_types::Number;
use hex::FromHexError;
use std::alloc::{AllocError, Global};
use std::io::Read;
use std::marker::Model;

// The maximum number of octets in an input.
const MAX_OCTETS: usize = 65_536;

// The maximum number of reads, so that a reader that never ends ends in a fault.
const MAX_READS: u32 = 70_000;

/// Reads a reader to its end.
///
/// The errors are `BadInput` where there are more than 65,536 octets, `Io` where a read fails or the
/// end doesn't come after 70,000 reads, and `Memory`.
pub fn read_input<R: Read>(alloc: Global, reader: &mut R) -> Result<Vec<u8>, Fault>
    ensures all { IfOk result (λ input. IfSome (R.remaining reader.old) (λ octets. input.items ≡ octets)) }
    ensures room { IfOk result (λ input. vec_len input ≤ MAX_OCTETS) }
    ensures fault { IfErr result IsFrameFault }
    ensures too_long { IsErrOf result Fault.BadInput → IfSome (R.remaining reader.old) (λ octets. MAX_OCTETS < length octets) }
{
    let mut input = Vec::new(alloc);
    let mut buffer = [0u8; 4096];
    for _ in 0..MAX_READS {
        let Ok(count) = reader.read(&mut buffer) else {
            return Err(Fault::Io);
        };
        if count == 0 {
            return Ok(input);
        }
        if input.len() + count > MAX_OCTETS {
            return Err(Fault::BadInput);
        }
        if input.extend_from_slice(&buffer[..count]).is_err() {
            return Err(Fault::Memory);
        }
    }
    Err(Fault::Io)
}

/// The law of inputs: `understood` finds the addresses and the octets in an input, and an input has at
/// most one list of addresses and octets.
pub fn one_reading()
    ensures exact { (input : List ℕ) (u : Understood) → IsInput input u.addresses u.octets ↔ (understood input ≡ Some u) }
    ensures one { (input : List ℕ) (u v : Understood) → IsInput input u.addresses u.octets → IsInput input v.addresses v.octets → u ≡ v }
{}

// The texts between the line feeds.
fn lines_in(alloc: Global, text: &[u8]) -> Result<Vec<&[u8]>, AllocError>
    ensures { IfOk result (λ lines. map (λ line. line.now) lines.items ≡ slice_split (λ c. c == 10) text.now) }
{
    text.split(|c| *c == b'\n').collect(alloc)
}

// The only line, after which there may be a line feed.
#[tactic(auto, unfolding(crate::specs::FrameInput::only_line))]
fn only_line<'a>(lines: &[&'a [u8]]) -> Option<&'a [u8]>
    ensures { option_copied result ≡ only_line (map (λ line. line.now) lines.now) }
{
    match lines {
        [line] if !line.is_empty() => Some(line),
        [line, after] if after.is_empty() => Some(line),
        _ => None,
    }
}

// The octets of one line of hexadecimal. `None` means that the lines are no such line.
fn decode(alloc: Global, lines: &[&[u8]]) -> Result<Option<Vec<u8>>, AllocError>
    ensures { IfOk result (λ found. option_map (λ octets. octets.items) found ≡ hex_octets (map (λ line. line.now) lines.now)) }
{
    let Some(digits) = only_line(lines) else {
        return Ok(None);
    };
    match hex::decode(alloc, digits) {
        Ok(octets) => Ok(Some(octets)),
        Err(FromHexError::OutOfMemory) => Err(AllocError),
        Err(_) => Ok(None),
    }
}

/// An input that was parsed. Contracts see its addresses and its octets.
#[derive(Drop)]
pub struct Input {
    addresses: Vec<[u8; 6]>,
    octets: Vec<u8>,
}

impl Model for Input {
    ghost use Rattle.desk_operations.specs.FrameInput.{Understood};

    ghost Value = { Understood };

    ghost view = { λ i. record { addresses = i.addresses.items; octets = i.octets.items } };
}

#[tactic(auto, using(crate::proofs::FrameInputLemmas::parse_steps))]
fn parse_lines(alloc: Global, lines: &[&[u8]]) -> Result<Option<Input>, AllocError>
    ensures { IfOk result (λ found. found ≡ understood_lines (map (λ line. line.now) lines.now)) }
{
    let mut addresses = Vec::new(alloc);
    for at in 0..lines.len() {
        let line = lines[at];
        if line.is_empty() {
            let (_, rest) = lines.split_at(at + 1);
            let Some(octets) = decode(alloc, rest)? else {
                return Ok(None);
            };
            return Ok(Some(Input { addresses, octets }));
        }
        let Some(address) = pxe_vendor::read_mac(line) else {
            return Ok(None);
        };
        addresses.push(address)?;
    }
    Ok(None)
}

#[tactic(auto, unfolding(crate::specs::FrameInput::understood, crate::specs::FrameInput::lines_of))]
fn parse_inner(alloc: Global, input: &[u8]) -> Result<Option<Input>, AllocError>
    ensures { IfOk result (λ found. found ≡ understood input.now) }
{
    let lines = lines_in(alloc, input)?;
    parse_lines(alloc, &lines)
}

/// Parses an input. The errors are `BadInput` and `Memory`.
pub fn parse(alloc: Global, input: &[u8]) -> Result<Input, Fault>
    ensures input { IfOk result (λ found. understood input.now ≡ Some found) }
    ensures fault { IfErr result (λ fault. (fault ≡ Fault.Memory) ⊎ ((fault ≡ Fault.BadInput) × (understood input.now ≡ None))) }
{
    match parse_inner(alloc, input) {
        Ok(Some(input)) => Ok(input),
        Ok(None) => Err(Fault::BadInput),
        Err(AllocError) => Err(Fault::Memory),
    }
}

fn index_of(addresses: &[[u8; 6]], address: &[u8; 6]) -> Option<usize>
    ensures index { result ≡ position (λ one. bytes_eq one address.now) addresses.now }
    ensures inside { IfSome result (λ index. index < length addresses.now) }
{
    addresses.iter().position(|one| one == address)
}

// The number of the line with this index.
fn number_of(index: usize) -> Option<Number>
    ensures { result ≡ numbered (suc index) }
{
    let number = u64::try_from(index).ok()?.checked_add(1)?;
    Number::new(number).ok()
}

impl Input {
    /// The number of the first line with an address, counted from 1.
    pub fn line_of(&self, address: &[u8; 6]) -> Option<Number>
        ensures { result ≡ line_number self.now.addresses address.now }
    {
        number_of(index_of(&self.addresses, address)?)
    }

    /// The octets of the line of hexadecimal.
    pub fn octets(&self) -> &[u8]
        ensures { result.now ≡ self.now.octets }
    {
        self.octets.as_slice()
    }
}
