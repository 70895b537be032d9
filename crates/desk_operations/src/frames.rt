//! Reading the frame of one client, and writing the answer to it.
ghost use Rattle.std.specs.{Prelude.{◌≡◌, ◌≢◌, ◌≤◌, ◌⊎◌, ◌++◌, ◌∷◌, [], List, ℕ, IsTrue, IsErrOf, IfErr, IfOk, IfSome, MatchOption, string_bytes, length, unwrap_or}, Io.KnownBytes.Appends};
ghost use Rattle.desk_operations.specs.{Prelude.{encode_lower, MAX_VALUE_LEN}, declared.frame_input.TheConstants.MAX_OCTETS, Frame.{is_served, line_view, IsReply, IsAnswer, IsIgnored, IsBad, IsFrameEnd}};

use crate::frame_input::{Input, parse, read_input};
use boot_desk::{Decision, FrameView, frame};
use dhcp_frame::{WriteFault, read};
use hall_report::Fault;
use hall_types::{LastIssued, Numbers, Port};
use pxe_vendor::{Client, NotServed, Place, boot_reply, client};
use std::alloc::{AllocError, Global};
use std::io::{Read, Write};

/// How a run ended.
#[derive(Clone, Copy, PartialEq, Eq)]
pub enum Exit {
    /// The answer was written.
    Done,
    Fault(Fault),
    /// A row of an import was refused, and its line says so.
    NotAll,
    /// There is no answer to the frame.
    Silence,
}

impl Exit {
    ghost use Rattle.desk_operations.specs.Frame.{status_of};

    /// The program's exit status.
    pub fn status(self) -> u8
        ensures { result ≡ status_of self }
    {
        match self {
            Exit::Done => 0,
            Exit::Fault(_) | Exit::NotAll => 1,
            Exit::Silence => 3,
        }
    }
}

// What is known of a client: a listed address is that of a machine without a UUID, which has the line's number.
fn line_view(input: &Input, client: &Client) -> FrameView
    ensures { result ≡ line_view input.now.addresses client.now.mac }
{
    FrameView {
        by_mac: input.line_of(&client.mac),
        by_uuid: None,
        machines: 0,
        numbers: Numbers {
            machine: LastIssued::NONE,
            boot: LastIssued::NONE,
            order: LastIssued::NONE,
        },
    }
}

// Whether a client is answered: no client is enlisted here.
fn is_served(input: &Input, port: Port, client: &Client) -> bool
    ensures served { result ≡ is_served input.now.addresses port client.now }
    ensures short { IsTrue result → length (unwrap_or client.now.echo97 []) ≤ MAX_VALUE_LEN }
{
    let view = line_view(input, client);
    match frame(&view, port, client) {
        Decision::Loader | Decision::ScriptUrl => true,
        Decision::Enlist | Decision::Silent(_) => false,
    }
}

// The answer to the frame in an input, if there is one.
fn reply(
    alloc: Global,
    input: &Input,
    port: Port,
    place: &Place,
) -> Result<Option<Vec<u8>>, AllocError>
    ensures { IfOk result (λ found. MatchOption found
        ((reply : List ℕ) → IsReply place.now port input.now.addresses input.now.octets reply → ⊥)
        (λ reply. IsReply place.now port input.now.addresses input.now.octets reply.items)) }
{
    let frame = match read(input.octets()) {
        Ok(frame) => frame,
        Err(_) => return Ok(None),
    };
    let client = match client(alloc, &frame) {
        Ok(client) => client,
        Err(cause) => match cause {
            NotServed::Memory => return Err(AllocError),
            _ => return Ok(None),
        },
    };
    if !is_served(input, port, &client) {
        return Ok(None);
    }
    match boot_reply(alloc, &frame, &client, place) {
        Ok(reply) => Ok(Some(reply)),
        Err(WriteFault::Memory) => Err(AllocError),
        Err(_) => unreachable!(),
    }
}

// Octets in hexadecimal, and a line feed.
fn hex_line(alloc: Global, octets: &[u8]) -> Result<String, AllocError>
    ensures { IfOk result (λ text. string_bytes text ≡ encode_lower octets.now ++ 10 ∷ []) }
{
    let mut text = hex::encode(alloc, octets)?;
    text.push('\n')?;
    Ok(text)
}

// The answer to an input, or why there is none.
fn answer(alloc: Global, input: &[u8], port: Port, place: &Place) -> Result<String, Exit>
    requires { length input.now ≤ MAX_OCTETS }
    ensures answer { IfOk result (λ text. IsAnswer place.now port input.now (string_bytes text)) }
    ensures silence { IsErrOf result Exit.Silence → IsIgnored place.now port input.now }
    ensures bad { result ≡ Err (Exit.Fault Fault.BadInput) → IsBad input.now }
    ensures end { IfErr result IsFrameEnd }
    ensures no_io { IfErr result (λ exit. (exit ≢ Exit.Done) × (exit ≢ Exit.Fault Fault.Io)) }
{
    let input = match parse(alloc, input) {
        Ok(input) => input,
        Err(fault) => return Err(Exit::Fault(fault)),
    };
    let reply = match reply(alloc, &input, port, place) {
        Ok(Some(reply)) => reply,
        Ok(None) => return Err(Exit::Silence),
        Err(AllocError) => return Err(Exit::Fault(Fault::Memory)),
    };
    match hex_line(alloc, &reply) {
        Ok(text) => Ok(text),
        Err(AllocError) => Err(Exit::Fault(Fault::Memory)),
    }
}

/// Reads addresses and a frame in hexadecimal to the end of the input, and answers the frame as one that came to
/// the port. A listed address is that of a known machine; an unknown client isn't enlisted, it gets silence. The answer
/// is written in lower-case hexadecimal with a line feed.
///
/// A read or a write that fails is `Io`, and so is an input that doesn't end after 70,000 reads.
pub fn frame_run<R: Read, W: Write>(
    alloc: Global,
    reader: &mut R,
    writer: &mut W,
    port: Port,
    place: &Place,
) -> Exit
    ensures end { IsFrameEnd result }
    // What was written is the answer to the frame that was read.
    ensures done { result ≡ Exit.Done → IfSome (R.remaining reader.old) (λ input. (text : List ℕ)
        × IsAnswer place.now port input text × Appends (W.contents writer.old) (W.contents writer.new) text) }
    // No good input is refused.
    ensures silence { result ≡ Exit.Silence → IfSome (R.remaining reader.old) (IsIgnored place.now port) }
    ensures bad_input { result ≡ Exit.Fault Fault.BadInput → IfSome (R.remaining reader.old) IsBad }
    ensures nothing { (result ≡ Exit.Silence) ⊎ (result ≡ Exit.Fault Fault.BadInput) → writer.new ≡ writer.old }
{
    let input = match read_input(alloc, reader) {
        Ok(input) => input,
        Err(fault) => return Exit::Fault(fault),
    };
    let text = match answer(alloc, &input, port, place) {
        Ok(text) => text,
        Err(exit) => return exit,
    };
    match writer.write_all(text.as_bytes()) {
        Ok(()) => Exit::Done,
        Err(_) => Exit::Fault(Fault::Io),
    }
}
