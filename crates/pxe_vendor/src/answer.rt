//! Writing the answer to a client.
ghost use Rattle.std.specs.Prelude.{◌≡◌, ◌≢◌, ◌<◌, ◌≤◌, ◌↔◌, ◌==◌, nat_lt, Err, [], All, IfOk, IsErrOf, length, take, unwrap_or};
ghost use Rattle.dhcp_frame.specs.{Area.Reads, Message.options_area, declared.reply.TheConstants.MAX_FILE_LEN, Reply.{entry_of, reply_octets, file_name, area_octets, reply_of}};
ghost use Rattle.pxe_vendor.specs.{BootFile.boot_file_of, Answer.{answer_to, answer_options, answer_type, answer_ciaddr, vendor_tags}};

use crate::clients::{Client, Kind};
use crate::file::boot_file;
use crate::numbers::{ACK, BOOT_ITEM, BOOT_ITEM_LEN, DISCOVERY_CONTROL, OFFER, USE_BOOT_FILE};
use crate::place::Place;
use dhcp_frame::option_codes::{
    END, MACHINE_IDENTIFIER, MESSAGE_TYPE, SERVER_IDENTIFIER, VENDOR_CLASS, VENDOR_OPTIONS,
};
use dhcp_frame::{DhcpOption, Frame, MAX_VALUE_LEN, ReplyFields, WriteFault, write};
use std::alloc::{AllocError, Global};

// The vendor options as octets, and how many octets they are: the client uses the boot file that the
// answer names, and gets back the boot item that it asked for.
fn vendor_area(item: Option<[u8; BOOT_ITEM_LEN]>) -> ([u8; 10], usize)
    ensures octets { take result.1 result.0 ≡ area_octets (vendor_tags item) }
    ensures length { result.1 ≤ 10 }
{
    match item {
        None => (
            [DISCOVERY_CONTROL, 1, USE_BOOT_FILE, END, 0, 0, 0, 0, 0, 0],
            4,
        ),
        Some(item) => {
            let mut area = [
                DISCOVERY_CONTROL,
                1,
                USE_BOOT_FILE,
                BOOT_ITEM,
                4,
                0,
                0,
                0,
                0,
                END,
            ];
            area[5..9].copy_from_slice(&item);
            (area, 10)
        }
    }
}

fn message_type(kind: Kind) -> u8
    ensures { result ≡ answer_type kind }
{
    match kind {
        Kind::Discover => OFFER,
        Kind::Request => ACK,
    }
}

fn ciaddr_to(frame: &Frame<'_>, kind: Kind) -> [u8; 4]
    ensures { result ≡ answer_ciaddr kind frame.now.ciaddr }
{
    match kind {
        Kind::Discover => [0; 4],
        Kind::Request => frame.ciaddr(),
    }
}

fn fields_to<'a>(
    frame: &Frame<'_>,
    client: &Client,
    place: &Place,
    file: &'a str,
) -> ReplyFields<'a>
    ensures { reply_of result [] ≡ record (answer_to frame.now client.now place.now file.now) { options = [] } }
{
    ReplyFields {
        xid: frame.xid(),
        flags: frame.flags(),
        ciaddr: ciaddr_to(frame, client.kind),
        siaddr: place.next(),
        giaddr: frame.giaddr(),
        chaddr: frame.chaddr(),
        file,
    }
}

fn dhcp_option(code: u8, value: &[u8]) -> DhcpOption<'_>
    ensures { entry_of result ≡ (code, value.now) }
{
    DhcpOption { code, value }
}

/// Writes the answer to a client with this boot file (PXE 2.1; RFC 2131 section 4.3): an OFFER to a
/// DISCOVER, an ACK to a REQUEST. The client is the one that sent the frame.
///
/// The errors are those of `dhcp_frame::write`. Only the machine identifier can be too long for an
/// option.
pub fn reply(
    alloc: Global,
    frame: &Frame<'_>,
    client: &Client,
    place: &Place,
    file: &str,
) -> Result<Vec<u8>, WriteFault>
    requires file { All (λ octet. octet ≢ 0) file.now }
    ensures octets { IfOk result (λ out. out.items ≡ reply_octets (answer_to frame.now client.now place.now file.now)) }
    // The client reads exactly these options, and this boot file.
    ensures options { IfOk result (λ out. Reads (options_area out.items) (answer_options client.now place.now)) }
    ensures boot_file { IfOk result (λ out. file_name out.items ≡ file.now) }
    ensures too_long { IsErrOf result WriteFault.TooLong ↔ (MAX_VALUE_LEN < length (unwrap_or client.now.echo97 [])) }
    ensures file_too_long { IsErrOf result WriteFault.FileTooLong
        ↔ ((length (unwrap_or client.now.echo97 []) ≤ MAX_VALUE_LEN) × (MAX_FILE_LEN < length file.now)) }
{
    let fields = fields_to(frame, client, place, file);
    let kind = [message_type(client.kind)];
    let server = place.server();
    let (area, length) = vendor_area(client.item);
    let kind = dhcp_option(MESSAGE_TYPE, &kind);
    let server = dhcp_option(SERVER_IDENTIFIER, &server);
    let class = dhcp_option(VENDOR_CLASS, b"PXEClient");
    let vendor = dhcp_option(VENDOR_OPTIONS, &area[..length]);
    match &client.echo97 {
        Some(identifier) => {
            let identifier = dhcp_option(MACHINE_IDENTIFIER, identifier.as_slice());
            write(alloc, &fields, &[kind, server, class, identifier, vendor])
        }
        None => write(alloc, &fields, &[kind, server, class, vendor]),
    }
}

// Whether an option can't hold the client's machine identifier.
fn has_long_identifier(client: &Client) -> bool
    ensures { result ≡ nat_lt MAX_VALUE_LEN (length (unwrap_or client.now.echo97 [])) }
{
    match &client.echo97 {
        Some(identifier) => identifier.as_slice().len() > MAX_VALUE_LEN,
        None => false,
    }
}

/// Writes the answer to a client, with the boot file for this client at this place: an OFFER to a
/// DISCOVER, an ACK to a REQUEST. The client is the one that sent the frame.
///
/// The errors are `TooLong`, where an option can't hold the machine identifier, and `Memory`.
pub fn boot_reply(
    alloc: Global,
    frame: &Frame<'_>,
    client: &Client,
    place: &Place,
) -> Result<Vec<u8>, WriteFault>
    ensures octets { IfOk result (λ out. out.items ≡ reply_octets (answer_to frame.now client.now place.now (boot_file_of client.now place.now))) }
    // The client reads exactly these options, and its boot file.
    ensures options { IfOk result (λ out. Reads (options_area out.items) (answer_options client.now place.now)) }
    ensures boot_file { IfOk result (λ out. file_name out.items ≡ boot_file_of client.now place.now) }
    ensures too_long { IsErrOf result WriteFault.TooLong ↔ (MAX_VALUE_LEN < length (unwrap_or client.now.echo97 [])) }
    // Each boot file fits.
    ensures file_fits { result ≢ Err WriteFault.FileTooLong }
{
    if has_long_identifier(client) {
        return Err(WriteFault::TooLong);
    }
    match boot_file(alloc, client, place) {
        Ok(file) => reply(alloc, frame, client, place, file.as_str()),
        Err(AllocError) => Err(WriteFault::Memory),
    }
}
