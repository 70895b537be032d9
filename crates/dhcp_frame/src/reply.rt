//! Writing a server's reply.
ghost use Rattle.std.specs.Prelude.{◌≡◌, ◌≢◌, ◌≤◌, ◌<◌, ◌+◌, ◌↔◌, ◌++◌, ℕ, List, map, length, drop, OnOk, IfOk, IsErrOf, MatchBool, All, Any};
ghost use Rattle.dhcp_frame.specs.{Area.Reads, Message.options_area, Reply.{reply_of, entry_of, option_octets, start_octets, address_octets, name_octets, header_octets, reply_octets, AreOptions, padded, area_octets, zeros, file_name}};

use crate::fault::WriteFault;
use crate::layout::{
    BOOT_REPLY, CIADDR, COOKIE, ETHERNET, ETHERNET_LEN, FILE, FLAGS, HLEN, HTYPE, MAGIC_COOKIE, OP,
    OPTIONS, SECS, SIADDR, SNAME, XID, YIADDR,
};
use crate::option_codes::END;
use byteorder::{BigEndian, ByteOrder};
use std::alloc::{AllocError, Global};

/// The fields of a reply that differ between replies (RFC 2131 section 2). Of the other fields, op is 2
/// (BOOTREPLY), htype 1 and hlen 6 (Ethernet), and hops, secs, yiaddr and sname are zeros.
#[derive(Clone, Copy)]
pub struct ReplyFields<'a> {
    pub xid: u32,
    pub flags: u16,
    pub ciaddr: [u8; 4],
    pub siaddr: [u8; 4],
    pub giaddr: [u8; 4],
    pub chaddr: [u8; 16],
    /// The boot file's name. Zeros fill up its field.
    pub file: &'a str,
}

/// An option of a reply (RFC 2132 section 2).
#[derive(Clone, Copy)]
pub struct DhcpOption<'a> {
    /// The option's code, 1 to 254.
    pub code: u8,
    pub value: &'a [u8],
}

/// The maximum number of octets in an option's value (RFC 2132 section 2).
pub const MAX_VALUE_LEN: usize = 255;

/// The maximum number of octets in a file's name: its field has one octet more, which ends the name
/// (RFC 2131 section 2).
pub const MAX_FILE_LEN: usize = 127;

// The minimum number of octets that a BOOTP client takes (RFC 1542 section 2.1).
const MIN_REPLY_LEN: usize = 300;

static ZEROS: [u8; MIN_REPLY_LEN] = [0; MIN_REPLY_LEN];

fn push_zeros(out: &mut Vec<u8>, count: usize) -> Result<(), AllocError>
    requires { count ≤ MIN_REPLY_LEN }
    ensures { OnOk result (out.new.items ≡ out.old.items ++ zeros count) }
{
    out.extend_from_slice(&ZEROS[..count])
}

fn push_numbers(out: &mut Vec<u8>, fields: &ReplyFields<'_>) -> Result<(), AllocError>
    ensures { OnOk result (out.new.items ≡ out.old.items ++ start_octets fields.now.xid fields.now.flags) }
{
    let mut start = [0; CIADDR];
    start[OP] = BOOT_REPLY;
    start[HTYPE] = ETHERNET;
    start[HLEN] = ETHERNET_LEN;
    BigEndian::write_u32(&mut start[XID..SECS], fields.xid);
    BigEndian::write_u16(&mut start[FLAGS..CIADDR], fields.flags);
    out.extend_from_slice(&start)
}

fn push_addresses(out: &mut Vec<u8>, fields: &ReplyFields<'_>) -> Result<(), AllocError>
    ensures length { OnOk result (length (address_octets fields.now.ciaddr fields.now.siaddr fields.now.giaddr fields.now.chaddr) ≡ 32) }
    ensures octets { OnOk result (out.new.items ≡ out.old.items ++ address_octets fields.now.ciaddr fields.now.siaddr fields.now.giaddr fields.now.chaddr) }
{
    out.extend_from_slice(&fields.ciaddr)?;
    push_zeros(out, SIADDR - YIADDR)?;
    out.extend_from_slice(&fields.siaddr)?;
    out.extend_from_slice(&fields.giaddr)?;
    out.extend_from_slice(&fields.chaddr)
}

fn push_names(out: &mut Vec<u8>, file: &str) -> Result<(), AllocError>
    requires { length file.now ≤ MAX_FILE_LEN }
    ensures { OnOk result (out.new.items ≡ out.old.items ++ name_octets file.now) }
{
    push_zeros(out, FILE - SNAME)?;
    out.extend_from_slice(file.as_bytes())?;
    push_zeros(out, COOKIE - FILE - file.len())?;
    out.extend_from_slice(&MAGIC_COOKIE)?;
    Ok(())
}

fn push_option(out: &mut Vec<u8>, option: &DhcpOption<'_>) -> Result<(), AllocError>
    requires { length option.now.value.now ≤ MAX_VALUE_LEN }
    ensures { OnOk result (out.new.items ≡ out.old.items ++ option_octets (entry_of option.now)) }
{
    out.push(option.code)?;
    out.push(option.value.len() as u8)?;
    out.extend_from_slice(option.value)
}

fn push_area(out: &mut Vec<u8>, options: &[DhcpOption<'_>]) -> Result<(), AllocError>
    requires { All (λ o. length o.value.now ≤ MAX_VALUE_LEN) options.now }
    ensures { OnOk result (out.new.items ≡ out.old.items ++ area_octets (map entry_of options.now)) }
{
    for option in options {
        push_option(out, option)?;
    }
    out.push(END)?;
    Ok(())
}

// The octets of a reply with these options, or the greatest number where they are more.
fn room_for(options: &[DhcpOption<'_>]) -> usize
    ensures { result < usize.MAX → MIN_REPLY_LEN ≤ result × OPTIONS + length (area_octets (map entry_of options.now)) ≤ result }
{
    let mut room = OPTIONS + 1;
    for option in options {
        room = room.saturating_add(option.value.len()).saturating_add(2);
    }
    room.max(MIN_REPLY_LEN)
}

#[tactic(auto, unfolding(crate::specs::Reply::reply_octets))]
fn write_inner(
    alloc: Global,
    fields: &ReplyFields<'_>,
    options: &[DhcpOption<'_>],
) -> Result<Vec<u8>, AllocError>
    requires codes { AreOptions (map entry_of options.now) }
    requires file { All (λ octet. octet ≢ 0) fields.now.file.now }
    requires room { length fields.now.file.now ≤ MAX_FILE_LEN }
    requires lengths { All (λ o. length o.value.now ≤ MAX_VALUE_LEN) options.now }
    ensures octets { IfOk result (λ out. out.items ≡ reply_octets (reply_of fields.now options.now)) }
    ensures options { IfOk result (λ out. Reads (options_area out.items) (map entry_of options.now)) }
    ensures file { IfOk result (λ out. file_name out.items ≡ fields.now.file.now) }
{
    let mut out = Vec::with_capacity(alloc, room_for(options))?;
    push_numbers(&mut out, fields)?;
    push_addresses(&mut out, fields)?;
    push_names(&mut out, fields.file)?;
    push_area(&mut out, options)?;
    let missing = MIN_REPLY_LEN.saturating_sub(out.len());
    push_zeros(&mut out, missing)?;
    Ok(out)
}

// Whether the value of an option has more octets than its length octet can hold.
fn has_long(options: &[DhcpOption<'_>]) -> bool
    ensures { MatchBool result (Any (λ o. MAX_VALUE_LEN < length o.value.now) options.now) (All (λ o. length o.value.now ≤ MAX_VALUE_LEN) options.now) }
{
    options
        .iter()
        .any(|option| option.value.len() > MAX_VALUE_LEN)
}

/// Writes a reply (RFC 2131 section 2): the fields, the cookie, each option in order, the end octet, and
/// zeros up to 300 octets. Its memory is taken at once.
///
/// The codes are 1 to 254 and the file has no zero octet: a client would read other options or another
/// file.
pub fn write(
    alloc: Global,
    fields: &ReplyFields<'_>,
    options: &[DhcpOption<'_>],
) -> Result<Vec<u8>, WriteFault>
    requires codes { AreOptions (map entry_of options.now) }
    requires file { All (λ octet. octet ≢ 0) fields.now.file.now }
    ensures octets { IfOk result (λ out. out.items ≡ reply_octets (reply_of fields.now options.now)) }
    // A client reads exactly these options from the options field, and this name from the file field.
    ensures options { IfOk result (λ out. Reads (options_area out.items) (map entry_of options.now)) }
    ensures file { IfOk result (λ out. file_name out.items ≡ fields.now.file.now) }
    ensures too_long { IsErrOf result WriteFault.TooLong ↔ Any (λ o. MAX_VALUE_LEN < length o.value.now) options.now }
    ensures file_too_long { IsErrOf result WriteFault.FileTooLong
        ↔ (All (λ o. length o.value.now ≤ MAX_VALUE_LEN) options.now × (MAX_FILE_LEN < length fields.now.file.now)) }
{
    if has_long(options) {
        return Err(WriteFault::TooLong);
    }
    if fields.file.len() > MAX_FILE_LEN {
        return Err(WriteFault::FileTooLong);
    }
    match write_inner(alloc, fields, options) {
        Ok(octets) => Ok(octets),
        Err(AllocError) => Err(WriteFault::Memory),
    }
}
