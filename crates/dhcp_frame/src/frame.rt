//! A client's frame, read from its octets.
ghost use Rattle.std.specs.Prelude.{◌≡◌, ◌≤◌, None, Some, Ok, Err, IsOk, IfOk, MatchResult, option_map, length, take};
ghost use Rattle.dhcp_frame.specs.{Area.{value_of, entries_of, IsWhole}, Message.{Message, IsFrame}, Understood.{has_cookie, header, options_if, understood}};

use crate::area::{OptionIter, is_whole};
use crate::fault::FrameFault;
use crate::joined::JoinedValue;
use crate::layout::{
    BOOT_REQUEST, CHADDR, CIADDR, COOKIE, ETHERNET, ETHERNET_LEN, FILE, FLAGS, GIADDR, HLEN, HTYPE,
    MAGIC_COOKIE, OP, OPTIONS, SECS, SNAME, XID, YIADDR,
};
use crate::overload::overload_in;
use byteorder::{BigEndian, ByteOrder};
use std::alloc::{AllocError, Global};
use std::marker::Model;

/// A client's DHCP message over Ethernet (RFC 2131 section 2), borrowed from its octets. Contracts see
/// the message: its fields, and its options in order.
#[derive(Drop)]
pub struct Frame<'a> {
    octets: &'a [u8],
    options: &'a [u8],
    // The file field and the server name field, empty where they hold no options.
    file: &'a [u8],
    sname: &'a [u8],
}

impl<'a> Model for Frame<'a> {
    ghost use Rattle.std.specs.Prelude.{◌++◌, ◌≤◌, length};
    ghost use Rattle.dhcp_frame.specs.{Area.{entries_of, AreWhole}, Message.{Message, message_of}, declared.layout.TheConstants.OPTIONS};

    ghost Value = { Message };

    ghost view = { λ f. message_of f.octets.now (entries_of f.options.now ++ entries_of f.file.now ++ entries_of f.sname.now) };

    ghost invariant = { λ f. (OPTIONS ≤ length f.octets.now) × AreWhole f.options.now f.file.now f.sname.now };
}

// Whether the options field begins with the cookie.
#[tactic(auto, unfolding(crate::specs::Understood::has_cookie))]
fn has_cookie(octets: &[u8]) -> bool
    requires { OPTIONS ≤ length octets.now }
    ensures { result ≡ has_cookie octets.now }
{
    let cookie = &octets[COOKIE..OPTIONS];
    cookie == MAGIC_COOKIE.as_slice()
}

#[tactic(auto, unfolding(crate::specs::Understood::header))]
fn check_header(octets: &[u8]) -> Result<(), FrameFault>
    ensures exact { result ≡ header octets.now }
    ensures long { IsOk result → OPTIONS ≤ length octets.now }
{
    if octets.len() < OPTIONS {
        return Err(FrameFault::Short);
    }
    if octets[OP] != BOOT_REQUEST {
        return Err(FrameFault::NotRequest);
    }
    if octets[HTYPE] != ETHERNET || octets[HLEN] != ETHERNET_LEN {
        return Err(FrameFault::NotEthernet);
    }
    if !has_cookie(octets) {
        return Err(FrameFault::NoCookie);
    }
    Ok(())
}

// An area if it is in use, else an empty area.
#[tactic(auto, using(crate::proofs::AreaLemmas::whole_steps))]
fn area_if(used: bool, area: &[u8]) -> Result<&[u8], FrameFault>
    ensures whole { IfOk result (λ area. IsWhole area.now) }
    ensures options { MatchResult result (λ it. options_if used area.now ≡ Ok (entries_of it.now)) (λ fault. options_if used area.now ≡ Err fault) }
{
    if !used {
        return Ok(&[]);
    }
    if !is_whole(area) {
        return Err(FrameFault::CutOption);
    }
    Ok(area)
}

#[tactic(auto, unfolding(crate::specs::Understood::understood))]
fn read_inner(octets: &[u8]) -> Result<Frame<'_>, FrameFault>
    ensures { result ≡ understood octets.now }
{
    check_header(octets)?;
    let (_, options) = octets.split_at(OPTIONS);
    let options = area_if(true, options)?;
    let Some(overload) = overload_in(options) else {
        return Err(FrameFault::BadOverload);
    };
    let file = area_if(overload.file, &octets[FILE..COOKIE])?;
    let sname = area_if(overload.sname, &octets[SNAME..FILE])?;
    Ok(Frame {
        octets,
        options,
        file,
        sname,
    })
}

/// Reads a client's frame from the octets of a datagram (RFC 2131 section 2). An error is the first
/// fault. It takes no memory.
pub fn read(octets: &[u8]) -> Result<Frame<'_>, FrameFault>
    // What is read is the message that the frame carries.
    ensures frame { IfOk result (λ message. IsFrame octets.now message) }
    // Each frame is read.
    ensures only { (message : Message) → IsFrame octets.now message → result ≡ Ok message }
    // A fault is the first in the order.
    ensures exact { result ≡ understood octets.now }
{
    read_inner(octets)
}

impl<'a> Frame<'a> {
    /// The options in order, each with its code and its value.
    pub fn options(&self) -> OptionIter<'a>
        ensures { result ≡ self.now.entries }
    {
        OptionIter::new(self.options, self.file, self.sname)
    }

    /// The values of the options with this code, joined in order (RFC 3396 section 5). `None` means
    /// that no option has this code, and the only error is that memory ran out.
    #[tactic(auto, using(crate::proofs::ValueLemmas::value_steps))]
    pub fn value(&self, alloc: Global, code: u8) -> Result<Option<Vec<u8>>, AllocError>
        ensures { IfOk result (λ found. option_map (λ octets. octets.items) found ≡ value_of code self.now.entries) }
    {
        let mut joined = JoinedValue::new();
        for (other, value) in self.options() {
            if other == code {
                joined.push(alloc, value)?;
            }
        }
        joined.into_vec(alloc)
    }

    /// The transaction's identifier.
    pub fn xid(&self) -> u32
        ensures { result ≡ self.now.xid }
    {
        BigEndian::read_u32(&self.octets[XID..SECS])
    }

    /// The flags. The highest bit asks for a broadcast.
    pub fn flags(&self) -> u16
        ensures { result ≡ self.now.flags }
    {
        BigEndian::read_u16(&self.octets[FLAGS..CIADDR])
    }

    /// The client's IP address, zeros where it has none.
    pub fn ciaddr(&self) -> [u8; 4]
        ensures { result ≡ self.now.ciaddr }
    {
        let mut address = [0; 4];
        address.copy_from_slice(&self.octets[CIADDR..YIADDR]);
        address
    }

    /// The relay agent's IP address, zeros where there is none.
    pub fn giaddr(&self) -> [u8; 4]
        ensures { result ≡ self.now.giaddr }
    {
        let mut address = [0; 4];
        address.copy_from_slice(&self.octets[GIADDR..CHADDR]);
        address
    }

    /// The client's hardware address, filled up to 16 octets.
    pub fn chaddr(&self) -> [u8; 16]
        ensures { result ≡ self.now.chaddr }
    {
        let mut address = [0; 16];
        address.copy_from_slice(&self.octets[CHADDR..SNAME]);
        address
    }

    /// The client's Ethernet address, the first six octets of `chaddr`.
    pub fn mac(&self) -> [u8; 6]
        ensures { result ≡ take 6 self.now.chaddr }
    {
        let mut address = [0; 6];
        let chaddr = self.chaddr();
        address.copy_from_slice(&chaddr[..6]);
        address
    }
}
