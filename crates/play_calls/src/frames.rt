//! Hardware addresses, frames and their options, and frames that are written.
ghost use Rattle.std.specs.Prelude.{◌≡◌, ◌≢◌, All, IsTrue};

use cases::{CaseFault, Out, Played, halves, octets_of, string_of, text_of};
use dhcp_frame::{DhcpOption, Frame, JoinedValue, OptionIter, ReplyFields, read, write};
use std::alloc::AllocError;

// Prints what a call gives, or its fault by number and name.
macro_rules! print_result {
    ($out:ident, $result:expr, $value:ident, $print:expr) => {
        match &$result {
            Ok($value) => $print,
            Err(fault) => $out.fault(*fault as u8, *fault),
        }
    };
}

pub(crate) use print_result;

/// The hardware address of a text.
pub fn address(rest: &str, out: &mut Out) -> Played {
    let text = text_of(out.alloc(), rest)?;
    match pxe_vendor::read_mac(text.as_slice()) {
        Some(address) => out.push(pxe_vendor::print_mac(out.alloc(), &address)?.as_str()),
        None => out.push("none"),
    }
    Ok(())
}

fn print_found(found: Option<&[u8]>, out: &mut Out) {
    match found {
        Some(octets) => out.hex(octets),
        None => out.push("none"),
    }
}

fn print_options(options: OptionIter<'_>, out: &mut Out) {
    out.push("options");
    for (code, value) in options {
        out.show(format_args!(" {code}:"));
        out.hex(value);
    }
}

/// Prints a field of a frame with its name.
pub(crate) fn print_field(name: &str, octets: &[u8], out: &mut Out) {
    out.show(format_args!(" {name} "));
    out.hex(octets);
}

/// Prints the fields and the options of a frame.
pub(crate) fn print_frame(frame: &Frame<'_>, out: &mut Out) {
    out.show(format_args!("xid {:08x} flags {:04x}", frame.xid(), frame.flags()));
    print_field("ciaddr", &frame.ciaddr(), out);
    print_field("giaddr", &frame.giaddr(), out);
    print_field("chaddr", &frame.chaddr(), out);
    print_field("mac", &frame.mac(), out);
    out.push("\n");
    print_options(frame.options(), out);
}

fn print_value(frame: &Frame<'_>, code: u8, out: &mut Out) -> Result<(), AllocError> {
    let value = frame.value(out.alloc(), code)?;
    print_found(value.as_ref().map(|value| value.as_slice()), out);
    Ok(())
}

/// The joined value of an option of a frame.
pub fn value(rest: &str, out: &mut Out) -> Played {
    let (code, rest) = halves(rest, " ")?;
    let code = code.parse::<u8>().map_err(|_| CaseFault::Form)?;
    let octets = octets_of(out.alloc(), rest)?;
    let frame = read(octets.as_slice());
    print_result!(out, frame, frame, print_value(frame, code, out)?);
    Ok(())
}

// The values of an area's options, joined one by one: as they are borrowed, and in memory of their own.
fn print_joined(area: OptionIter<'_>, out: &mut Out) -> Result<(), AllocError> {
    let mut joined = JoinedValue::new();
    for (_, value) in area {
        joined.push(out.alloc(), value)?;
    }
    print_found(joined.as_slice(), out);
    out.push(" ");
    let owned = joined.into_vec(out.alloc())?;
    print_found(owned.as_ref().map(|value| value.as_slice()), out);
    Ok(())
}

/// The options of an option area, or by the kind `joined` their values, joined.
pub fn area(kind: &str, rest: &str, out: &mut Out) -> Played {
    let octets = octets_of(out.alloc(), rest)?;
    match OptionIter::over(octets.as_slice()) {
        Some(options) if kind == "joined" => print_joined(options, out)?,
        Some(options) => print_options(options, out),
        None => out.push("cut"),
    }
    Ok(())
}

fn has_no_zero(text: &str) -> bool
    ensures { IsTrue result → All (λ octet. octet ≢ 0) text.now }
{
    text.as_bytes().iter().all(|octet| *octet != 0)
}

fn print_written(file: &str, value: &[u8], out: &mut Out)
    requires { All (λ octet. octet ≢ 0) file.now }
{
    let fields = ReplyFields {
        xid: 0x11223344,
        flags: 0x8000,
        ciaddr: [0; 4],
        siaddr: [192, 0, 2, 2],
        giaddr: [0; 4],
        chaddr: [
            0x52, 0x54, 0, 0x12, 0x34, 0x56, 0, 0, 0, 0, 0, 0, 0, 0, 0, 0,
        ],
        file,
    };
    let written = write(out.alloc(), &fields, &[DhcpOption { code: 60, value }]);
    print_result!(out, written, octets, out.hex(octets.as_slice()));
}

/// A reply with this file and this option 60, `FILE OCTETS`.
pub fn written(rest: &str, out: &mut Out) -> Played {
    let (file, value) = halves(rest, " ")?;
    let file = string_of(out.alloc(), file)?;
    let value = octets_of(out.alloc(), value)?;
    if !has_no_zero(file.as_str()) {
        return Err(CaseFault::Form);
    }
    print_written(file.as_str(), value.as_slice(), out);
    Ok(())
}
