//! Messages by DHCP: what is read of them, their clients, and the answers.
use crate::frames::{print_field, print_frame, print_result};
use cases::{Out, Played, octets_of, string_of};
use dhcp_frame::{Frame, read};
use play_log::place;
use pxe_vendor::{Client, Kind, Place, boot_reply, client};

fn print_client(client: &Client, out: &mut Out) {
    out.push(match client.kind {
        Kind::Discover => "discover",
        Kind::Request => "request",
    });
    out.push(if client.ipxe { " ipxe " } else { " " });
    out.push(client.arch.text());
    print_field("mac", &client.mac, out);
    if let Some(uuid) = &client.uuid {
        print_field("uuid", uuid, out);
    }
    if let Some(item) = &client.item {
        print_field("item", item, out);
    }
    if let Some(echo) = &client.echo97 {
        out.show(format_args!(" echo {}", echo.as_slice().len()));
    }
}

fn print_of_client(kind: &str, frame: &Frame<'_>, out: &mut Out) -> Played {
    let place = place(out.alloc())?;
    match &client(out.alloc(), frame) {
        Ok(client) if kind == "client" => print_client(client, out),
        Ok(client) => {
            let reply = boot_reply(out.alloc(), frame, client, &place);
            print_result!(out, reply, octets, out.hex(octets.as_slice()));
        }
        Err(cause) => out.fault(*cause as u8, *cause),
    }
    Ok(())
}

fn print_of(kind: &str, octets: &[u8], out: &mut Out) -> Played {
    match &read(octets) {
        Ok(frame) if kind == "frame" => print_frame(frame, out),
        Ok(frame) => print_of_client(kind, frame, out)?,
        Err(fault) => out.fault(*fault as u8, *fault),
    }
    Ok(())
}

/// A message's fields and options, its client, or the answer to it, by the kind `frame`, `client` or `reply`.
pub fn message(kind: &str, rest: &str, out: &mut Out) -> Played {
    let octets = octets_of(out.alloc(), rest)?;
    print_of(kind, octets.as_slice(), out)
}

/// The answer to each front of a message, from no octet to all: each length from which on it is another one.
pub fn cuts(rest: &str, out: &mut Out) -> Played {
    let octets = octets_of(out.alloc(), rest)?;
    let mut last = String::new(out.alloc());
    for length in 0..=octets.len() {
        let mut answer = Out::new(out.alloc());
        print_of("reply", octets.get(..length).unwrap_or(&[]), &mut answer)?;
        let answer = answer.into_text()?;
        if answer.as_str() != last.as_str() {
            out.show(format_args!("from {length} {answer}\n"));
            last = answer;
        }
    }
    Ok(())
}

/// The host of a place.
pub fn host(rest: &str, out: &mut Out) -> Played {
    let host = string_of(out.alloc(), rest)?;
    let place = Place::new(out.alloc(), [192, 0, 2, 1], [192, 0, 2, 2], host.as_str());
    print_result!(out, place, place, out.push(place.host()));
    Ok(())
}
