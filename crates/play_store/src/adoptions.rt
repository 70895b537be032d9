//! Running servers that are adopted.
use crate::hall::Hall;
use crate::reports::push_end;
use cases::{CaseFault, Out, Played, first, parsed};
use desk_adoption::{Adopted, Adopters, Server, adopt};
use hall_store::HallStore;
use hall_types::{Digest, Name, Number, Token};
use play_log::place;
use std::alloc::Global;

// The octets of a server's keys: its number, and zeros.
fn keys_of(machine: Number) -> Token {
    let mut octets = [0; 16];
    octets[..8].copy_from_slice(&machine.get().to_be_bytes());
    Token::from(octets)
}

fn servers(alloc: Global, words: &str, image: Name) -> Result<Vec<Server>, CaseFault> {
    let mut servers = Vec::new(alloc);
    for word in words.split(' ') {
        let machine: Number = parsed(word)?;
        servers.push(Server {
            machine,
            image,
            keys: keys_of(machine),
            token: Token::from([9; 16]),
        })?;
    }
    Ok(servers)
}

fn admin(word: &str) -> Result<Option<Digest>, CaseFault> {
    if word == "-" {
        return Ok(None);
    }
    Ok(Some(parsed(word)?))
}

fn adopters(owner: &str, power: &str, by: &str) -> Result<Adopters, CaseFault> {
    Ok(Adopters {
        owner: parsed(owner)?,
        power: parsed(power)?,
        admin: admin(by)?,
    })
}

impl<S: HallStore + Drop> Hall<S> {
    /// Adopts servers, `MOMENT OWNER POWER ADMIN IMAGE MACHINE ..`, by three digests of tokens, `-` for no admin's, and prints what is printed for
    /// them.
    pub(crate) fn adopt(&mut self, words: &str, out: &mut Out) -> Played {
        let alloc = out.alloc();
        let (at, rest) = first(words);
        let (owner, rest) = first(rest);
        let (power, rest) = first(rest);
        let (by, rest) = first(rest);
        let (image, machines) = first(rest);
        let by = adopters(owner, power, by)?;
        let servers = servers(alloc, machines, parsed(image)?)?;
        let (place, moment) = (place(alloc)?, parsed(at)?);
        let (mut octets, store) = (Vec::new(alloc), self.take()?);
        let (end, store) = adopt(alloc, store, &place, &mut octets, &by, &servers, moment);
        self.put_back(store);
        out.push(std::str::from_utf8(octets.as_slice()).unwrap_or("no text"));
        match end {
            Ok(Adopted::All) => out.push("all are adopted"),
            Ok(Adopted::NotAll) => out.push("not all are adopted"),
            Err(fault) => push_end(out, Err(fault))?,
        }
        Ok(())
    }
}
