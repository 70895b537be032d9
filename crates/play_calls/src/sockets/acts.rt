//! The acts of cases.
use super::client::Client;
use super::stage::Stage;
use cases::{CaseFault, Out, Played, first, number, parsed, text_of};
use hall_desk::{Answer, Input};
use hall_store::GroupStore;
use hall_types::Port;
use play_log::{push_answer, push_response};
use pxe_vendor::Octets;
use std::io::ErrorKind;

// From so many octets on they aren't written out.
const MANY: usize = 2_000;

// FNV-1a with 64 bits.
fn sum(octets: &[u8]) -> u64 {
    let mut sum = 0xcbf2_9ce4_8422_2325u64;
    for octet in octets {
        sum = (sum ^ u64::from(*octet)).wrapping_mul(0x0100_0000_01b3);
    }
    sum
}

// Prints how a connection is, and what came from it.
fn push_state(out: &mut Out, state: &str, octets: Vec<u8>) -> Played {
    out.push(state);
    let count = octets.len();
    if count >= MANY {
        let sum = sum(octets.as_slice());
        out.show(format_args!(" {count} octets, sum {sum:016x}"));
    } else if count > 0 {
        out.push(" ");
        push_response(out, octets.as_slice())?;
    }
    Ok(())
}

impl<'a, S: GroupStore + Drop> Stage<'a, S> {
    // So many clients of a name connect.
    fn connect(&mut self, name: &str, count: u64) -> Played {
        let service = self.service.sockets().http_address()?;
        for _ in 0..count {
            let client = Client::connect(self.rt, name, service)?;
            self.clients.push(client)?;
        }
        Ok(())
    }

    // The octets of a request.
    fn request(&mut self, words: &str) -> Result<Vec<u8>, CaseFault> {
        match &self.arrive(words)? {
            Input::Request(request) => Ok(Vec::from_slice(self.rt.alloc(), request.octets())?),
            _ => Err(CaseFault::Form),
        }
    }

    // Each client of a name sends octets.
    fn send_all(&mut self, name: &str, octets: &[u8]) -> Played {
        for client in self.clients.iter_mut() {
            if client.name.as_str() == name {
                client.send(octets)?;
            }
        }
        Ok(())
    }

    // By an act of this kind a client sends a text or a request, or each client of a name does.
    fn send(&mut self, kind: &str, name: &str, words: &str) -> Played {
        let octets = match kind {
            "send" | "send_all" => text_of(self.rt.alloc(), words)?,
            _ => self.request(words)?,
        };
        match kind {
            "send" | "ask" => self.client(name)?.send(octets.as_slice()),
            _ => self.send_all(name, octets.as_slice()),
        }
    }

    // A client sends a request octet by octet, and looks before each whether something came back.
    fn trickle(&mut self, name: &str, words: &str, out: &mut Out) -> Played {
        let octets = self.request(words)?;
        let mut early = Vec::new(self.rt.alloc());
        for octet in octets.as_slice() {
            let client = self.client(name)?;
            client.take(&mut early)?;
            client.send(&[*octet])?;
            let _ = self.turns(2);
        }
        let (count, early) = (octets.as_slice().len(), early.len());
        out.show(format_args!("{count} octets, {early} came back before the last"));
        Ok(())
    }

    // Prints how a client's connection is, and what came from it: by `got` now, by `drain` after turns.
    fn push_got(&mut self, kind: &str, name: &str, out: &mut Out) -> Played {
        let mut octets = Vec::new(self.rt.alloc());
        let state = match kind {
            "got" => self.client(name)?.take(&mut octets)?,
            _ => self.drain(name, &mut octets)?,
        };
        push_state(out, state, octets)
    }

    // Another client is served.
    fn serve_another(&mut self, words: &str, out: &mut Out) -> Played {
        self.connect("another", 1)?;
        self.send("ask", "another", words)?;
        self.push_got("drain", "another", out)
    }

    // The asker sends a datagram so many times.
    fn send_datagrams(&mut self, count: u64, words: &str) -> Played {
        self.asked = self.arrive(words)?;
        let Input::Datagram { port, octets } = &self.asked else {
            return Err(CaseFault::Form);
        };
        let target = match port {
            Port::Discover => self.service.sockets().discover_address()?,
            Port::Boot => self.service.sockets().boot_address()?,
        };
        for _ in 0..count {
            self.asker.send_to(octets.as_slice(), target)?;
        }
        Ok(())
    }

    // Prints the next datagram that came back.
    fn push_reply(&self, out: &mut Out) -> Played {
        let mut buffer = [0; 1_024];
        let answer = match self.asker.recv_from(&mut buffer) {
            Ok((count, _)) => {
                let octets = Vec::from_slice(self.rt.alloc(), &buffer[..count])?;
                Answer::Frame(Octets::from(octets))
            }
            Err(error) if error.kind() == ErrorKind::WouldBlock => Answer::Silence,
            Err(_) => return Err(CaseFault::Io),
        };
        push_answer(out, &self.asked, &answer)
    }

    // Prints the log's lines about a client, or about quiet moments, which come from `-`.
    fn push_log(&mut self, name: &str, out: &mut Out) -> Played {
        let address = match name {
            "-" => String::from_str(self.rt.alloc(), name)?,
            _ => self.client(name)?.address.clone()?,
        };
        self.log
            .push_about(out, address.as_str(), self.clients.as_slice());
        Ok(())
    }

    // Serves turns. Prints how many there were and how many are left, and by `rests` of how many could wait.
    fn push_turns(&mut self, kind: &str, count: u64, out: &mut Out) {
        let (turns, pauses) = (self.log.turns, self.clock.pauses);
        let left = self.turns(count);
        out.show(format_args!("{} turns", self.log.turns.saturating_sub(turns)));
        if let Some(left) = left {
            out.show(format_args!(", {left} left"));
        }
        if kind == "rests" {
            let pauses = self.clock.pauses.saturating_sub(pauses);
            out.show(format_args!(", {pauses} could wait"));
        }
    }

    /// Plays an act, and prints what comes of it.
    pub fn play(&mut self, act: &str, out: &mut Out) -> Played {
        let (kind, rest) = first(act);
        let (name, words) = first(rest);
        match (kind, rest) {
            ("turns" | "rests", count) => self.push_turns(kind, number(count)?, out),
            ("settle", _) => out.push(self.settle()),
            ("moment", seconds) => self.clock.tick.stamp.moment = parsed(seconds)?,
            ("at", millis) => self.clock.tick.millis = number(millis)?,
            ("pass", millis) => self.pass(number(millis)?),
            ("clock", "fails") => self.clock.fails = true,
            ("clock", "goes") => self.clock.fails = false,
            ("failures", _) => out.show(format_args!("{} failures", self.log.failures)),
            ("open", _) => out.show(format_args!("{} open", self.service.sockets().connections())),
            ("connect", _) => self.connect(name, number(words)?)?,
            ("leave", _) => self.client(name)?.stream = None,
            ("send" | "send_all" | "ask" | "ask_all", _) => self.send(kind, name, words)?,
            ("trickle", _) => self.trickle(name, words, out)?,
            ("end", _) => self.client(name)?.end()?,
            ("another", arrival) => self.serve_another(arrival, out)?,
            ("datagrams", _) => self.send_datagrams(number(name)?, words)?,
            ("reply", _) => self.push_reply(out)?,
            ("got" | "drain", _) => self.push_got(kind, name, out)?,
            ("log", _) => self.push_log(name, out)?,
            ("handed", _) => self.log.push_handed(out, self.clients.as_slice())?,
            _ => return Err(CaseFault::Act),
        }
        Ok(())
    }
}
