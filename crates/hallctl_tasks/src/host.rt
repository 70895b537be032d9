//! The system that the program runs on: a socket to the desk, the terminal, the environment, files and random octets.
use crate::dial::{Attempt, Dial, Why};
use crate::output::goes_on_text;
use crate::socket::{Time, connected, exchanged};
use crate::surroundings::Surroundings;
use hallctl_requests::DeskAddress;
use halls_file::{FileFault, file_octets, input_octets, is_open_to_others};
use rand::rngs::SysRng;
use rand_core::TryRng;
use std::alloc::{AllocError, Global};
use std::env::VarError;
use std::fs::{OpenOptions, exists, hard_link, remove_file};
use std::io::{BufRead, BufReader, IsTerminal, Read, Write};
use std::os::unix::fs::OpenOptionsExt;
use std::time::{Duration, Instant, SystemTime, UNIX_EPOCH};
use std::{env, io, thread};

// The maximum of octets of the operator's answer.
const MAX_REPLY_LEN: u64 = 4_096;

// Read and written by its owner alone.
const OWNER_ONLY: u32 = 0o600;

// Where the desk is that is asked.
#[derive(Drop)]
struct Way {
    host: String,
    port: u16,
    authority: String,
}

/// The system, and the way to a desk.
#[derive(Drop)]
pub struct Host<'a> {
    rt: &'a HostRuntime,
    // None until it is turned to a desk.
    way: Option<Way>,
    start: Instant,
    // When time was last counted anew, in milliseconds from the start.
    anew: u64,
}

impl<'a> Host<'a> {
    /// The system, with a way to no desk yet. `None` where the system's clock fails.
    pub fn new(rt: &'a HostRuntime) -> Option<Host<'a>> {
        let start = Instant::now(rt).ok()?;
        Some(Host {
            rt,
            way: None,
            start,
            anew: 0,
        })
    }
}

impl Dial for Host<'_> {
    ghost use Rattle.std.specs.Prelude.{None};

    // What goes over a socket, no contract knows.
    ghost tries = { λ _. None };

    fn attempt(&mut self, alloc: Global, octets: &[u8], milliseconds: u64) -> Attempt {
        let Some(way) = &self.way else {
            return Attempt::Unsent(Why::NoAddress);
        };
        let Some(time) = Time::from_now(self.rt, milliseconds) else {
            return Attempt::Unsent(Why::Late);
        };
        match connected(self.rt, way.host.as_str(), way.port, &time) {
            Ok(stream) => exchanged(self.rt, alloc, stream, &time, octets),
            Err(why) => Attempt::Unsent(why),
        }
    }

    fn goes_on(&mut self, alloc: Global, why: Why, milliseconds: u64) {
        if let Some(way) = &self.way
            && self.rt.stderr().is_terminal()
            && let Ok(text) = goes_on_text(alloc, way.authority.as_str(), why, milliseconds)
        {
            let _ = self.rt.stderr().write_all(text.as_bytes());
        }
    }

    fn pause(&mut self, milliseconds: u64) {
        thread::sleep(self.rt, Duration::from_millis(milliseconds));
    }

    fn passed(&mut self) -> u64 {
        match self.start.elapsed(self.rt) {
            Ok(passed) => u64::try_from(passed.as_millis()).unwrap_or(u64::MAX),
            Err(_) => u64::MAX,
        }
    }
}

// Whether the next line of standard input is `yes` or `y`.
fn is_yes(rt: &HostRuntime, alloc: Global) -> io::Result<bool> {
    let mut octets = Vec::new(alloc);
    let mut reader = BufReader::new(alloc, rt.stdin().take(MAX_REPLY_LEN))?;
    reader.read_until(b'\n', &mut octets)?;
    let line = octets.as_slice();
    Ok(line == b"yes\n".as_slice() || line == b"y\n".as_slice())
}

impl Surroundings for Host<'_> {
    fn turn_to(&mut self, alloc: Global, address: &DeskAddress) -> Result<(), AllocError> {
        self.way = Some(Way {
            host: String::from_str(alloc, address.host.as_str())?,
            port: address.port,
            authority: String::from_str(alloc, address.authority.text())?,
        });
        Ok(())
    }

    fn variable(&mut self, _alloc: Global, name: &str) -> Result<Option<String>, AllocError> {
        match env::var(self.rt, name) {
            Ok(value) => Ok(Some(value)),
            Err(VarError::OutOfMemory) => Err(AllocError),
            Err(VarError::NotPresent | VarError::NotUnicode) => Ok(None),
        }
    }

    fn print(&mut self, text: &str) -> bool {
        self.rt.stdout().write_all(text.as_bytes()).is_ok()
    }

    fn eprint(&mut self, text: &str) {
        let _ = self.rt.stderr().write_all(text.as_bytes());
    }

    fn is_screen(&self) -> bool {
        self.rt.stdout().is_terminal()
    }

    fn moment(&mut self) -> Option<u64> {
        let now = SystemTime::now(self.rt).ok()?;
        Some(now.duration_since(UNIX_EPOCH).ok()?.as_secs())
    }

    fn is_watched(&self) -> bool {
        self.rt.stderr().is_terminal()
    }

    fn can_ask(&self) -> bool {
        self.rt.stdin().is_terminal()
    }

    fn is_agreed(&mut self, alloc: Global) -> bool {
        is_yes(self.rt, alloc).unwrap_or(false)
    }

    fn idle(&mut self) -> u64 {
        self.passed().saturating_sub(self.anew)
    }

    fn count_anew(&mut self) {
        self.anew = self.passed();
    }

    fn fresh(&mut self) -> Option<[u8; 32]> {
        let mut octets = [0; 32];
        let mut random = SysRng::new(self.rt);
        random.try_fill_bytes(&mut octets).ok()?;
        Some(octets)
    }

    fn octets_of(&mut self, _alloc: Global, path: &str) -> Result<Vec<u8>, FileFault> {
        match path {
            "-" => input_octets(self.rt),
            _ => file_octets(self.rt, path),
        }
    }

    fn is_open_to_others(&mut self, path: &str) -> bool {
        is_open_to_others(self.rt, path)
    }

    fn has_file(&mut self, path: &str) -> bool {
        exists(self.rt, path).unwrap_or(true)
    }

    fn make_file(&mut self, path: &str, octets: &[u8]) -> Result<(), FileFault> {
        let mut file = OpenOptions::new()
            .write(true)
            .create_new(true)
            .mode(OWNER_ONLY)
            .open(self.rt, path)?;
        file.write_all(octets)?;
        Ok(file.sync_all()?)
    }

    // The other name is made, and fails where there is a file of that name, before the first one goes.
    fn rename_file(&mut self, from: &str, to: &str) -> Result<(), FileFault> {
        hard_link(self.rt, from, to)?;
        Ok(remove_file(self.rt, from)?)
    }

    fn add_to_file(&mut self, path: &str, text: &str) -> Result<(), FileFault> {
        let mut file = OpenOptions::new()
            .append(true)
            .create(true)
            .mode(OWNER_ONLY)
            .open(self.rt, path)?;
        file.write_all(text.as_bytes())?;
        // A pipe or a terminal can't be synced.
        let _ = file.sync_data();
        Ok(())
    }
}
