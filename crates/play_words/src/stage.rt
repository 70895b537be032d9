//! What a command line is run in: a desk, a terminal and files, all in memory.
use crate::desk::attempt_of;
use cases::{CaseFault, Out, Played};
use hallctl_requests::DeskAddress;
use hallctl_tasks::{Attempt, Dial, Surroundings, Why, goes_on_text};
use halls_file::FileFault;
use std::alloc::{AllocError, Global};
use std::collections::VecDeque;

/// When a command line begins, in seconds since 1970: 2026-09-21, 14:13:20 UTC.
pub(crate) const MOMENT: u64 = 1_790_000_000;

/// The desk and the token of a case that sets no variable of the environment, and the path of the token's file.
pub(crate) const USUAL_DESK: &str = "desk.hall.example:8080";

pub(crate) const USUAL_TOKEN: &str = "olgas-token";

const USUAL_TOKEN_FILE: &str = "/etc/hall/token";

/// A file by its path.
#[derive(Drop)]
pub(crate) struct PlayedFile {
    pub(crate) path: String,
    pub(crate) octets: Vec<u8>,
    /// Whether a command line made it or added to it.
    pub(crate) is_made: bool,
}

// A variable of the environment.
#[derive(Drop)]
struct Variable {
    name: String,
    value: String,
}

/// Tries in a row with the same octets.
#[derive(Drop)]
pub(crate) struct Sent {
    pub(crate) octets: Vec<u8>,
    pub(crate) tries: u64,
    /// When the first and the last began.
    pub(crate) first: u64,
    pub(crate) last: u64,
}

/// What there is, and what came of it so far.
#[derive(Drop)]
pub(crate) struct Stage<'r> {
    pub(crate) rt: &'r HostRuntime,
    answers: VecDeque<Attempt>,
    pub(crate) files: Vec<PlayedFile>,
    pub(crate) sent: Vec<Sent>,
    variables: Vec<Variable>,
    // The paths of files that others can read.
    open: Vec<String>,
    // Where the desk is that is asked.
    authority: String,
    typed: Option<String>,
    is_watched: bool,
    is_screen: bool,
    /// Whether it is written how long the command line took.
    pub(crate) is_timed: bool,
    pub(crate) out: Out,
    pub(crate) err: Out,
    /// The milliseconds that have passed.
    pub(crate) clock: u64,
    // When time was last counted anew, and how many times there were random octets.
    anew: u64,
    drawn: u8,
}

impl<'r> Stage<'r> {
    pub(crate) fn new(rt: &'r HostRuntime) -> Stage<'r> {
        let alloc = rt.alloc();
        Stage {
            rt,
            answers: VecDeque::new(alloc),
            files: Vec::new(alloc),
            sent: Vec::new(alloc),
            variables: Vec::new(alloc),
            open: Vec::new(alloc),
            authority: String::new(alloc),
            typed: None,
            is_watched: false,
            is_screen: false,
            is_timed: false,
            out: Out::new(alloc),
            err: Out::new(alloc),
            clock: 0,
            anew: 0,
            drawn: 0,
        }
    }

    /// Sets what an act before a command line says.
    pub(crate) fn set(&mut self, kind: &str, rest: &str) -> Played {
        let alloc = self.rt.alloc();
        match kind {
            "desk" => self.answers.push_back(attempt_of(alloc, rest)?)?,
            "typed" => self.typed = Some(String::from_str(alloc, rest)?),
            "watched" => self.is_watched = true,
            "screen" => self.is_screen = true,
            "timed" => self.is_timed = true,
            "env" => {
                let (name, value) = rest.split_once(' ').unwrap_or((rest, ""));
                self.variables.push(Variable {
                    name: String::from_str(alloc, name)?,
                    value: String::from_str(alloc, value)?,
                })?;
            }
            "open" => self.open.push(String::from_str(alloc, rest)?)?,
            "file" => {
                let (path, line) = rest.split_once(' ').ok_or(CaseFault::Form)?;
                self.add(path, line.as_bytes(), false)?;
                self.add(path, b"\n", false)?;
            }
            _ => return Err(CaseFault::Act),
        }
        Ok(())
    }

    // Adds a try that begins now to those before it.
    fn add_try(&mut self, octets: &[u8]) -> Result<(), AllocError> {
        if let Some(last) = self.sent.last_mut()
            && last.octets.as_slice() == octets
        {
            last.tries = last.tries.saturating_add(1);
            last.last = self.clock;
            return Ok(());
        }
        self.sent.push(Sent {
            octets: Vec::from_slice(self.rt.alloc(), octets)?,
            tries: 1,
            first: self.clock,
            last: self.clock,
        })?;
        Ok(())
    }

    // Adds octets to the end of a file, which is made if there is none.
    fn add(&mut self, path: &str, octets: &[u8], is_made: bool) -> Result<(), AllocError> {
        for file in self.files.iter_mut() {
            if file.path.as_str() == path {
                file.is_made = is_made;
                return file.octets.extend_from_slice(octets);
            }
        }
        self.files.push(PlayedFile {
            path: String::from_str(self.rt.alloc(), path)?,
            octets: Vec::from_slice(self.rt.alloc(), octets)?,
            is_made,
        })?;
        Ok(())
    }

    // The value of a variable that the case sets.
    fn value(&self, name: &str) -> Option<&str> {
        let variable = self.variables.iter().find(|one| one.name.as_str() == name)?;
        Some(variable.value.as_str())
    }

    fn file(&self, path: &str) -> Option<&PlayedFile> {
        self.files.iter().find(|file| file.path.as_str() == path)
    }
}

fn copied(alloc: Global, octets: &[u8]) -> Result<Vec<u8>, FileFault> {
    Vec::from_slice(alloc, octets).map_err(|_| FileFault::Memory)
}

// A variable of the environment where the case sets none.
fn usual(alloc: Global, name: &str) -> Result<Option<String>, AllocError> {
    match name {
        "HALL_DESK" => Ok(Some(format!(in alloc; "http://{USUAL_DESK}")?)),
        "HALL_TOKEN_FILE" => Ok(Some(String::from_str(alloc, USUAL_TOKEN_FILE)?)),
        _ => Ok(None),
    }
}

impl Dial for Stage<'_> {
    ghost use Rattle.std.specs.Prelude.{None};

    ghost tries = { λ _. None };

    fn attempt(&mut self, _alloc: Global, octets: &[u8], time: u64) -> Attempt {
        if self.add_try(octets).is_err() {
            return Attempt::Nothing(Why::Memory);
        }
        let closed = Attempt::Nothing(Why::Closed);
        let attempt = self.answers.pop_front().unwrap_or(closed);
        if matches!(&attempt, Attempt::Nothing(Why::Late)) {
            self.pause(time.min(10_000));
        }
        attempt
    }

    fn goes_on(&mut self, alloc: Global, why: Why, milliseconds: u64) {
        if self.is_watched
            && let Ok(text) = goes_on_text(alloc, self.authority.as_str(), why, milliseconds)
        {
            self.eprint(text.as_str());
        }
    }

    fn pause(&mut self, milliseconds: u64) {
        self.clock = self.clock.saturating_add(milliseconds);
    }

    fn passed(&mut self) -> u64 {
        self.clock
    }
}

impl Surroundings for Stage<'_> {
    fn turn_to(&mut self, alloc: Global, address: &DeskAddress) -> Result<(), AllocError> {
        self.authority = String::from_str(alloc, address.authority.text())?;
        Ok(())
    }

    fn variable(&mut self, alloc: Global, name: &str) -> Result<Option<String>, AllocError> {
        match self.value(name) {
            Some(value) => Ok(Some(String::from_str(alloc, value)?)),
            None if !self.variables.is_empty() => Ok(None),
            None => usual(alloc, name),
        }
    }

    fn print(&mut self, text: &str) -> bool {
        self.out.push(text);
        true
    }

    fn eprint(&mut self, text: &str) {
        self.err.push(text);
    }

    fn is_screen(&self) -> bool {
        self.is_screen
    }

    fn moment(&mut self) -> Option<u64> {
        Some(MOMENT.saturating_add(self.clock / 1_000))
    }

    fn is_watched(&self) -> bool {
        self.is_watched
    }

    fn can_ask(&self) -> bool {
        self.typed.is_some()
    }

    fn is_agreed(&mut self, _alloc: Global) -> bool {
        matches!(&self.typed, Some(typed) if typed.as_str() == "yes" || typed.as_str() == "y")
    }

    fn idle(&mut self) -> u64 {
        self.clock.saturating_sub(self.anew)
    }

    fn count_anew(&mut self) {
        self.anew = self.clock;
    }

    fn fresh(&mut self) -> Option<[u8; 32]> {
        self.drawn = self.drawn.saturating_add(1);
        Some([self.drawn; 32])
    }

    fn octets_of(&mut self, alloc: Global, path: &str) -> Result<Vec<u8>, FileFault> {
        match self.file(path) {
            Some(file) => copied(alloc, file.octets.as_slice()),
            None if path == USUAL_TOKEN_FILE => copied(alloc, USUAL_TOKEN.as_bytes()),
            None => Err(FileFault::Io),
        }
    }

    fn is_open_to_others(&mut self, path: &str) -> bool {
        self.open.iter().any(|open| open.as_str() == path)
    }

    fn has_file(&mut self, path: &str) -> bool {
        self.file(path).is_some()
    }

    fn make_file(&mut self, path: &str, octets: &[u8]) -> Result<(), FileFault> {
        if self.file(path).is_some() {
            return Err(FileFault::Exists);
        }
        self.add(path, octets, true).map_err(|_| FileFault::Memory)
    }

    fn rename_file(&mut self, from: &str, to: &str) -> Result<(), FileFault> {
        if self.file(to).is_some() {
            return Err(FileFault::Exists);
        }
        for file in self.files.iter_mut() {
            if file.path.as_str() == from {
                let path = String::from_str(self.rt.alloc(), to);
                file.path = path.map_err(|_| FileFault::Memory)?;
                file.is_made = true;
            }
        }
        Ok(())
    }

    fn add_to_file(&mut self, path: &str, text: &str) -> Result<(), FileFault> {
        if path == "full" {
            return Err(FileFault::Io);
        }
        self.add(path, text.as_bytes(), true)
            .map_err(|_| FileFault::Memory)
    }
}
