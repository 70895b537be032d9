//! A service from one opening of its hall's file to the next.
use crate::backups::LastBackup;
use crate::notices::object;
use crate::outlet::Outlet;
use crate::random_block::RandomBlock;
use crate::serving::tell_of_gone;
use crate::stamps::now;
use crate::sums::HallSum;
use hall_report::{Fault, LogFormat};
use hallboot_files::ServedFile;
use hallboot_words::{Serving, fault_of};
use mio::Poll;
use rand::rngs::SysRng;
use rand_core::TryRng;
use serve_sockets::{Addresses, BindFault, MAX_CONNECTIONS, Sockets};
use std::io;
use std::time::Instant;

/// How long, in milliseconds, is waited before each opening in a row after which nothing was served for long: 64 seconds in all.
const PAUSES: [u64; 16] = [
    0, 100, 200, 400, 800, 1_600, 3_200, 6_400, 6_400, 6_400, 6_400, 6_400, 6_400, 6_400, 6_400,
    6_400,
];

/// So many turns have a quiet moment among them for which the store was available.
const WELL_SERVED: u64 = 16;

/// What a service holds besides its hall: its sockets, with the connections that are open, its log, when it began, and when the last copy
/// of its file was begun.
#[derive(Drop)]
pub(crate) struct Bound {
    pub sockets: Sockets,
    pub log: Option<Outlet>,
    pub start: Instant,
    pub backed_up: LastBackup,
}

fn bind_fault(fault: BindFault) -> Fault {
    match fault {
        BindFault::Bind => Fault::Bind,
        BindFault::Memory => Fault::Memory,
    }
}

// Sockets that are bound where a service is to be reached.
fn bound_sockets(rt: &HostRuntime, serving: &Serving) -> Result<Sockets, Fault> {
    let addresses = Addresses {
        discover: serving.discover,
        boot: serving.boot,
        http: serving.http,
    };
    Sockets::bind(rt, rt.alloc(), &addresses, MAX_CONNECTIONS).map_err(bind_fault)
}

// Whether there are descriptors for a connection and, beside it, for what a copy reads and writes.
fn has_room(rt: &HostRuntime) -> io::Result<()> {
    let _connection = Poll::new(rt)?;
    let _read = Poll::new(rt)?;
    let _written = Poll::new(rt)?;
    Ok(())
}

// How many frames of a little over 4,096 octets are had: half a MiB.
const FRAMES: u32 = 128;

// Has a frame, those below it, and then uses it once more, so that none is in the place of another.
fn has_frames<R: TryRng>(source: &mut R, frames: u32) -> bool {
    let mut block = RandomBlock::new();
    let is_first = block.token(source).is_some();
    let has_more = frames == 0 || has_frames(source, frames - 1);
    block.token(source).is_some() && is_first && has_more
}

// Has the stack that a turn may need, so that no later turn ends the program for want of it. Where the system gives none, it ends it now.
fn reserve_stack<R: TryRng>(source: &mut R) {
    let _ = has_frames(source, FRAMES);
}

// Says where the sockets are.
fn print_addresses(rt: &HostRuntime, sockets: &Sockets) -> Result<(), Fault> {
    let discover = sockets
        .discover_address()
        .map_err(|error| fault_of(&error))?;
    let boot = sockets.boot_address().map_err(|error| fault_of(&error))?;
    let http = sockets.http_address().map_err(|error| fault_of(&error))?;
    let text = format!(in rt.alloc(); "discover {discover}\nboot {boot}\nhttp {http}\n")?;
    desk_operations::write_text(&mut rt.stdout(), text.as_str())
}

// When a service begins that has all that it needs, of which one is told that it is ready.
fn ready(rt: &HostRuntime, serving: &Serving, sockets: &Sockets) -> Result<Instant, Fault> {
    has_room(rt).map_err(|error| fault_of(&error))?;
    reserve_stack(&mut SysRng::new(rt));
    let start = Instant::now(rt).map_err(|error| fault_of(&error))?;
    if serving.is_loopback {
        print_addresses(rt, sockets)?;
    }
    desk_operations::write_text(&mut rt.stdout(), "hall desk ready\n")?;
    Ok(start)
}

// A log of objects has one of its beginning.
fn note_ready(rt: &HostRuntime, log: &mut Outlet) {
    if log.format() == LogFormat::Json {
        let line = object(rt, "ready", None, "hall desk ready");
        log.write(rt.alloc(), now(rt), line);
    }
}

impl Bound {
    /// Binds the sockets and opens the log, and says that the service is ready. The fault is `Io` where there is no descriptor for a
    /// connection.
    fn new(rt: &HostRuntime, serving: &Serving) -> Result<Bound, Fault> {
        let sockets = bound_sockets(rt, serving)?;
        let path = serving.log.as_ref();
        let log = path.map(|path| Outlet::at(rt, path.as_str(), serving.format));
        let mut log = log.transpose()?;
        let start = ready(rt, serving, &sockets)?;
        if let Some(log) = &mut log {
            note_ready(rt, log);
        }
        Ok(Bound {
            sockets,
            log,
            start,
            backed_up: LastBackup {
                at: start,
                is_first: true,
                is_behind: false,
            },
        })
    }
}

/// What is kept of a service from one opening of its hall's file to the next.
#[derive(Drop)]
pub struct Suspended {
    bound: Option<Bound>,
    // The file that is served, for all of the service's life.
    file: Option<ServedFile>,
    left: u64,
    is_shut: bool,
    // What the copy amounts to that was there before the service, if there was one, until the hall was held against it.
    copy_before: Option<HallSum>,
    // How many turns were left at the last wait, and how many there were in a row after which nothing was served for long.
    left_before: u64,
    waits: usize,
}

impl Suspended {
    /// A service of so many turns, which holds nothing yet, and what the copy amounts to that is where its copies are put, if there is one.
    pub fn new(turns: u64, copy_before: Option<HallSum>) -> Suspended {
        Suspended {
            bound: None,
            file: None,
            left: turns,
            is_shut: false,
            copy_before,
            left_before: turns,
            waits: 0,
        }
    }

    /// Whether a fault has shut the store, so that the hall's file is to be opened again.
    pub fn is_shut(&self) -> bool {
        self.is_shut
    }

    /// How many turns are left.
    pub(crate) fn left(&self) -> u64 {
        self.left
    }

    /// What the service holds, which it has at first to get.
    pub(crate) fn take(&mut self, rt: &HostRuntime, serving: &Serving) -> Result<Bound, Fault> {
        match self.bound.take() {
            Some(bound) => Ok(bound),
            None => Bound::new(rt, serving),
        }
    }

    /// Whether a hall is behind the copy that was there before the service, which is found once.
    pub(crate) fn is_behind(&mut self, sum: &HallSum) -> bool {
        match self.copy_before.take() {
            Some(copy) => sum.is_behind(&copy),
            None => false,
        }
    }

    /// Whether another file than this one was served before.
    pub(crate) fn served_another(&self, file: &ServedFile) -> bool {
        self.file
            .as_ref()
            .is_some_and(|before| !before.is_same(file))
    }

    /// Whether the file that was served before isn't at its path any more, which is told.
    pub fn has_lost_file(&mut self, rt: &HostRuntime, serving: &Serving) -> bool {
        let is_gone = match &mut self.file {
            Some(file) => file.is_gone(rt, serving.path.as_str()),
            None => false,
        };
        if is_gone {
            tell_of_gone(rt, serving);
        }
        is_gone
    }

    /// This file was served, so many turns are left, and a fault has shut the store or hasn't.
    pub(crate) fn keep(&mut self, bound: Bound, file: ServedFile, left: u64, is_shut: bool) {
        self.bound = Some(bound);
        self.file = Some(file);
        self.left = left;
        self.is_shut = is_shut;
    }

    /// Waits before the next opening, at first not at all and then ever longer. What comes meanwhile waits too. Whether it is to be
    /// tried: not where it was for a minute in vain.
    pub fn wait(&mut self) -> bool {
        if self.left_before.saturating_sub(self.left) >= WELL_SERVED {
            self.waits = 0;
        }
        self.left_before = self.left;
        let Some(pause) = PAUSES.get(self.waits) else {
            return false;
        };
        self.waits += 1;
        if let Some(bound) = &mut self.bound {
            bound.sockets.stand_still(*pause);
        }
        true
    }
}
