//! The two files of a hall on disks in memory, which may stop; what they hold, and what a crash leaves of it. Each function that has a
//! connection takes one layer of its type: one over all of them takes a minute to prove.
use cases::CaseFault;
use sqlite::{Alter, Connection, FileStore, Files, Options};
use sqlite_disk::{Crash, Disk, Fuse, Memory};
use std::alloc::{AllocError, Global};

/// Files on disks that may stop.
pub type Disks = Files<Fuse<Memory>>;

const SECTOR: usize = 512;

/// Which file's disk stops.
#[derive(Clone, Copy, PartialEq, Eq)]
pub enum Which {
    Log,
    File,
}

/// What two files hold.
#[derive(Drop)]
pub struct Image {
    log: Vec<u8>,
    db: Vec<u8>,
}

// A disk that stops after so many calls. Before that it wants nothing but memory.
fn disk_with(alloc: Global, octets: &[u8], calls: u64) -> Result<Fuse<Memory>, CaseFault> {
    let mut disk = Memory::new(alloc);
    disk.write_at(0, octets).map_err(|_| CaseFault::Memory)?;
    disk.sync().map_err(|_| CaseFault::Memory)?;
    Ok(Fuse::new(disk, calls))
}

impl Image {
    /// Two empty files.
    pub fn empty(alloc: Global) -> Image {
        Image {
            log: Vec::new(alloc),
            db: Vec::new(alloc),
        }
    }

    pub fn copy(&self, alloc: Global) -> Result<Image, AllocError> {
        Ok(Image {
            log: Vec::from_slice(alloc, self.log.as_slice())?,
            db: Vec::from_slice(alloc, self.db.as_slice())?,
        })
    }

    /// What two files hold now.
    pub fn of(alloc: Global, files: &Disks) -> Result<Image, AllocError> {
        Ok(Image {
            log: Vec::from_slice(alloc, files.log.inner().bytes())?,
            db: Vec::from_slice(alloc, files.db.inner().bytes())?,
        })
    }

    /// Files with these octets, of which one may stop after so many calls.
    pub fn disks(&self, alloc: Global, which: Which, calls: u64) -> Result<Disks, CaseFault> {
        let (log_calls, db_calls) = match which {
            Which::Log => (calls, u64::MAX),
            Which::File => (u64::MAX, calls),
        };
        Ok(Files {
            log: disk_with(alloc, self.log.as_slice(), log_calls)?,
            db: disk_with(alloc, self.db.as_slice(), db_calls)?,
        })
    }
}

/// A connection over files, or what is left of them.
pub fn connect<D: Disk + Drop>(
    alloc: Global,
    files: Files<D>,
) -> Result<Connection<FileStore<D>>, Files<D>> {
    if !files.log.may_be_used() || !files.db.may_be_used() {
        return Err(files);
    }
    match Connection::open_files(alloc, files, Options::new(1)) {
        Ok(conn) => Ok(conn),
        Err((_, left)) => Err(left.into_files()),
    }
}

/// A disk of which a new one can be made.
pub trait Made: Disk + Drop {
    /// An empty disk that doesn't stop.
    fn made(alloc: Global) -> Result<Self, CaseFault>;
}

impl Made for Fuse<Memory> {
    fn made(alloc: Global) -> Result<Fuse<Memory>, CaseFault> {
        disk_with(alloc, &[], u64::MAX)
    }
}

/// A store of SQLite of which a new one can be opened.
pub trait Fresh: Alter + Drop {
    /// A connection over no tables.
    fn fresh(alloc: Global) -> Result<Connection<Self>, CaseFault>;

    /// A connection over the tables of a store that a fault has shut, whose files are closed.
    fn again(self, alloc: Global) -> Result<Connection<Self>, CaseFault>;
}

impl<D: Made> Fresh for FileStore<D> {
    fn fresh(alloc: Global) -> Result<Connection<FileStore<D>>, CaseFault> {
        let log = D::made(alloc)?;
        let db = D::made(alloc)?;
        connect(alloc, Files { log, db }).map_err(|_| CaseFault::Memory)
    }

    fn again(self, alloc: Global) -> Result<Connection<FileStore<D>>, CaseFault> {
        connect(alloc, self.close()).map_err(|_| CaseFault::Memory)
    }
}

/// The files are closed; whether that went well.
pub fn close<D: Disk + Drop>(conn: Connection<FileStore<D>>) -> (bool, Files<D>) {
    match conn.close_files() {
        Ok(files) => (true, files),
        Err((_, store)) => (false, store.close()),
    }
}

// Whether a sector was written before the crash: all were, or every second one was.
fn is_written(sector: usize, turn: u64) -> bool {
    match turn % 3 {
        0 => true,
        1 => sector % 2 == 0,
        _ => sector % 2 == 1,
    }
}

// The sectors that were written over what was synced, and zeros where the synced file has ended.
fn written_over(
    alloc: Global,
    synced: &[u8],
    written: &[u8],
    turn: u64,
) -> Result<Vec<u8>, AllocError> {
    let left = written.iter().enumerate().map(|(at, octet)| {
        let lost = synced.get(at).copied().unwrap_or(0);
        if is_written(at / SECTOR, turn) {
            *octet
        } else {
            lost
        }
    });
    left.collect(alloc)
}

/// What a crash leaves of two files: what was synced; and, by turns, all that was written, or every other sector of it.
pub fn crash(alloc: Global, mut files: Disks, turn: u64) -> Result<(Image, Image), AllocError> {
    let written = Image::of(alloc, &files)?;
    files.log.crash();
    files.db.crash();
    let synced = Image::of(alloc, &files)?;
    let partly = Image {
        log: written_over(alloc, synced.log.as_slice(), written.log.as_slice(), turn)?,
        db: written_over(alloc, synced.db.as_slice(), written.db.as_slice(), turn)?,
    };
    Ok((synced, partly))
}
