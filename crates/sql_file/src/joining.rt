//! A database file and its log as one file, by the kit's own log: it is recovered in memory, and its pages are moved into the file.
ghost use Rattle.std.specs.Prelude.{◌≡◌, List, ℕ, [], IfOk, IsTrue, OnOk};
ghost use Rattle.sqlite_disk.specs.Memory.{memory_bytes, memory_is_usable};
ghost use Rattle.sqlite_wal.specs.{Log.{AreUsable, image, state}, Format.be32, PageSize.{bytes_of, size_in_file}, Recovery.{Pages, IsIgnored, Recovers, pages_after}};
ghost use Rattle.sql_file.specs.OneFile.{StandsFor};

use sqlite_disk::{Disk, Files, Memory};
use sqlite_wal::{Error, Log, PageSize, probe_page_size};
use std::alloc::{AllocError, Global};
use std::io;

/// Why two files can't be made one.
#[derive(Clone, Copy, Debug, PartialEq, Eq, thiserror::Error)]
pub enum Unjoined {
    /// They hold no database.
    #[error("the file and its log hold no database")]
    NoDatabase,
    #[error("memory is wanting")]
    Memory,
}

impl From<AllocError> for Unjoined {
    fn from(_refused: AllocError) -> Unjoined {
        Unjoined::Memory
    }
}

// What fails in memory is memory.
impl From<io::Error> for Unjoined {
    fn from(_refused: io::Error) -> Unjoined {
        Unjoined::Memory
    }
}

fn disk_with(alloc: Global, octets: &[u8]) -> io::Result<Memory>
    ensures octets { IfOk result (λ disk. memory_bytes disk ≡ octets.now) }
    ensures usable { IfOk result (λ disk. IsTrue (memory_is_usable disk)) }
{
    let mut disk = Memory::new(alloc);
    disk.write_at(0, octets)?;
    Ok(disk)
}

fn files_with(alloc: Global, file: &[u8], log: &[u8]) -> Result<Files<Memory>, Unjoined>
    ensures log { IfOk result (λ files. memory_bytes files.log ≡ log.now) }
    ensures file { IfOk result (λ files. memory_bytes files.db ≡ file.now) }
    ensures log_usable { IfOk result (λ files. IsTrue (memory_is_usable files.log)) }
    ensures file_usable { IfOk result (λ files. IsTrue (memory_is_usable files.db)) }
{
    let log = disk_with(alloc, log)?;
    let db = disk_with(alloc, file)?;
    Ok(Files { log, db })
}

// The page size that files name.
fn named_size(files: &mut Files<Memory>) -> Result<PageSize, Unjoined>
    requires log_usable { IsTrue (memory_is_usable files.old.log) }
    requires file_usable { IsTrue (memory_is_usable files.old.db) }
    ensures by_log { IfOk result (λ size. ¬ IsIgnored (memory_bytes files.old.log) → bytes_of size ≡ be32 (memory_bytes files.old.log) 8) }
    ensures by_file { IfOk result (λ size. IsIgnored (memory_bytes files.old.log) → bytes_of size ≡ size_in_file (memory_bytes files.old.db)) }
    ensures log { memory_bytes files.new.log ≡ memory_bytes files.old.log }
    ensures file { memory_bytes files.new.db ≡ memory_bytes files.old.db }
    ensures log_still { IsTrue (memory_is_usable files.new.log) }
    ensures file_still { IsTrue (memory_is_usable files.new.db) }
{
    match probe_page_size(files) {
        Ok(Some(size)) => Ok(size),
        Ok(None) => Err(Unjoined::NoDatabase),
        Err(_) => Err(Unjoined::Memory),
    }
}

// The log is recovered, and its pages are moved into the file.
fn moved(log: &mut Log<Memory>) -> Result<(), Error>
    requires { AreUsable log.old }
    ensures pages { OnOk result ((pages : Pages) → Recovers (state log.old).page_size (image log.old) pages → pages_after (state log.old).page_size [] (image log.new).db 0 ≡ pages) }
{
    log.recover()?;
    log.finish()
}

// Files of which the log stands for nothing.
fn finished(alloc: Global, files: Files<Memory>, size: PageSize) -> Result<Files<Memory>, Unjoined>
    requires log_usable { IsTrue (memory_is_usable files.log) }
    requires file_usable { IsTrue (memory_is_usable files.db) }
    ensures pages { IfOk result (λ after. (pages : Pages) → Recovers (bytes_of size) (record { log = memory_bytes files.log; db = memory_bytes files.db }) pages → pages_after (bytes_of size) [] (memory_bytes after.db) 0 ≡ pages) }
{
    let Ok(mut log) = Log::new(alloc, files, size, 0) else {
        return Err(Unjoined::Memory);
    };
    match moved(&mut log) {
        Ok(()) => Ok(log.into_files()),
        Err(_) => Err(Unjoined::NoDatabase),
    }
}

/// The octets of one file that stands for the pages for which a database file and its log stand together
/// (the file format of SQLite, section 4). Neither is changed.
///
/// # Errors
///
/// `NoDatabase` where they hold none, or are damaged, and `Memory`.
pub fn one_file(alloc: Global, file: &[u8], log: &[u8]) -> Result<Memory, Unjoined>
    ensures { IfOk result (λ one. StandsFor file.now log.now (memory_bytes one)) }
{
    let mut files = files_with(alloc, file, log)?;
    let size = named_size(&mut files)?;
    Ok(finished(alloc, files, size)?.db)
}
