//! The tables in a file: those of a new hall are made, those of the first schema are carried over, or a task is done over the store of the
//! hall that they are. One function goes from a file to its connection and closes it: a proof looks into its type for seconds, so all
//! else holds for any connection or any store.
use crate::fault::FileFault;
use hall_sql::SqlStore;
use hall_store::HallStore;
use hall_types::{Digest, Name};
use sql_tables::{CreateFault, Migrated, OpenFault};
use sqlite::{Alter, Connection, Error, FileFrom, FileStore, Unknown};
use std::alloc::Global;
use std::fs;

/// A task over the store of a hall, whichever it is.
pub trait StoreTask: Drop {
    /// What comes of it.
    type Outcome: Drop;

    /// Does it over a store, which is given back.
    fn over<S: HallStore>(self, store: S) -> (Self::Outcome, S);
}

/// How a task over a hall's file ended.
#[derive(Drop)]
pub struct Ended<O> {
    /// What came of it.
    pub outcome: O,
    /// Whether the file was closed. If so, what was kept is in it, and nothing of it in the log beside it; if the disk failed, it is in
    /// the file and in the log together.
    pub closing: Result<(), FileFault>,
}

// What came of the tables of a connection, and the connection.
type Done<O, S> = (Result<O, FileFault>, Connection<S>);

// What is done over the tables of a connection, which is given back.
trait TablesTask: Drop {
    type Outcome: Drop;

    fn over<S: Alter + Drop>(self, alloc: Global, conn: Connection<S>) -> Done<Self::Outcome, S>;
}

// The tables of a new hall are made, with its one operator, an enabled admin, and the digest of its token.
#[derive(Clone, Copy)]
struct Making {
    admin: Name,
    digest: Digest,
}

impl TablesTask for Making {
    type Outcome = ();

    fn over<S: Alter + Drop>(self, alloc: Global, conn: Connection<S>) -> Done<(), S> {
        match SqlStore::create(alloc, conn, self.admin, self.digest) {
            Ok(store) => (Ok(()), store.into_connection()),
            Err(refused) => {
                let fault = match refused.fault {
                    CreateFault::NotEmpty => FileFault::NotEmpty,
                    CreateFault::Unavailable => FileFault::Unavailable,
                };
                (Err(fault), refused.connection)
            }
        }
    }
}

fn of_opening(fault: OpenFault) -> FileFault {
    match fault {
        OpenFault::NotAHall => FileFault::NotAHall,
        OpenFault::OtherVersion => FileFault::OtherVersion,
        OpenFault::Unavailable => FileFault::Unavailable,
    }
}

// The tables of the first schema are carried over to the second.
#[derive(Clone, Copy)]
struct Migrating;

impl TablesTask for Migrating {
    type Outcome = Migrated;

    fn over<S: Alter + Drop>(self, alloc: Global, conn: Connection<S>) -> Done<Migrated, S> {
        match SqlStore::migrate(alloc, conn) {
            Ok((store, migrated)) => (Ok(migrated), store.into_connection()),
            Err(refused) => (Err(of_opening(refused.fault)), refused.connection),
        }
    }
}

// A task is done over the store of the hall that is there.
#[derive(Drop)]
struct Opening<T> {
    task: T,
}

impl<T: StoreTask> TablesTask for Opening<T> {
    type Outcome = T::Outcome;

    fn over<S: Alter + Drop>(self, alloc: Global, conn: Connection<S>) -> Done<T::Outcome, S> {
        match SqlStore::open(alloc, conn) {
            Ok(store) => {
                let (outcome, store) = self.task.over(store);
                (Ok(outcome), store.into_connection())
            }
            Err(refused) => (Err(of_opening(refused.fault)), refused.connection),
        }
    }
}

type HallConnection = Connection<FileStore<FileFrom<Unknown>>>;

fn connect(rt: &HostRuntime, path: &str) -> Result<HallConnection, FileFault> {
    match Connection::open_from(rt, path, false, Unknown) {
        Ok(connection) => Ok(connection),
        Err(_) => Err(FileFault::Unavailable),
    }
}

fn closed(closing: Result<(), Error>) -> Result<(), FileFault> {
    match closing {
        Ok(()) => Ok(()),
        Err(_) => Err(FileFault::Unavailable),
    }
}

// Opens a file for a task, and closes it.
fn over_tables<T: TablesTask>(
    rt: &HostRuntime,
    path: &str,
    task: T,
) -> Result<Ended<T::Outcome>, FileFault> {
    let connection = connect(rt, path)?;
    let (done, connection) = task.over(rt.alloc(), connection);
    let closing = closed(connection.close());
    match done {
        Ok(outcome) => Ok(Ended { outcome, closing }),
        Err(fault) => Err(fault),
    }
}

/// Makes the tables of a new hall in a file, beside what it has, with this enabled admin and this digest of its token, and closes it.
/// The file is made where there is none.
///
/// # Errors
///
/// `NotEmpty` where a table, an index or a view of the file has the name of one of a hall's tables. `Unavailable` where another program
/// has it open, and where memory or the disk failed. A refusal leaves the file's tables as they were.
pub fn create(rt: &HostRuntime, path: &str, admin: Name, digest: Digest) -> Result<(), FileFault> {
    over_tables(rt, path, Making { admin, digest })?.closing
}

// A file that isn't there is no hall's: it isn't made.
fn look(rt: &HostRuntime, path: &str) -> Result<(), FileFault> {
    match fs::exists(rt, path) {
        Ok(true) => Ok(()),
        Ok(false) => Err(FileFault::NotAHall),
        Err(_) => Err(FileFault::Unavailable),
    }
}

/// Carries the tables of a hall of the first schema in a file over to the second, in one transaction, and closes the file; what became
/// of them. Tables of the second schema stay as they are.
///
/// # Errors
///
/// `NotAHall` where there is no file, which isn't made, where a hall's table is missing in it, or a column of one, or the one row
/// that names its schema, and where a file of the first schema has a table `wipes`. `OtherVersion` where that row names neither schema.
/// `Unavailable` where another program has the file open, and where memory or the disk failed. A refusal leaves the tables as they
/// were.
pub fn migrate(rt: &HostRuntime, path: &str) -> Result<Ended<Migrated>, FileFault> {
    look(rt, path)?;
    over_tables(rt, path, Migrating)
}

/// Does a task over the store of the hall in a file, and closes the file, whatever comes of the task. The opening writes no table.
///
/// # Errors
///
/// The task isn't done: `NotAHall` where there is no file, which isn't made, and where a hall's table is missing in it, or a column
/// of one, or the one row that names its schema. `OtherVersion` where that row names another schema. `Unavailable` where another
/// program has the file open, and where memory or the disk failed.
pub fn over<T: StoreTask>(
    rt: &HostRuntime,
    path: &str,
    task: T,
) -> Result<Ended<T::Outcome>, FileFault> {
    look(rt, path)?;
    over_tables(rt, path, Opening { task })
}
