//! `serve`: the hall in a file is served.
use crate::common::{DB, PATH, WITH_PLACE, owned, path, place};
use command_rows::{CommandRow, OptionRow, Options, Shape, Wrong};
use hall_report::{LogFormat, count_of};
use pxe_vendor::Place;
use std::fmt;
use std::net::{Ipv4Addr, SocketAddr, SocketAddrV4};

pub(crate) const DISCOVER: &OptionRow = &OptionRow {
    name: "discover",
    value: "ADDR",
    help: "The socket for DHCP, port 67",
    must: SOCKET,
    shape: Shape::Unless("loopback"),
    ..OptionRow::MAYBE
};

pub(crate) const BOOT: &OptionRow = &OptionRow {
    name: "boot",
    value: "ADDR",
    help: "The socket of the boot server, port 4011",
    must: SOCKET,
    shape: Shape::Unless("loopback"),
    ..OptionRow::MAYBE
};

pub(crate) const HTTP: &OptionRow = &OptionRow {
    name: "http",
    value: "ADDR",
    help: "The socket for HTTP",
    must: SOCKET,
    shape: Shape::Unless("loopback"),
    ..OptionRow::MAYBE
};

const LOOPBACK: &OptionRow = &OptionRow {
    name: "loopback",
    help: "In place of the three sockets: free ports at 127.0.0.1, which it prints, and which its scripts name",
    ..OptionRow::FLAG
};

const SOCKET: &str = "an address and a port are as in 10.0.0.5:67";

const TURNS: &OptionRow = &OptionRow {
    name: "turns",
    value: "N",
    help: "After how many turns it ends",
    must: "it is a number without a leading zero, at most 10^15",
    ..OptionRow::ALWAYS
};

const ENLIST: &OptionRow = &OptionRow {
    name: "enlist",
    value: "ENLIST",
    help: "yes; or no: unknown clients get silence, and machines are added by hand",
    must: "yes or no",
    shape: Shape::OrElse("yes"),
    ..OptionRow::MAYBE
};

pub(crate) const LOG: &OptionRow = &OptionRow {
    name: "log",
    value: "FILE",
    help: "Where a line for each arrival is added; - is standard error",
    ..OptionRow::MAYBE
};

const LOG_TIME: &OptionRow = &OptionRow {
    name: "log-time",
    value: "FORMAT",
    help: "How the log writes moments: seconds since 1970, or utc",
    must: "seconds or utc",
    shape: Shape::OrElse("seconds"),
    ..OptionRow::MAYBE
};

const LOG_FORMAT: &OptionRow = &OptionRow {
    name: "log-format",
    value: "FORMAT",
    help: "text, or json: an object a line, with the time in UTC",
    must: "text or json",
    shape: Shape::OrElse("text"),
    ..OptionRow::MAYBE
};

const LOG_CONNECTIONS: &OptionRow = &OptionRow {
    name: "log-connections",
    value: "WHETHER",
    help: "yes; or no: the log has no lines of connections that are accepted and closed",
    must: "yes or no",
    shape: Shape::OrElse("yes"),
    ..OptionRow::MAYBE
};

pub(crate) const BACKUP: &OptionRow = &OptionRow {
    name: "backup",
    value: "FILE",
    help: "Where a copy of the hall's file is put while it is served",
    must: PATH,
    ..OptionRow::MAYBE
};

const BACKUP_EVERY: &OptionRow = &OptionRow {
    name: "backup-every",
    value: "SECONDS",
    help: "How long it is from one copy to the next, 3600 without it",
    must: "it is a number of seconds without a leading zero, at least 1",
    ..OptionRow::MAYBE
};

const BACKUP_KEEP: &OptionRow = &OptionRow {
    name: "backup-keep",
    value: "N",
    help: "How many copies before the last one are kept, as FILE.DATE; none without it",
    must: "it is a number without a leading zero, at most 10000",
    ..OptionRow::MAYBE
};

// The maximum of copies that are kept.
const MAX_KEPT: u64 = 10_000;

pub(crate) const SERVE_ROW: CommandRow = CommandRow {
    name: "serve",
    about: "Serves the hall to its machines and operators",
    example: "Example: hallboot serve --db hall.db --discover 10.0.0.5:67 --boot 10.0.0.5:4011 --http 10.0.0.5:80 --turns 1000000000000 --server 10.0.0.5 --next 10.0.0.6 --host desk.hall.example --log -",
    options: &[
        DB,
        DISCOVER,
        BOOT,
        HTTP,
        LOOPBACK,
        TURNS,
        ENLIST,
        LOG,
        LOG_TIME,
        LOG_FORMAT,
        LOG_CONNECTIONS,
        BACKUP,
        BACKUP_EVERY,
        BACKUP_KEEP,
    ],
    common: &WITH_PLACE,
};

/// A service of so many turns at the addresses, over the hall in a file, with a log at a path, or at standard error where it is `-`.
#[derive(Drop)]
pub struct Serving {
    pub path: String,
    pub place: Place,
    /// For datagrams to the DHCP server.
    pub discover: SocketAddr,
    /// For datagrams to the boot server.
    pub boot: SocketAddr,
    pub http: SocketAddr,
    /// Whether these are free ports of loopback, one of which the scripts name.
    pub is_loopback: bool,
    pub log: Option<String>,
    pub format: LogFormat,
    /// Whether the log has lines of connections.
    pub logs_connections: bool,
    pub enlists: bool,
    pub turns: u64,
    pub backup: Option<BackupPlan>,
}

/// Where a copy of the hall's file is put, how many seconds it is from one copy to the next, and how many copies before the last one are kept.
#[derive(Drop)]
pub struct BackupPlan {
    pub path: String,
    pub seconds: u64,
    pub kept: u64,
}

// How many seconds it is from one copy to the next where nothing else is said.
const HOUR: u64 = 3_600;

impl BackupPlan {
    fn read(options: &Options<'_>) -> Result<Option<BackupPlan>, Wrong> {
        let seconds = options.value_if(BACKUP_EVERY, |text| count_of(text).filter(|n| *n > 0))?;
        let kept = options.value_if(BACKUP_KEEP, |text| {
            count_of(text).filter(|n| *n <= MAX_KEPT)
        })?;
        if options.is_given(BACKUP) {
            return Ok(Some(BackupPlan {
                path: path(options, BACKUP)?,
                seconds: seconds.unwrap_or(HOUR),
                kept: kept.unwrap_or(0),
            }));
        }
        for row in [BACKUP_EVERY, BACKUP_KEEP] {
            if options.is_given(row) {
                return Err(options.wrong_because(row, "it is given beside --backup"));
            }
        }
        Ok(None)
    }
}

// The port that stands for a free one.
const FREE: u16 = 0;

// The address of a socket: a free one of loopback, where that is asked for.
fn socket(options: &Options<'_>, row: &OptionRow) -> Result<SocketAddr, Wrong> {
    if !options.is_given(LOOPBACK) {
        return options.parse(row);
    }
    if options.is_given(row) {
        return Err(options.wrong_because(row, "it isn't given beside --loopback"));
    }
    Ok(SocketAddr::V4(SocketAddrV4::new(Ipv4Addr::LOCALHOST, FREE)))
}

fn log_format(options: &Options<'_>) -> Result<LogFormat, Wrong> {
    let times = [("seconds", LogFormat::Seconds), ("utc", LogFormat::Utc)];
    let time = options.choice(LOG_TIME, &times)?;
    options.choice(LOG_FORMAT, &[("text", time), ("json", LogFormat::Json)])
}

// Whether an option says yes or no.
fn is_yes(options: &Options<'_>, row: &OptionRow) -> Result<bool, Wrong> {
    options.choice(row, &[("yes", true), ("no", false)])
}

impl Serving {
    pub(crate) fn read(options: &Options<'_>) -> Result<Serving, Wrong> {
        Ok(Serving {
            format: log_format(options)?,
            logs_connections: is_yes(options, LOG_CONNECTIONS)?,
            enlists: is_yes(options, ENLIST)?,
            turns: options.value(TURNS, |text| count_of(text))?,
            discover: socket(options, DISCOVER)?,
            boot: socket(options, BOOT)?,
            http: socket(options, HTTP)?,
            is_loopback: options.is_given(LOOPBACK),
            place: place(options)?,
            backup: BackupPlan::read(options)?,
            log: options.text(LOG).map(|_| owned(options, LOG)).transpose()?,
            path: owned(options, DB)?,
        })
    }

    /// Whether the log stands at standard error in JSON, so that each line there has to be an object.
    pub fn has_json_errors(&self) -> bool {
        self.format == LogFormat::Json && self.log.as_ref().is_some_and(|log| log.as_str() == "-")
    }
}

/// All of it in words, as stored runs compare it.
impl fmt::Display for Serving {
    fn fmt<W: fmt::Write>(&self, f: &mut fmt::Formatter<W>) -> fmt::Result {
        let (path, place, turns) = (self.path.as_str(), &self.place, self.turns);
        let (discover, boot, http) = (self.discover, self.boot, self.http);
        write!(
            f,
            "serve {path}, discover {discover}, boot {boot}, http {http}"
        )?;
        if self.is_loopback {
            write!(f, " of loopback")?;
        }
        let not = if self.enlists { "" } else { "not " };
        write!(f, ", turns {turns}, {not}enlisting")?;
        let (server, next) = (Ipv4Addr::from(place.server()), Ipv4Addr::from(place.next()));
        write!(f, ", server {server}, next {next}, host {}", place.host())?;
        let log = self.log.as_ref().map_or("none", |log| log.as_str());
        let format = match self.format {
            LogFormat::Seconds => "seconds",
            LogFormat::Utc => "utc",
            LogFormat::Json => "json",
        };
        let without = if self.logs_connections {
            ""
        } else {
            " without connections"
        };
        write!(f, ", log {log} in {format}{without}")?;
        match &self.backup {
            Some(backup) => {
                write!(f, ", backup {} every {}", backup.path, backup.seconds)?;
                if backup.kept > 0 {
                    write!(f, ", {} kept", backup.kept)?;
                }
                Ok(())
            }
            None => Ok(()),
        }
    }
}

/// Whether a command line has its log at standard error in JSON.
pub fn has_json_errors(options: &Options<'_>) -> bool {
    options.text(LOG) == Some("-") && options.text(LOG_FORMAT) == Some("json")
}
