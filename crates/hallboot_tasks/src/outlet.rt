//! Where the lines of a log go. A stream that takes no octets now, as a pipe that nobody reads, isn't waited for.
use desk_lines::lost_line;
use hall_report::{Fault, LogFormat};
use hall_types::Moment;
use hallboot_words::fault_of;
use mio::event::Events;
use mio::unix::SourceFd;
use mio::{Interest, Poll, Token};
use std::alloc::{AllocError, Global};
use std::fs::{File, OpenOptions};
use std::io;
use std::io::Write;
use std::os::fd::{AsRawFd, RawFd};
use std::time::Duration;

/// A text of a log, or want of memory for it.
pub type Text = Result<String, AllocError>;

// A pipe that takes octets takes so many at once (PIPE_BUF of Linux).
const PIECE: usize = 4_096;

const TOKEN: Token = Token(0);

#[derive(Drop)]
enum Stream {
    Errors(io::Stderr),
    File(File),
}

impl Stream {
    fn fd(&self) -> RawFd {
        match self {
            Stream::Errors(stream) => stream.as_raw_fd(),
            Stream::File(file) => file.as_raw_fd(),
        }
    }

    fn is_written(&mut self, octets: &[u8]) -> bool {
        match self {
            Stream::Errors(stream) => stream.write_all(octets).is_ok(),
            Stream::File(file) => file.write_all(octets).is_ok(),
        }
    }
}

/// A stream that lines are written to. Lines that couldn't be written are counted, and the next one that can be written is preceded
/// by a line with their number.
#[derive(Drop)]
pub(crate) struct Outlet {
    stream: Stream,
    // Says whether the stream takes octets now. There is none for a file of a disk, which always does.
    poll: Option<Poll>,
    events: Events,
    format: LogFormat,
    lost: u64,
}

// What watches a stream, where the system can.
fn watched(rt: &HostRuntime, stream: &Stream) -> io::Result<Option<Poll>> {
    let poll = Poll::new(rt)?;
    let fd = stream.fd();
    let mut source = SourceFd(&fd);
    let registered = poll
        .registry()
        .register(&mut source, TOKEN, Interest::WRITABLE);
    Ok(registered.is_ok().then_some(poll))
}

impl Outlet {
    fn over(rt: &HostRuntime, stream: Stream, format: LogFormat) -> Result<Outlet, Fault> {
        Ok(Outlet {
            poll: watched(rt, &stream).map_err(|error| fault_of(&error))?,
            stream,
            events: Events::with_capacity(rt.alloc(), 1)?,
            format,
            lost: 0,
        })
    }

    /// Standard error, where the path is `-`, or a file to which lines are added, which is made where there is none, in this format.
    pub(crate) fn at(rt: &HostRuntime, path: &str, format: LogFormat) -> Result<Outlet, Fault> {
        if path == "-" {
            return Outlet::over(rt, Stream::Errors(rt.stderr()), format);
        }
        let file = OpenOptions::new().append(true).create(true).open(rt, path);
        let file = file.map_err(|error| fault_of(&error))?;
        Outlet::over(rt, Stream::File(file), format)
    }

    /// How lines are written.
    pub(crate) fn format(&self) -> LogFormat {
        self.format
    }

    /// How many lines were lost since the last one that was written.
    pub(crate) fn lost(&self) -> u64 {
        self.lost
    }

    // Whether the stream takes octets now. It is registered again, since the system tells once only that it does.
    fn is_ready(&mut self) -> bool {
        let fd = self.stream.fd();
        let Some(poll) = &mut self.poll else {
            return true;
        };
        let mut source = SourceFd(&fd);
        let registered = poll
            .registry()
            .reregister(&mut source, TOKEN, Interest::WRITABLE);
        registered.is_ok()
            && poll.poll(&mut self.events, Some(Duration::ZERO)).is_ok()
            && !self.events.is_empty()
    }

    // Writes a text, and says whether all of it was written.
    fn is_written(&mut self, text: Text) -> bool {
        let Ok(text) = text else {
            return false;
        };
        for piece in text.as_bytes().chunks(PIECE) {
            if !self.is_ready() || !self.stream.is_written(piece) {
                return false;
            }
        }
        true
    }

    /// Writes a line, or what there was no memory for, after one that says how many were lost before it, if any were.
    pub(crate) fn write(&mut self, alloc: Global, moment: Option<Moment>, line: Text) {
        if self.lost > 0 {
            // What was written of the last of them ends before it.
            let lost = lost_line(alloc, self.format, moment, self.lost);
            let lost = lost.and_then(|lost| format!(in alloc; "\n{lost}"));
            if self.is_written(lost) {
                self.lost = 0;
            }
        }
        if self.lost > 0 || !self.is_written(line) {
            self.lost = self.lost.saturating_add(1);
        }
    }
}
