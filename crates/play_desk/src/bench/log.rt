//! The log of a benchmark.
use super::calls::{Call, parse_call};
use cases::CaseFault;
use hall_desk::Arrival;
use hall_types::{Digest, Name};
use play_log::{admin, arrival};
use std::alloc::Global;
use std::io::{BufRead, BufReader, Read};

// The line after which stands what is measured.
const ROUNDS: &str = "== rounds";

/// A log, parsed.
#[derive(Drop)]
pub struct Log {
    pub admin: Name,
    pub digest: Digest,
    /// The lines of a new hall.
    pub hall: Vec<String>,
    pub arrivals: Vec<Arrival>,
    pub calls: Vec<Call>,
}

// Adds what a line after `== rounds` measures.
fn add_round(alloc: Global, log: &mut Log, line: &str) -> Result<(), CaseFault> {
    match line.strip_prefix("call ") {
        Some(words) => log.calls.push(parse_call(alloc, words)?)?,
        None => log.arrivals.push(arrival(alloc, line)?)?,
    }
    Ok(())
}

// Adds the lines after the first, in their order.
fn add_lines(alloc: Global, log: &mut Log, lines: Vec<String>) -> Result<(), CaseFault> {
    let mut is_round = false;
    for line in lines.into_iter().skip(1) {
        if is_round {
            add_round(alloc, log, line.as_str())?;
        } else if line.as_str() == ROUNDS {
            is_round = true;
        } else {
            log.hall.push(line)?;
        }
    }
    Ok(())
}

fn lines_of<R: Read + Drop>(alloc: Global, reader: R) -> Result<Vec<String>, CaseFault> {
    let reader = BufReader::new(alloc, reader).map_err(|_| CaseFault::Memory)?;
    let mut lines = Vec::new(alloc);
    for line in reader.lines(alloc) {
        lines.push(line?)?;
    }
    Ok(lines)
}

/// Reads a log to its end.
pub fn read<R: Read + Drop>(alloc: Global, reader: R) -> Result<Log, CaseFault> {
    let lines = lines_of(alloc, reader)?;
    let first = lines.first().ok_or(CaseFault::Form)?;
    let (admin, digest) = admin(first.as_str())?;
    let mut log = Log {
        admin,
        digest,
        hall: Vec::new(alloc),
        arrivals: Vec::new(alloc),
        calls: Vec::new(alloc),
    };
    add_lines(alloc, &mut log, lines)?;
    Ok(log)
}
