//! Lines of logs: arrivals that are played, and what a service notes.
use boot_desk::{FrameView, frame};
use cases::{CaseFault, Out, Played, first, halves, number, parsed};
use desk_lines::{
    Backup, Failures, arrival_text, backup_line, lost_line, moment_text, unstamped_line,
};
use hall_desk::{Account, Answer, Arrival, Came, Notes};
use hall_report::LogFormat;
use hall_types::Port;
use hallboot_tasks::turn_line;
use play_log::{arrival, client_of, numbers};
use serve_sockets::{Close, Handover, Kind, Said, Turn};
use std::net::{IpAddr, Ipv4Addr, SocketAddr};

/// Whether words are an arrival's: `taken`, or the fault.
pub fn arrival_of(rest: &str, out: &mut Out) -> Played {
    arrival(out.alloc(), rest)?;
    out.push("taken");
    Ok(())
}

fn formatted(rest: &str) -> Result<(LogFormat, &str), CaseFault> {
    match first(rest) {
        ("seconds", words) => Ok((LogFormat::Seconds, words)),
        ("utc", words) => Ok((LogFormat::Utc, words)),
        ("json", words) => Ok((LogFormat::Json, words)),
        _ => Err(CaseFault::Form),
    }
}

// A datagram of two octets from 192.0.2.9:68 whose answer couldn't be sent, connections from there, a quiet moment.
fn turn_of(word: &str) -> Result<Turn, CaseFault> {
    let from = SocketAddr::new(IpAddr::V4(Ipv4Addr::new(192, 0, 2, 9)), 68);
    let instead_of = Some(from);
    let closed = |cause| Turn::Closed { from, cause };
    let handed = |kind, from, len| Handover {
        kind,
        from,
        len,
        said: Said::Silence,
    };
    match word {
        "unsent" => Ok(Turn::Unsent(handed(Kind::Datagram(Port::Boot), Some(from), 2))),
        "late" => Ok(closed(Close::Late)),
        "crowded" => Ok(closed(Close::Crowded)),
        "accepted" => Ok(Turn::Accepted { from, instead_of }),
        "quiet" => Ok(Turn::Handed(handed(Kind::Quiet, None, 0))),
        "nothing" => Ok(Turn::Nothing),
        _ => Err(CaseFault::Form),
    }
}

fn print_line(line: Option<String>, out: &mut Out) {
    match &line {
        Some(line) => out.escaped(line.as_bytes()),
        None => out.push("none"),
    }
    out.push("\n");
}

fn backup(words: &str) -> Result<Backup, CaseFault> {
    match words.split_once(' ') {
        Some((octets, milliseconds)) => Ok(Backup::Made {
            octets: number(octets)?,
            milliseconds: number(milliseconds)?,
        }),
        None if words == "refused" => Ok(Backup::Refused),
        None => Ok(Backup::Failed),
    }
}

/// A line at the moment 1,790,000,000: of a `turn`, `FORM TURN` or `FORM TURN ARRIVAL`, with the text or the members of its arrival; of a
/// `backup`, `FORM OCTETS MILLISECONDS`, `FORM failed` or `FORM refused`; of so many lines that were `lost`, `FORM COUNT`; `unstamped` of a clock that fails.
pub fn line(kind: &str, rest: &str, out: &mut Out) -> Played {
    let (format, words) = formatted(rest)?;
    let (alloc, now) = (out.alloc(), parsed("1790000000")?);
    let line = match kind {
        "turn" => {
            let (word, text) = first(words);
            let arrival = Some(text).filter(|text| !text.is_empty());
            turn_line(alloc, format, now, &turn_of(word)?, arrival)?
        }
        "backup" => Some(backup_line(alloc, format, Some(now), &backup(words)?)?),
        "lost" => Some(lost_line(alloc, format, Some(now), number(words)?)?),
        _ => Some(unstamped_line(alloc, format)?),
    };
    print_line(line, out);
    Ok(())
}

/// The lines of turns that failed, `FORM MOMENT MOMENT ..`, and `none` for each turn without one.
pub fn failures(rest: &str, out: &mut Out) -> Played {
    let (format, words) = formatted(rest)?;
    let mut failures = Failures::NONE;
    for word in words.split(' ') {
        let line = failures.line(out.alloc(), format, parsed(word)?)?;
        print_line(line, out);
    }
    Ok(())
}

/// A moment in UTC.
pub fn utc(rest: &str, out: &mut Out) -> Played {
    out.push(moment_text(out.alloc(), LogFormat::Utc, parsed(rest)?)?.as_str());
    Ok(())
}

fn print_silence(arrival: &Arrival, view: &FrameView, out: &mut Out) -> Played {
    let (port, client) = client_of(out.alloc(), arrival)?;
    let mut notes = Notes::NONE;
    notes.decision = Some(frame(view, port, &client));
    let came = Came::Client(client);
    let account = Account { came, notes };
    let text = arrival_text(
        out.alloc(),
        arrival.input.what(),
        &Answer::Silence,
        &account,
    );
    drop(account);
    out.push(text?.as_str());
    Ok(())
}

/// What is noted of an unknown client's datagram that got silence, `MACHINES LAST, ARRIVAL`.
pub fn unknown(rest: &str, out: &mut Out) -> Played {
    let (words, words_of_arrival) = halves(rest, ", ")?;
    let (machines, last) = halves(words, " ")?;
    let view = FrameView {
        by_mac: None,
        by_uuid: None,
        machines: number(machines)?,
        numbers: numbers(last)?,
    };
    print_silence(&arrival(out.alloc(), words_of_arrival)?, &view, out)
}
