//! Plays cases of single calls: of the crates below the desk, and of what comes to a desk and goes from it: hardware addresses, frames, clients
//! and the answers to them, words and scripts of iPXE, kinds, values, the life cycle of machines; requests and commands, responses and
//! receipts, the run over one frame, lines of a log, readers and writers that fail. Files `NAME.sockets.cases` are of clients over a service on
//! loopback. What acts say, and what they print, stands at the head of each file of cases.
#![tactic(auto)]

mod answers;
mod decisions;
mod frames;
mod kinds;
mod life;
mod logs;
mod messages;
mod requests;
mod runs;
mod scripts;
mod sockets;
mod texts;
mod values;

use cases::{CaseFault, CaseFile, Comparison, Out, Played, Player, first, play_cases};
use sockets::Hall;
use std::process::ExitCode;

// A call of a crate below the desk.
fn play_lower(kind: &str, rest: &str, out: &mut Out) -> Played {
    match kind {
        "address" => frames::address(rest, out),
        "value" => frames::value(rest, out),
        "joined" | "area" => frames::area(kind, rest, out),
        "write" => frames::written(rest, out),
        "frame" | "client" | "reply" => messages::message(kind, rest, out),
        "cuts" => messages::cuts(rest, out),
        "host" => messages::host(rest, out),
        "word" => scripts::word(rest, out),
        "uri" => scripts::uri(rest, out),
        "characters" => scripts::characters(rest, out),
        "script" => scripts::script(rest, out),
        "echoes" => scripts::echoes(rest, out),
        "known" => kinds::known(rest, out),
        "named" => kinds::named(rest, out),
        "moment" | "number" | "last" | "version" | "boots" => values::value(kind, rest, out),
        "name" => values::name_of(rest, out),
        "compare" => values::compare(rest, out),
        "image" => values::image(rest, out),
        "signals" => life::signals(rest, out),
        "limit" => life::limit(rest, out),
        "kept" => life::kept(rest, out),
        "may" => life::permissions(rest, out),
        "life" => life::life(rest, out),
        "decide" => decisions::decide(rest, out),
        "enlist" => decisions::enlisted(rest, out),
        "text" => texts::text(rest, out),
        _ => Err(CaseFault::Act),
    }
}

/// The calls of the crates below the desk, and those by which something comes to a desk or goes from it.
#[derive(Drop)]
struct Calls<'a> {
    /// What clients are served by, where a file is of them.
    sockets: Hall<'a>,
}

impl Player for Calls<'_> {
    fn play(&mut self, act: &str, out: &mut Out) -> Played {
        let (kind, rest) = first(act);
        match kind {
            "request" => requests::request(rest, out),
            "command" => requests::command(rest, out),
            "decided" => requests::decided(rest, out),
            "prefixes" => requests::prefixes(rest, out),
            "answer" => answers::answered(rest, out),
            "stored" => answers::stored(rest, out),
            "receipt" => answers::receipt(rest, out),
            "run" => runs::run(rest, out),
            "cut" => runs::cut_run(rest, out),
            "input" => runs::input(rest, out),
            "whole" => runs::whole(rest, out),
            "seconds" => runs::seconds(rest, out),
            "arrival" => logs::arrival_of(rest, out),
            "turn" | "backup" | "lost" | "unstamped" => logs::line(kind, rest, out),
            "failures" => logs::failures(rest, out),
            "utc" => logs::utc(rest, out),
            "unknown" => logs::unknown(rest, out),
            "takes" => runs::takes(rest, out),
            "puts" => runs::puts(rest, out),
            _ => play_lower(kind, rest, out),
        }
    }

    fn play_file(&mut self, file: &CaseFile<'_>, comparison: &mut Comparison) -> Played {
        if file.name.ends_with(".sockets.cases") {
            return self.sockets.play_file(file, comparison);
        }
        self.play_acts(file, comparison)
    }
}

fn main(rt: HostRuntime) -> ExitCode {
    let sockets = Hall::new(&rt);
    play_cases(&rt, "play_calls", &mut Calls { sockets })
}
