//! Requests from readers to writers, which may fail.
use crate::hall::Hall;
use crate::readings::octets_of;
use crate::reports::push_end;
use cases::{CaseFault, Out, Played, Short, Slow, first, number};
use desk_operations::request;
use hall_desk::{Arrival, Input};
use hall_http::Noted;
use hall_report::Fault;
use hall_store::HallStore;
use play_log::{arrival, push_response};

// An answer has fewer octets.
const MAX_PLACES: usize = 10_000;

/// How a reader gives its octets: so many a read at most, and the read that fails, the first being 1.
type Reads = (usize, Option<u64>);

const ALL: Reads = (usize::MAX, None);

/// How a request was served, and the octets that were written for it.
type Ended = Result<(Result<(), Fault>, Vec<u8>), CaseFault>;

// The arrival of a request.
fn request_of(words: &str, out: &Out) -> Result<Arrival, CaseFault> {
    let arrival = arrival(out.alloc(), words)?;
    match &arrival.input {
        Input::Request(_) => Ok(arrival),
        _ => Err(CaseFault::Form),
    }
}

// A writer that takes all.
fn roomy(out: &Out) -> Short {
    Short::new(Vec::new(out.alloc()), usize::MAX)
}

impl<S: HallStore + Drop> Hall<S> {
    // Serves a request to a writer.
    fn served(&mut self, arrival: &Arrival, reads: Reads, writer: Short, out: &Out) -> Ended {
        let (step, fails_at) = reads;
        let mut reader = Noted::new(Slow::new(octets_of(&arrival.input), step, fails_at));
        let mut writer = Noted::new(writer);
        let mut desk = self.take_desk(out.alloc())?;
        let (alloc, moment, fresh) = (out.alloc(), arrival.moment, arrival.fresh);
        let end = request(alloc, &mut desk, &mut reader, &mut writer, moment, fresh);
        self.put_back(desk.into_store());
        Ok((end, writer.into_inner().taken))
    }

    // Serves a request, and prints its response, or the fault's name.
    fn serve_with(&mut self, words: &str, reads: Reads, writer: Short, out: &mut Out) -> Played {
        let arrival = request_of(words, out)?;
        let (end, octets) = self.served(&arrival, reads, writer, out)?;
        if end.is_ok() {
            push_response(out, octets.as_slice())?;
        }
        push_end(out, end)
    }

    /// Serves a request.
    pub(crate) fn serve(&mut self, words: &str, out: &mut Out) -> Played {
        self.serve_with(words, ALL, roomy(out), out)
    }

    /// An import or a request, `ROOM ACT`, by a writer that takes so many octets and then fails.
    pub(crate) fn short(&mut self, words: &str, out: &mut Out) -> Played {
        let (octets, act) = first(words);
        let room = number(octets)? as usize;
        match act.strip_prefix("import ") {
            Some(words) => self.import(room, words, out),
            None => self.serve_with(act, ALL, Short::new(Vec::new(out.alloc()), room), out),
        }
    }

    /// A request, `ROOM REQUEST`, by a writer that takes so many octets and then none.
    pub(crate) fn full(&mut self, words: &str, out: &mut Out) -> Played {
        let (octets, act) = first(words);
        let room = number(octets)? as usize;
        self.serve_with(act, ALL, Short::full(Vec::new(out.alloc()), room), out)
    }

    /// A request, `STEP CALL REQUEST`, by a reader that gives so many octets a read at most, and fails at that read, or at none where CALL is
    /// `-`.
    pub(crate) fn slow(&mut self, words: &str, out: &mut Out) -> Played {
        let (step, words) = first(words);
        let (call, act) = first(words);
        let reads = (number(step)? as usize, call.parse::<u64>().ok());
        self.serve_with(act, reads, roomy(out), out)
    }

    /// Serves a request from a reader of one octet a read that fails at its first read, at its second and so on, up to that of the last
    /// octet. Prints how many failed and had no answer.
    pub(crate) fn fail_reads(&mut self, words: &str, out: &mut Out) -> Played {
        let arrival = request_of(words, out)?;
        let mut failed = 0u64;
        for read in 1..=octets_of(&arrival.input).len() as u64 {
            let (end, octets) = self.served(&arrival, (1, Some(read)), roomy(out), out)?;
            if end == Err(Fault::Io) && octets.is_empty() {
                failed = failed.saturating_add(1);
            } else {
                out.show(format_args!("not at {read}, "));
            }
        }
        out.show(format_args!("{failed} failed"));
        Ok(())
    }

    /// Serves a request to a writer that fails before the first octet, after it and so on, until it takes all. Prints how many failed, and
    /// the answer; and where a writer that failed had taken other octets than those of the answer.
    pub(crate) fn fail_writes(&mut self, words: &str, out: &mut Out) -> Played {
        let arrival = request_of(words, out)?;
        let mut front = Vec::new(out.alloc());
        for room in 0..MAX_PLACES {
            let writer = Short::new(Vec::new(out.alloc()), room);
            let (end, octets) = self.served(&arrival, ALL, writer, out)?;
            if !octets.starts_with(front.as_slice()) {
                out.show(format_args!("other octets before {room}, "));
            }
            if end == Err(Fault::Io) && octets.len() == room {
                front = octets;
                continue;
            }
            out.show(format_args!("{room} failed, then "));
            push_response(out, octets.as_slice())?;
            return push_end(out, end);
        }
        Err(CaseFault::Form)
    }
}
