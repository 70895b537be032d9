//! A hall over a store, and what is done with it.
use crate::asked::{Asked, count};
use crate::reports::rows;
use cases::{CaseFault, Out, Played, Player, first, number};
use hall_desk::Desk;
use hall_store::{HallStore, Probe};
use play_log::{is_arrival, place};
use std::alloc::Global;

// An act asks less of its store.
pub(crate) const MAX_CALLS: u64 = 1_000;

/// How arrivals are answered.
#[derive(Clone, Copy, PartialEq, Eq)]
pub enum Way {
    /// Each by itself.
    Alone,
    /// Those that stand together by one run of a desk.
    Together,
    /// Each by itself, a request from a reader to a writer.
    Served,
    /// Each by itself, the event of a client's frame, of a request or of a quiet moment by one step of a desk.
    Stepped,
    /// Each by itself, over the store that fails at its first call, then at its second and so on, until it isn't refused.
    Failing,
}

/// What is looked at, and what was there at the last look.
#[derive(Drop)]
pub struct Looked {
    pub(crate) watched: String,
    pub(crate) seen: String,
}

impl Looked {
    pub fn nothing(alloc: Global) -> Looked {
        Looked {
            watched: String::new(alloc),
            seen: String::new(alloc),
        }
    }
}

/// A hall over a store.
#[derive(Drop)]
pub struct Hall<S> {
    // Absent while a desk has it.
    store: Option<S>,
    way: Way,
    fails_at: Option<u64>,
    // How many calls there were of the store at the last act.
    calls: u64,
    pub asked: Asked,
    pub(crate) looked: Looked,
}

/// Whether an act was answered as one that counts as not having come.
pub fn is_refused(act: &str, answer: &str) -> bool {
    answer.starts_with("503 ")
        || answer == "unavailable"
        || (answer == "silence" && act.starts_with("frame "))
}

impl<S: HallStore + Drop> Hall<S> {
    /// A hall whose arrivals are answered in this way.
    pub fn new(store: S, way: Way, asked: Asked, looked: Looked) -> Hall<S> {
        Hall {
            store: Some(store),
            way,
            fails_at: None,
            calls: 0,
            asked,
            looked,
        }
    }

    /// The store, if nothing has it now, and what was looked at.
    pub fn into_parts(self) -> (Option<S>, Looked) {
        (self.store, self.looked)
    }

    /// The store that a fault has shut, so that it can't be read any more. It has to be opened again and put back.
    pub fn take_shut(&mut self) -> Option<S> {
        self.store.take_if(|store| store.numbers().is_err())
    }

    /// Puts a store back that was opened again.
    pub fn put_opened(&mut self, store: S) {
        self.store = Some(store);
    }

    /// The store, which may fail at a call. It has to be put back.
    pub(crate) fn take(&mut self) -> Result<Probe<S>, CaseFault> {
        let store = self.store.take().ok_or(CaseFault::Unavailable)?;
        Ok(Probe::new(store, self.fails_at))
    }

    pub(crate) fn put_back(&mut self, probe: Probe<S>) {
        self.calls = probe.calls();
        self.store = Some(probe.into_inner());
    }

    pub(crate) fn way(&self) -> Way {
        self.way
    }

    /// Has the store fail at a call, the first being 1, or at none.
    pub(crate) fn fail_at(&mut self, call: Option<u64>) {
        self.fails_at = call;
    }

    /// How many calls there were of the store at the last act.
    pub(crate) fn calls(&self) -> u64 {
        self.calls
    }

    /// A desk over the store, which has to be put back.
    pub(crate) fn take_desk(&mut self, alloc: Global) -> Result<Desk<Probe<S>>, CaseFault> {
        let place = place(alloc)?;
        Ok(Desk::new(self.take()?, place))
    }

    // Plays an act over the store as it is.
    fn play_over(&mut self, act: &str, out: &mut Out) -> Played {
        let (kind, words) = first(act);
        match kind {
            "read" => self.read(words, out),
            "watch" => self.watch(words, out),
            "look" => self.look(words, out),
            "apply" => self.apply(words, out),
            "log" | "log_object" | "log_unlisted" => self.log(kind, words, out),
            "rows" => rows(words, out),
            "import" => self.import(usize::MAX, words, out),
            "adopt" => self.adopt(words, out),
            "group" => self.group(words, out),
            "together" => self.together(words, out),
            "serve" => self.serve(words, out),
            "short" => self.short(words, out),
            "full" => self.full(words, out),
            "slow" => self.slow(words, out),
            "cuts" => self.cuts(words, out),
            "reads_fail" => self.fail_reads(words, out),
            "writes_fail" => self.fail_writes(words, out),
            _ if !is_arrival(kind) => self.report(kind, words, out),
            _ if self.way == Way::Stepped => self.step(act, out),
            "frame" | "quiet" => self.arrive(act, out),
            _ if self.way == Way::Served => self.serve(act, out),
            _ => self.arrive(act, out),
        }
    }

    // A store that can't answer is no fault of the act.
    fn play_once(&mut self, act: &str, out: &mut Out) -> Played {
        match self.play_over(act, out) {
            Err(CaseFault::Unavailable) => {
                out.push("unavailable");
                Ok(())
            }
            played => played,
        }
    }

    // Plays an act over the store that fails at one of its calls.
    fn play_failing(&mut self, call: u64, act: &str, out: &mut Out) -> Played {
        self.fails_at = Some(call);
        let played = self.play_once(act, out);
        self.fails_at = None;
        played
    }

    // Plays an act over the store that fails at its first call, at its second and so on, until it isn't refused or has fewer calls: how many
    // failed, and the last answer.
    fn play_each(&mut self, alloc: Global, act: &str) -> Result<(u64, String), CaseFault> {
        for call in 1..MAX_CALLS {
            let mut answer = Out::new(alloc);
            self.play_failing(call, act, &mut answer)?;
            let answer = answer.into_text()?;
            if self.calls < call || !is_refused(act, answer.as_str()) {
                return Ok((call.saturating_sub(1), answer));
            }
            count(&mut self.asked.failed);
        }
        Err(CaseFault::Form)
    }
}

impl<S: HallStore + Drop> Player for Hall<S> {
    fn play(&mut self, act: &str, out: &mut Out) -> Played {
        let (kind, words) = first(act);
        match kind {
            "failing" => {
                let (call, act) = first(words);
                self.play_failing(number(call)?, act, out)
            }
            "each" => {
                let (calls, answer) = self.play_each(out.alloc(), words)?;
                out.show(format_args!("{calls} refused, then {answer}"));
                Ok(())
            }
            _ if self.way == Way::Failing && is_arrival(kind) => {
                let (_, answer) = self.play_each(out.alloc(), act)?;
                out.push(answer.as_str());
                Ok(())
            }
            _ => self.play_once(act, out),
        }
    }
}
