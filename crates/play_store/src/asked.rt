//! What desks asked of their stores, and in which ways they were asked.
use hall_desk::Input;
use hall_store::{Call, Probe};

/// The calls that read a whole table, or the counts.
const LISTS: [Call; 4] = [
    Call::Machines,
    Call::Interfaces,
    Call::WaitingOrders,
    Call::Counts,
];

/// How often.
#[derive(Clone, Copy, Default)]
pub struct Asked {
    /// The maximum of the reads of one script request.
    pub reads_of_script: u64,
    /// The lists read for datagrams, script requests, reports, answers to orders and commands.
    pub lists: u64,
    /// The runs, and the arrivals that they answered.
    pub runs: u64,
    pub arrivals: u64,
    /// The calls of stores that failed.
    pub failed: u64,
}

/// Adds one to a count.
pub(crate) fn count(count: &mut u64) {
    *count = count.saturating_add(1);
}

impl Asked {
    /// Notes a run that answered so many arrivals.
    pub(crate) fn note_run(&mut self, arrivals: usize) {
        count(&mut self.runs);
        self.arrivals = self.arrivals.saturating_add(arrivals as u64);
    }

    /// Notes what was asked for one arrival.
    pub(crate) fn note<S>(&mut self, input: &Input, probe: &Probe<S>) {
        if let Input::Request(request) = input {
            let octets = request.octets();
            if octets.starts_with(b"GET /machines") || octets.starts_with(b"GET /orders") {
                return;
            }
            if octets.starts_with(b"GET /ipxe/") {
                let reads = probe.calls().saturating_sub(probe.calls_of(Call::Apply));
                self.reads_of_script = self.reads_of_script.max(reads);
            }
        }
        for call in LISTS {
            self.lists = self.lists.saturating_add(probe.calls_of(call));
        }
    }
}
