//! What came, compared with what must come.
use crate::fault::CaseFault;
use crate::lines::CaseFile;
use crate::printing::Out;
use std::alloc::Global;

/// How many acts were compared, and a report of those of which something else came.
#[derive(Drop)]
pub struct Comparison {
    alloc: Global,
    cases: u64,
    acts: u64,
    differences: u64,
    report: Out,
}

// Whether the lines after an act are those of what came.
fn is_as_wanted(file: &CaseFile<'_>, at: usize, came: &str) -> bool {
    let mut next = at.saturating_add(1);
    for line in came.lines() {
        if file.wanted(next) != Some(line) {
            return false;
        }
        next = next.saturating_add(1);
    }
    file.wanted(next).is_none()
}

// Adds a line to the report, the first of a part after its word.
fn push_line(report: &mut Out, word: &str, is_first: bool, line: &str) {
    report.push(if is_first { word } else { "         " });
    report.line(line);
}

impl Comparison {
    /// Nothing is compared yet.
    pub fn new(alloc: Global) -> Comparison {
        Comparison {
            alloc,
            cases: 0,
            acts: 0,
            differences: 0,
            report: Out::new(alloc),
        }
    }

    /// Where memory comes from.
    pub fn alloc(&self) -> Global {
        self.alloc
    }

    /// Begins a file.
    pub fn begin(&mut self, file: &CaseFile<'_>) {
        self.cases = self.cases.saturating_add(file.cases());
    }

    /// Compares what came of the act at a place with what must come of it.
    pub fn compare(&mut self, file: &CaseFile<'_>, at: usize, came: &str) {
        self.acts = self.acts.saturating_add(1);
        if is_as_wanted(file, at, came) {
            return;
        }
        self.differences = self.differences.saturating_add(1);
        let (name, line, case) = (file.name, at.saturating_add(1), file.case(at));
        self.report
            .show(format_args!("{name}, line {line}, {case}\n  "));
        self.report.line(file.act(at).unwrap_or(""));
        let first = at.saturating_add(1);
        for next in first..file.lines.len() {
            let Some(wanted) = file.wanted(next) else {
                break;
            };
            push_line(&mut self.report, "  wanted ", next == first, wanted);
        }
        for (place, line) in came.lines().enumerate() {
            push_line(&mut self.report, "  came   ", place == 0, line);
        }
    }

    /// What was reported since the last time.
    pub fn take_report(&mut self) -> Result<String, CaseFault> {
        self.report.take()
    }

    /// `N cases, N lines, D differences`; the lines are those of acts.
    pub fn counts(&self) -> Result<String, CaseFault> {
        let mut out = Out::new(self.alloc);
        let (cases, acts, differences) = (self.cases, self.acts, self.differences);
        out.show(format_args!("{cases} cases, {acts} lines, {differences} differences"));
        out.into_text()
    }
}
