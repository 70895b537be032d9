//! Acts over a hall's files, of which one stops. After it the files are opened again: they have the hall before the act that
//! wasn't answered or the hall after it, all acts before it are kept, and that act, played again, is answered as it was without
//! a stop, or as its repeat.
use crate::acts::acts_of;
use crate::disks::{Disks, Image, Which, close, connect, crash};
use crate::tables::Tables;
use cases::{CaseFault, Out, Played, Player};
use sqlite::{Alter, Connection, FileStore, Files};
use sqlite_disk::Disk;
use std::alloc::Global;

const MAX_TURNS: u64 = 2_000;

/// Acts that are played over one connection, and what each of them does over files that don't stop, in their order.
#[derive(Drop)]
pub struct Run<'a> {
    alloc: Global,
    /// What the files hold before them.
    image: &'a Image,
    /// The act by which halls are compared.
    look: &'a str,
    /// What it prints of the hall before them.
    before: String,
    acts: Vec<&'a str>,
    pub answers: Vec<String>,
    /// The answers to their repeats.
    pub repeats: Vec<String>,
    /// What a look at the hall after each prints.
    halls: Vec<String>,
}

/// What came of one stop.
#[derive(Clone, Copy, PartialEq, Eq)]
pub struct Stopped {
    /// How many acts were answered.
    pub answered: usize,
    /// Whether it left what it may.
    pub is_right: bool,
    // Whether nothing stopped.
    is_ended: bool,
}

/// What was seen of stops at ever later moments.
#[derive(Clone, Copy, PartialEq, Eq)]
pub enum Seen {
    /// Each left what it may, and at last nothing stopped.
    Right,
    /// The first left something else, or nothing stopped at all.
    Wrong(u64),
}

impl Seen {
    /// Prints it after what it is about.
    pub fn print(self, out: &mut Out, what: &str) {
        out.push(what);
        match self {
            Seen::Right => out.push(": right\n"),
            Seen::Wrong(amount) => out.show(format_args!(": wrong after {amount}\n")),
        }
    }
}

/// What came of acts over files.
#[derive(Drop)]
struct Outcome {
    /// How many were answered as they were to be, and the last answer.
    answered: usize,
    answer: String,
    is_closed: bool,
}

// Acts one after the other, up to the first that isn't answered so, where answers are given.
fn play_acts<S: Alter + Drop>(
    alloc: Global,
    tables: &mut Tables<S>,
    acts: &[&str],
    answers: &[String],
    outcome: &mut Outcome,
) -> Played {
    for (at, act) in acts.iter().enumerate() {
        outcome.answer = tables.came(alloc, act)?;
        if let Some(answer) = answers.get(at)
            && answer.as_str() != outcome.answer.as_str()
        {
            return Ok(());
        }
        outcome.answered = at.saturating_add(1);
    }
    Ok(())
}

fn over_connection<D: Disk + Drop>(
    alloc: Global,
    conn: Connection<FileStore<D>>,
    acts: &[&str],
    answers: &[String],
    outcome: &mut Outcome,
) -> Option<Files<D>> {
    let mut tables = Tables::new(alloc, conn);
    let _ = play_acts(alloc, &mut tables, acts, answers, outcome);
    let (is_closed, files) = close(tables.into_connection()?);
    outcome.is_closed = is_closed;
    Some(files)
}

fn over_files<D: Disk + Drop>(
    alloc: Global,
    files: Files<D>,
    acts: &[&str],
    answers: &[String],
    outcome: &mut Outcome,
) -> Option<Files<D>> {
    match connect(alloc, files) {
        Ok(conn) => over_connection(alloc, conn, acts, answers, outcome),
        Err(files) => Some(files),
    }
}

// Plays acts over files, and closes them.
fn play_in(
    alloc: Global,
    files: Disks,
    acts: &[&str],
    answers: &[String],
) -> Result<(Outcome, Disks), CaseFault> {
    let mut outcome = Outcome {
        answered: 0,
        answer: String::new(alloc),
        is_closed: false,
    };
    let files = over_files(alloc, files, acts, answers, &mut outcome).ok_or(CaseFault::Io)?;
    Ok((outcome, files))
}

// The answer to an act over files that don't stop, and what they hold then.
fn played(alloc: Global, image: &Image, act: &str) -> Result<(String, Image), CaseFault> {
    let files = image.disks(alloc, Which::Log, u64::MAX)?;
    let (outcome, files) = play_in(alloc, files, &[act], &[])?;
    Ok((outcome.answer, Image::of(alloc, &files)?))
}

fn answer_of(alloc: Global, image: &Image, act: &str) -> Result<String, CaseFault> {
    let (answer, _) = played(alloc, image, act)?;
    Ok(answer)
}

impl<'a> Run<'a> {
    /// What acts do over files that hold this, and what they hold after them. ` && ` stands between two acts.
    pub fn new(
        alloc: Global,
        image: &'a Image,
        look: &'a str,
        acts: &'a str,
    ) -> Result<(Run<'a>, Image), CaseFault> {
        let mut run = Run {
            alloc,
            image,
            look,
            before: answer_of(alloc, image, look)?,
            acts: Vec::new(alloc),
            answers: Vec::new(alloc),
            repeats: Vec::new(alloc),
            halls: Vec::new(alloc),
        };
        let mut then = image.copy(alloc)?;
        for act in acts_of(alloc, acts)? {
            then = run.push(&then, act)?;
        }
        Ok((run, then))
    }

    // Adds an act, played over files that don't stop, and gives what they hold after it.
    fn push(&mut self, image: &Image, act: &'a str) -> Result<Image, CaseFault> {
        let (answer, then) = played(self.alloc, image, act)?;
        self.acts.push(act)?;
        self.answers.push(answer)?;
        self.repeats.push(answer_of(self.alloc, &then, act)?)?;
        self.halls.push(answer_of(self.alloc, &then, self.look)?)?;
        Ok(then)
    }

    // What a look at the hall after so many acts prints.
    fn hall_after(&self, answered: usize) -> &str {
        match answered.checked_sub(1).and_then(|at| self.halls.get(at)) {
            Some(hall) => hall.as_str(),
            None => self.before.as_str(),
        }
    }

    // Whether files that a crash left have the hall after so many acts, or after one more, and go on as they do without a stop.
    fn is_right(&self, image: &Image, answered: usize) -> Result<bool, CaseFault> {
        let hall = answer_of(self.alloc, image, self.look)?;
        let is_before = hall.as_str() == self.hall_after(answered);
        if answered == self.acts.len() {
            return Ok(is_before);
        }
        if hall.as_str() == self.hall_after(answered.saturating_add(1)) {
            return self.is_answered(image, answered, self.repeats.as_slice());
        }
        Ok(is_before && self.is_answered(image, answered, self.answers.as_slice())?)
    }

    // Whether an act over files that hold this is answered as these answers say, and leaves the hall after it.
    fn is_answered(&self, image: &Image, at: usize, answers: &[String]) -> Result<bool, CaseFault> {
        let (Some(act), Some(answer)) = (self.acts.get(at), answers.get(at)) else {
            return Ok(false);
        };
        let (found, then) = played(self.alloc, image, act)?;
        let hall = answer_of(self.alloc, &then, self.look)?;
        let is_after = hall.as_str() == self.hall_after(at.saturating_add(1));
        Ok(found.as_str() == answer.as_str() && is_after)
    }

    /// What came of a stop of one of the files after so many calls.
    pub fn stop(&self, which: Which, calls: u64) -> Result<Stopped, CaseFault> {
        let files = self.image.disks(self.alloc, which, calls)?;
        let (acts, answers) = (self.acts.as_slice(), self.answers.as_slice());
        let (outcome, files) = play_in(self.alloc, files, acts, answers)?;
        let (answered, is_closed) = (outcome.answered, outcome.is_closed);
        drop(outcome);
        let (synced, partly) = crash(self.alloc, files, calls)?;
        let is_right = self.is_right(&synced, answered)? && self.is_right(&partly, answered)?;
        Ok(Stopped {
            answered,
            is_right,
            is_ended: is_closed && answered == self.acts.len(),
        })
    }

    /// Stops ever later, until nothing stops. Where nothing stops at the first moment, that is wrong.
    pub fn stop_at_each(&self, which: Which, step: u64) -> Result<Seen, CaseFault> {
        for turn in 0..MAX_TURNS {
            let calls = step.saturating_mul(turn);
            let stopped = self.stop(which, calls)?;
            if !stopped.is_right || (stopped.is_ended && turn == 0) {
                return Ok(Seen::Wrong(calls));
            }
            if stopped.is_ended {
                return Ok(Seen::Right);
            }
        }
        Ok(Seen::Wrong(u64::MAX))
    }
}
