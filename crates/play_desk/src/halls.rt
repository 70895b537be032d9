//! Halls that cases begin, over a store, and the tables of files.
use cases::{CaseFault, CaseFile, Comparison, Out, Played, Player, first};
use hall_sql::SqlStore;
use hall_store::HallStore;
use hall_types::{Digest, Name};
use play_log::{ADA, admin, is_arrival};
use play_store::{Asked, Fresh, Hall, Looked, Tables, Way, is_refused};
use std::alloc::Global;
use store_memory::MemoryStore;

/// A store over which a new hall can be begun.
pub trait Begun: HallStore + Drop {
    /// A new hall with this administrator.
    fn begin(alloc: Global, name: Name, digest: Digest) -> Result<Self, CaseFault>;

    /// The store opened again over what it has.
    fn again(self, alloc: Global) -> Result<Self, CaseFault>;
}

impl Begun for MemoryStore {
    fn begin(alloc: Global, name: Name, digest: Digest) -> Result<MemoryStore, CaseFault> {
        MemoryStore::create(alloc, name, digest).map_err(|_| CaseFault::Memory)
    }

    fn again(self, _alloc: Global) -> Result<MemoryStore, CaseFault> {
        Ok(self)
    }
}

impl<A: Fresh> Begun for SqlStore<A> {
    fn begin(alloc: Global, name: Name, digest: Digest) -> Result<SqlStore<A>, CaseFault> {
        let conn = A::fresh(alloc)?;
        SqlStore::create(alloc, conn, name, digest).map_err(|_| CaseFault::Memory)
    }

    fn again(self, alloc: Global) -> Result<SqlStore<A>, CaseFault> {
        let conn = self.into_connection().into_store().again(alloc)?;
        SqlStore::open(alloc, conn).map_err(|_| CaseFault::Memory)
    }
}

/// A new hall whose administrator these words are, `ADMIN DIGEST`, and whose arrivals are answered in this way.
pub fn begin_hall<S: Begun>(
    alloc: Global,
    words: &str,
    way: Way,
    asked: Asked,
) -> Result<Hall<S>, CaseFault> {
    let (name, digest) = admin(words)?;
    let store = S::begin(alloc, name, digest)?;
    Ok(Hall::new(store, way, asked, Looked::nothing(alloc)))
}

// What is compared with the answers to arrivals where a run has no memory for them.
const NO_RUN: &str = "out of memory";

// How many arrivals there are up to the first that was refused.
fn count_to_refused(acts: &[&str], answers: &[String]) -> usize {
    let mut answered = acts.iter().zip(answers);
    match answered.position(|(act, answer)| is_refused(act, answer.as_str())) {
        Some(at) => at.saturating_add(1),
        None => acts.len(),
    }
}

/// Halls over stores of one kind, one after the other.
#[derive(Drop)]
pub struct Halls<S> {
    way: Way,
    /// Absent before the first.
    hall: Option<Hall<S>>,
}

impl<S: Begun> Halls<S> {
    /// Halls whose arrivals are answered in this way.
    pub fn new(way: Way) -> Halls<S> {
        Halls { way, hall: None }
    }

    /// What the halls asked of their stores.
    pub fn asked(&self) -> Asked {
        match &self.hall {
            Some(hall) => hall.asked,
            None => Asked::default(),
        }
    }

    fn begin(&mut self, alloc: Global, words: &str) -> Played {
        let words = if words.is_empty() { ADA } else { words };
        self.hall = Some(begin_hall(alloc, words, self.way, self.asked())?);
        Ok(())
    }

    // Opens the store again that a fault has shut, before anything else comes, as a service does. Whether it was shut.
    fn open_again(&mut self, alloc: Global) -> Result<bool, CaseFault> {
        let Some(hall) = &mut self.hall else {
            return Ok(false);
        };
        let Some(store) = hall.take_shut() else {
            return Ok(false);
        };
        hall.put_opened(store.again(alloc)?);
        Ok(true)
    }

    // Answers arrivals by one run, and compares the answers. How many came: all; or, where a fault has shut the store, those up to the first
    // that was refused.
    fn run_some(
        &mut self,
        file: &CaseFile<'_>,
        places: &[usize],
        comparison: &mut Comparison,
    ) -> Result<usize, CaseFault> {
        let alloc = comparison.alloc();
        let acts = places.iter().map(|at| file.act(*at).unwrap_or(""));
        let acts: Vec<&str> = acts.collect(alloc)?;
        let hall = self.hall.as_mut().ok_or(CaseFault::Form)?;
        let Some(answers) = hall.run(alloc, acts.as_slice())? else {
            for at in places {
                comparison.compare(file, *at, NO_RUN);
            }
            return Ok(places.len());
        };
        let came = if self.open_again(alloc)? {
            count_to_refused(acts.as_slice(), answers.as_slice())
        } else {
            places.len()
        };
        for (at, answer) in places.iter().zip(answers.as_slice()).take(came) {
            comparison.compare(file, *at, answer.as_str());
        }
        Ok(came)
    }

    // Answers the arrivals at these places by one run. Where a fault shuts the store, those after the one that was refused come by another run.
    fn run(
        &mut self,
        file: &CaseFile<'_>,
        places: &[usize],
        comparison: &mut Comparison,
    ) -> Played {
        let mut left = places;
        for _ in 0..places.len() {
            if left.is_empty() {
                break;
            }
            let came = self.run_some(file, left, comparison)?;
            left = left.get(came..).unwrap_or(&[]);
        }
        Ok(())
    }
}

impl<S: Begun> Player for Halls<S> {
    fn play(&mut self, act: &str, out: &mut Out) -> Played {
        match (first(act), &mut self.hall) {
            (("new", words), _) => self.begin(out.alloc(), words),
            (_, Some(hall)) => {
                hall.play(act, out)?;
                self.open_again(out.alloc())?;
                Ok(())
            }
            (_, None) => Err(CaseFault::Form),
        }
    }

    fn play_file(&mut self, file: &CaseFile<'_>, comparison: &mut Comparison) -> Played {
        let mut places = Vec::new(comparison.alloc());
        for at in 0..file.lines.len() {
            let Some(act) = file.act(at) else {
                continue;
            };
            if self.way == Way::Together && is_arrival(first(act).0) {
                places.push(at)?;
                continue;
            }
            self.run(file, places.as_slice(), comparison)?;
            places.clear();
            let came = self.came(comparison.alloc(), act)?;
            comparison.compare(file, at, came.as_str());
        }
        self.run(file, places.as_slice(), comparison)
    }
}

/// Files with tables, one after the other.
#[derive(Drop)]
pub struct FileTables<A: Fresh> {
    /// Absent before the first.
    pub tables: Option<Tables<A>>,
}

impl<A: Fresh> Player for FileTables<A> {
    fn play(&mut self, act: &str, out: &mut Out) -> Played {
        if act == "new" {
            self.tables = Some(Tables::new(out.alloc(), A::fresh(out.alloc())?));
            return Ok(());
        }
        let tables = self.tables.as_mut().ok_or(CaseFault::Form)?;
        tables.play(act, out)
    }
}
