//! Acts that are played while something stops: a disk, and then memory. `compare KEY NAME ..` says by what halls are compared, as `look` of
//! play_store. `stop CALLS OCTETS ACT && ACT ..` plays acts over a file, from what those before them left: prints what each answers, and its
//! repeat. Then the file's log stops after 0 calls, CALLS calls, twice as many, and so on, until it doesn't stop any more, and after it the
//! file; what that may leave is in play_store's `stops.rt`. Then they are played over SQLite in memory and over the store in memory, where memory
//! ends after 0 octets, OCTETS octets, twice as many, and so on, 32 times as many for SQLite, as its `budgets.rt` says; the store in memory has
//! the hall that the first act `create` makes, and acts that end with `migrate` aren't played over it. `cut CALLS ACT && ACT ..` only has the
//! log stop once, after CALLS calls: prints how many acts were answered, and whether it left what it may. `new` makes the file empty. `halls`
//! prints what either of the halls in memory has.
use crate::halls::begin_hall;
use cases::{CaseFault, Out, Played, Player, first, hold_all_but, number};
use play_store::{Asked, Hall, Image, Run, Tables, Way, Which, play_in_budgets};
use sqlite::{Connection, MemStore};
use std::alloc::Global;
use store_memory::MemoryStore;

// What the acts and their hall need at most while memory ends, in blocks.
const BLOCKS: u32 = 300;

// SQLite needs more memory than the store in memory, so it ends by so many times as many octets.
const TIMES: usize = 32;

/// A file, and halls in memory, over which acts are played while something stops.
#[derive(Drop)]
pub struct Stops {
    image: Image,
    tables: Tables<MemStore>,
    /// Absent before a hall is created.
    hall: Option<Hall<MemoryStore>>,
    look: String,
}

fn tables(alloc: Global) -> Result<Tables<MemStore>, CaseFault> {
    let conn: Result<Connection<MemStore>, _> = Connection::open_in_memory(alloc);
    Ok(Tables::new(alloc, conn.map_err(|_| CaseFault::Memory)?))
}

fn print_answers(run: &Run<'_>, out: &mut Out) {
    for (answer, repeat) in run.answers.iter().zip(run.repeats.as_slice()) {
        let (answer, repeat) = (answer.as_str().trim_end(), repeat.as_str().trim_end());
        out.show(format_args!("{answer}\nagain: {repeat}\n"));
    }
}

impl Stops {
    pub fn new(alloc: Global) -> Result<Stops, CaseFault> {
        Ok(Stops {
            image: Image::empty(alloc),
            tables: tables(alloc)?,
            hall: None,
            look: String::new(alloc),
        })
    }

    // Stops each of the files ever later, while acts are played over them.
    fn stop_disks(&mut self, calls: u64, acts: &str, out: &mut Out) -> Played {
        let alloc = out.alloc();
        let (run, then) = Run::new(alloc, &self.image, self.look.as_str(), acts)?;
        print_answers(&run, out);
        let log = run.stop_at_each(Which::Log, calls)?;
        log.print(out, "the log that stops");
        let file = run.stop_at_each(Which::File, calls)?;
        file.print(out, "the file that stops");
        drop(run);
        self.image = then;
        Ok(())
    }

    // Stops the file's log once, after so many calls, while acts are played.
    fn cut(&mut self, words: &str, out: &mut Out) -> Played {
        let (calls, acts) = first(words);
        let (run, then) = Run::new(out.alloc(), &self.image, self.look.as_str(), acts)?;
        let stopped = run.stop(Which::Log, number(calls)?)?;
        drop(run);
        self.image = then;
        let (answered, is_right) = (stopped.answered, stopped.is_right);
        let left = if is_right { "right" } else { "wrong" };
        out.show(format_args!("{answered} answered, {left}"));
        Ok(())
    }

    fn end_memory(&mut self, octets: usize, acts: &str, out: &mut Out) -> Played {
        let (alloc, look) = (out.alloc(), self.look.as_str());
        let step = octets.saturating_mul(TIMES);
        let seen = play_in_budgets(alloc, &mut self.tables, look, acts, step)?;
        seen.print(out, "memory that ends, SQLite");
        let Some(hall) = &mut self.hall else {
            return Ok(());
        };
        if !acts.ends_with(" migrate") {
            let seen = play_in_budgets(alloc, hall, look, acts, octets)?;
            seen.print(out, "memory that ends, the store in memory");
        }
        Ok(())
    }

    // Plays acts while memory ends, and all that is left of it is held.
    fn stop_memory(&mut self, octets: usize, acts: &str, out: &mut Out) -> Played {
        let held = hold_all_but(out.alloc(), BLOCKS)?;
        let ended = self.end_memory(octets, acts, out);
        drop(held);
        ended
    }

    fn stop(&mut self, words: &str, out: &mut Out) -> Played {
        let (calls, words) = first(words);
        let (octets, acts) = first(words);
        let (calls, octets) = (number(calls)?, number(octets)? as usize);
        self.stop_disks(calls, acts, out)?;
        self.stop_memory(octets, acts, out)?;
        // The store in memory has the hall that the first act makes.
        if let Some(words) = acts.strip_prefix("create ") {
            let hall = begin_hall(out.alloc(), words, Way::Alone, Asked::default());
            self.hall = Some(hall?);
        }
        Ok(())
    }

    fn print_halls(&mut self, out: &mut Out) -> Played {
        let look = self.look.as_str();
        out.line("SQLite:");
        self.tables.play(look, out)?;
        out.line("the store in memory:");
        let hall = self.hall.as_mut().ok_or(CaseFault::Form)?;
        hall.play(look, out)
    }
}

impl Player for Stops {
    fn play(&mut self, act: &str, out: &mut Out) -> Played {
        match first(act) {
            ("new", _) => {
                self.image = Image::empty(out.alloc());
                Ok(())
            }
            ("compare", words) => {
                self.look = format!(in out.alloc(); "look {words}")?;
                Ok(())
            }
            ("stop", words) => self.stop(words, out),
            ("cut", words) => self.cut(words, out),
            ("halls", _) => self.print_halls(out),
            _ => Err(CaseFault::Act),
        }
    }
}
