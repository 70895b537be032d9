//! What is played of files of cases.
use crate::halls::{Begun, FileTables, Halls};
use crate::stopping::Stops;
use cases::{Comparison, Out, Played, Player, play_named};
use hall_sql::SqlStore;
use play_store::{Asked, Fresh, Made, Way};
use sqlite::FileStore;
use sqlite_disk::{Fuse, Memory};
use store_memory::MemoryStore;

/// What a file's cases are played over.
#[derive(Clone, Copy, PartialEq, Eq)]
enum Kind {
    Halls,
    /// Halls, each arrival by itself only.
    Once,
    /// Halls, arrivals by runs only.
    Runs,
    Tables,
    Stops,
}

fn kind_of(name: &str) -> Kind {
    if name.ends_with(".tables.cases") {
        return Kind::Tables;
    }
    if name.ends_with(".stops.cases") {
        return Kind::Stops;
    }
    if name.ends_with(".once.cases") {
        return Kind::Once;
    }
    if name.ends_with(".runs.cases") {
        return Kind::Runs;
    }
    Kind::Halls
}

/// Files of cases, and what was counted of those that were played.
#[derive(Drop)]
struct Pass<'a> {
    rt: &'a HostRuntime,
    names: &'a [String],
    comparison: Comparison,
}

impl<'a> Pass<'a> {
    fn new(rt: &'a HostRuntime, names: &'a [String]) -> Pass<'a> {
        Pass {
            rt,
            names,
            comparison: Comparison::new(rt.alloc()),
        }
    }

    // Plays the files of a kind.
    fn play<P: Player>(&mut self, kind: Kind, player: &mut P) -> Played {
        let (rt, names) = (self.rt, self.names);
        for name in names {
            if kind_of(name.as_str()) == kind {
                play_named(rt, player, name.as_str(), &mut self.comparison)?;
            }
        }
        Ok(())
    }

    // Prints what was counted, after what was played.
    fn print(&self, what: &str) -> Played {
        let counts = self.comparison.counts()?;
        Ok(print!(self.rt; "{what}: {counts}\n")?)
    }

    // Prints what was counted of halls over a store, and what was asked of it.
    fn print_halls(&self, store: &str, way: Way, asked: Asked) -> Played {
        let (counts, mut out) = (self.comparison.counts()?, Out::new(self.rt.alloc()));
        let (reads, lists, failed) = (asked.reads_of_script, asked.lists, asked.failed);
        let (arrivals, runs) = (asked.arrivals, asked.runs);
        match way {
            Way::Alone => out.show(format_args!(
                "{store}: {counts}, at most {reads} reads of a script request, {lists} lists read but for listings\n"
            )),
            Way::Together => out.show(format_args!(
                "{store}, by runs: {counts}, {arrivals} arrivals in {runs} runs\n"
            )),
            Way::Served => out.show(format_args!("{store}, served: {counts}\n")),
            Way::Stepped => out.show(format_args!("{store}, by steps: {counts}\n")),
            Way::Failing => out.show(format_args!(
                "{store}, each call failing: {counts}, {failed} calls failed\n"
            )),
        }
        let text = out.into_text()?;
        Ok(print!(self.rt; "{text}")?)
    }
}

// Plays halls over stores of one kind in one way.
fn play_way<S: Begun>(rt: &HostRuntime, names: &[String], store: &str, way: Way) -> Played {
    let mut pass = Pass::new(rt, names);
    let mut halls: Halls<S> = Halls::new(way);
    pass.play(Kind::Halls, &mut halls)?;
    if way == Way::Alone {
        pass.play(Kind::Once, &mut halls)?;
    }
    if way == Way::Together {
        pass.play(Kind::Runs, &mut halls)?;
    }
    pass.print_halls(store, way, halls.asked())
}

// Plays halls over stores of one kind in each way.
fn play_halls<S: Begun>(rt: &HostRuntime, names: &[String], store: &str) -> Played {
    let ways = [
        Way::Alone,
        Way::Together,
        Way::Served,
        Way::Stepped,
        Way::Failing,
    ];
    for way in ways {
        play_way::<S>(rt, names, store, way)?;
    }
    Ok(())
}

// Over a store of SQLite: halls, and the tables of files. There is a function for each layer of its type, since the check of one over all of
// them has too many steps.
fn play_in_sqlite<A: Fresh>(rt: &HostRuntime, names: &[String]) -> Played {
    play_halls::<SqlStore<A>>(rt, names, "SQLite")?;
    let mut pass = Pass::new(rt, names);
    let mut player: FileTables<A> = FileTables { tables: None };
    pass.play(Kind::Tables, &mut player)?;
    pass.print("tables")
}

fn play_on_disks<D: Made>(rt: &HostRuntime, names: &[String]) -> Played {
    play_in_sqlite::<FileStore<D>>(rt, names)
}

/// Plays files of cases.
pub fn play_all(rt: &HostRuntime, names: &[String]) -> Played {
    play_halls::<MemoryStore>(rt, names, "memory")?;
    play_on_disks::<Fuse<Memory>>(rt, names)?;
    let mut pass = Pass::new(rt, names);
    pass.play(Kind::Stops, &mut Stops::new(rt.alloc())?)?;
    pass.print("stops")
}
