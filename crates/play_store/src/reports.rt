//! Reports on a hall as a command line prints them, and files of new machines.
use crate::hall::Hall;
use crate::records::Row;
use cases::{CaseFault, Out, Played, Short, first, parsed, string_of};
use desk_operations::{Imported, export};
use hall_report::{Fault, What, import_rows};
use hall_store::HallStore;
use hall_types::{Digest, Moment, Number};

/// Prints the name of the fault by which something ended.
pub(crate) fn push_end(out: &mut Out, end: Result<(), Fault>) -> Played {
    match end {
        Ok(()) => {}
        Err(Fault::Unavailable) => return Err(CaseFault::Unavailable),
        Err(Fault::Memory) => return Err(CaseFault::Memory),
        Err(fault) => out.push(fault.name()),
    }
    Ok(())
}

fn push_text(out: &mut Out, octets: &[u8]) {
    out.push(std::str::from_utf8(octets).unwrap_or("no text"));
}

// The report with this word, or none for all machines as a file.
fn what(kind: &str, words: &str) -> Result<Option<What>, CaseFault> {
    match kind {
        "hall" => Ok(Some(What::Hall)),
        "machine-text" => Ok(Some(What::Machine(parsed::<Number>(words)?.get()))),
        "order-text" => Ok(Some(What::Orders)),
        "export" => Ok(None),
        _ => Err(CaseFault::Act),
    }
}

/// Parses a file of new machines, and prints its rows, or its fault.
pub(crate) fn rows(words: &str, out: &mut Out) -> Played {
    let file = string_of(out.alloc(), words)?;
    match import_rows(out.alloc(), file.as_bytes()) {
        Ok(rows) if rows.is_empty() => out.push("none"),
        Ok(rows) => {
            for row in rows.as_slice() {
                row.print(out);
            }
        }
        Err(fault) => out.show(fault),
    }
    Ok(())
}

impl<S: HallStore + Drop> Hall<S> {
    /// Prints a report.
    pub(crate) fn report(&mut self, kind: &str, words: &str, out: &mut Out) -> Played {
        let (alloc, what) = (out.alloc(), what(kind, words)?);
        let (mut octets, mut store) = (Vec::new(alloc), self.take()?);
        let end = match what {
            Some(what) => desk_operations::report(alloc, &mut store, &mut octets, what),
            None => export(alloc, &mut store, &mut octets),
        };
        self.put_back(store);
        push_text(out, octets.as_slice());
        push_end(out, end)
    }

    /// Imports a file, `MOMENT DIGEST TEXT`, and prints what is printed for its rows by a writer that takes so many octets and then fails.
    pub(crate) fn import(&mut self, room: usize, words: &str, out: &mut Out) -> Played {
        let alloc = out.alloc();
        let (at, rest) = first(words);
        let (bearer, text) = first(rest);
        let (bearer, at): (Digest, Moment) = (parsed(bearer)?, parsed(at)?);
        let file = string_of(alloc, text)?;
        let mut writer = Short::new(Vec::new(alloc), room);
        let mut desk = self.take_desk(alloc)?;
        let octets = file.as_bytes();
        let end = desk_operations::import(alloc, &mut desk, &mut writer, octets, bearer, at);
        self.put_back(desk.into_store());
        push_text(out, writer.taken.as_slice());
        match end {
            Ok(Imported::All) => out.push("each row was accepted"),
            Ok(Imported::NotAll) => out.push("not each row was accepted"),
            Err(fault) => push_end(out, Err(fault))?,
        }
        Ok(())
    }
}
