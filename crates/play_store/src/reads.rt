//! Reads of a store: `machine ID`, `by_mac MAC`, `by_uuid HEX`, `boot NUMBER`, `order NUMBER`, `operator NAME`, `digest HEX`,
//! `pool NAME`, `member POOL NAME`, `image NAME`, `image_used NAME`, `live ARCH`, `receipt NAME KEY`, `numbers`,
//! `next_expired MOMENT`, `machine_count`, `interfaces_of ID`, `interfaces`, `machines`, `waiting_orders` and `counts`. The record
//! is printed whole, a list record by record in its order; `none` where there is nothing.
use crate::hall::Hall;
use crate::records::Row;
use cases::{CaseFault, Out, Played, first, parsed};
use hall_store::{HallStore, Unavailable};
use play_log::{key, uuid};

/// Whether something was found, and printed.
type Found = Result<bool, CaseFault>;

// Prints a record, if there is one, and says whether there is.
fn one<T: Row + Drop>(found: Result<Option<T>, Unavailable>, out: &mut Out) -> Found {
    let found = found.map_err(|_| CaseFault::Unavailable)?;
    if let Some(row) = &found {
        row.print(out);
    }
    Ok(found.is_some())
}

// Prints the records of a list, and says whether there are any.
fn all<T: Row + Drop>(found: Result<Vec<T>, Unavailable>, out: &mut Out) -> Found {
    let rows = found.map_err(|_| CaseFault::Unavailable)?;
    for row in rows.as_slice() {
        row.print(out);
    }
    Ok(!rows.is_empty())
}

fn image_used<S: HallStore>(store: &mut S, word: &str, out: &mut Out) -> Found {
    let used = store.image_used(&parsed(word)?);
    let is_used = used.map_err(|_| CaseFault::Unavailable)?;
    if is_used {
        out.show(format_args!("image {word} is used\n"));
    }
    Ok(is_used)
}

fn next_expired<S: HallStore>(store: &mut S, word: &str, out: &mut Out) -> Found {
    let found = store.next_expired(parsed(word)?);
    if let Ok(Some(_)) = &found {
        out.push("expired ");
    }
    one(found, out)
}

// Reads by two words, of the whole hall, and lists.
fn list<S: HallStore>(store: &mut S, what: &str, words: &str, out: &mut Out) -> Found {
    let alloc = out.alloc();
    let (word, other) = first(words);
    match what {
        "member" => one(store.member(&parsed(word)?, &parsed(other)?), out),
        "receipt" => one(store.receipt(alloc, &parsed(word)?, key(other)?), out),
        "numbers" => one(store.numbers().map(Some), out),
        "machine_count" => one(store.machine_count().map(Some), out),
        "interfaces_of" => all(store.interfaces_of(alloc, parsed(word)?), out),
        "interfaces" => all(store.interfaces(alloc), out),
        "machines" => all(store.machines(alloc), out),
        "waiting_orders" => all(store.waiting_orders(alloc), out),
        "counts" => all(store.counts(alloc), out),
        _ => Err(CaseFault::Form),
    }
}

/// Prints what a read finds, and says whether it finds something.
pub(crate) fn found<S: HallStore>(store: &mut S, words: &str, out: &mut Out) -> Found {
    let (what, word) = first(words);
    match what {
        "machine" => one(store.machine(parsed(word)?), out),
        "boot" => one(store.boot(parsed(word)?), out),
        "order" => one(store.order(parsed(word)?), out),
        "by_mac" => one(store.by_mac(parsed(word)?), out),
        "by_uuid" => one(store.by_uuid(uuid(word)?), out),
        "live" => one(store.live(parsed(word)?), out),
        "next_expired" => next_expired(store, word, out),
        "operator" => one(store.operator(&parsed(word)?), out),
        "digest" => one(store.operator_by_digest(&parsed(word)?), out),
        "pool" => one(store.pool(&parsed(word)?), out),
        "image" => one(store.image(out.alloc(), &parsed(word)?), out),
        "image_used" => image_used(store, word, out),
        _ => list(store, what, word, out),
    }
}

impl<S: HallStore + Drop> Hall<S> {
    /// Reads what words ask for, and prints it.
    pub(crate) fn read(&mut self, words: &str, out: &mut Out) -> Played {
        let mut store = self.take()?;
        let found = found(&mut store, words, out);
        self.put_back(store);
        if !found? {
            out.push("none");
        }
        Ok(())
    }
}
