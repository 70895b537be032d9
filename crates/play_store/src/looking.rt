//! All that a store has under some keys, and what of it has changed.
use crate::hall::Hall;
use crate::reads::found;
use cases::{Out, Played, first};
use hall_store::HallStore;

/// What is read of each name.
const OF_NAME: [&str; 4] = ["operator", "pool", "image", "image_used"];

/// What is read of the machines, boots and orders of the numbers 1 and 2.
const OF_NUMBER: [&str; 4] = ["machine", "boot", "order", "interfaces_of"];

/// What is read of the hall.
const OF_HALL: &str = "live bios; live uefi32; live uefi64; live arm64; numbers; machine_count; \
    machines; interfaces; waiting_orders; counts";

fn read<S: HallStore>(store: &mut S, what: &str, words: &str, out: &mut Out) -> Played {
    let words = format!(in out.alloc(); "{what} {words}")?;
    let _ = found(store, words.as_str(), out)?;
    Ok(())
}

// What a name has: the operator, the pool, the image, its use, and the operator's receipt of a key.
fn of_name<S: HallStore>(store: &mut S, name: &str, key: &str, out: &mut Out) -> Played {
    for what in &OF_NAME {
        read(store, what, name, out)?;
    }
    let words = format!(in out.alloc(); "{name} {key}")?;
    read(store, "receipt", words.as_str(), out)
}

// Which of the operators with these names are members of a pool.
fn members<S: HallStore>(store: &mut S, pool: &str, names: &str, out: &mut Out) -> Played {
    for name in names.split(' ') {
        let words = format!(in out.alloc(); "{pool} {name}")?;
        read(store, "member", words.as_str(), out)?;
    }
    Ok(())
}

// All that is looked at: `KEY NAME ..` has what operators, pools and images have these names, which of them are members of which, and
// their receipts of the key; the number of the machine whose UUID has the key's octets; and what `OF_HALL` has.
fn all<S: HallStore>(store: &mut S, watched: &str, out: &mut Out) -> Played {
    let (key, names) = first(watched);
    for name in names.split(' ') {
        of_name(store, name, key, out)?;
    }
    for pool in names.split(' ') {
        members(store, pool, names, out)?;
    }
    read(store, "by_uuid", key, out)?;
    for number in ["1", "2"] {
        for what in &OF_NUMBER {
            read(store, what, number, out)?;
        }
    }
    for words in OF_HALL.split("; ") {
        let _ = found(store, words, out)?;
    }
    Ok(())
}

// Prints so many lines of a text, from a place on, which came.
fn push_new(out: &mut Out, text: &str, from: usize, count: usize) {
    for line in text.lines().skip(from).take(count) {
        out.show(format_args!("+ {line}\n"));
    }
}

// How many lines of a text, from a place on, stand before the first that is this one.
fn count_before(text: &str, from: usize, line: &str) -> Option<usize> {
    text.lines().skip(from).position(|other| other == line)
}

// Prints which lines went and which came from a text to another one, in order.
fn push_changes(out: &mut Out, before: &str, after: &str) {
    let mut next = 0usize;
    for line in before.lines() {
        match count_before(after, next, line) {
            Some(count) => {
                push_new(out, after, next, count);
                next = next.saturating_add(count).saturating_add(1);
            }
            None => out.show(format_args!("- {line}\n")),
        }
    }
    push_new(out, after, next, usize::MAX);
}

impl<S: HallStore + Drop> Hall<S> {
    /// Says what is looked at from now on.
    pub(crate) fn watch(&mut self, words: &str, out: &mut Out) -> Played {
        self.looked.watched = String::from_str(out.alloc(), words)?;
        self.looked.seen = String::new(out.alloc());
        Ok(())
    }

    fn look_at(&mut self, words: &str, out: &mut Out) -> Played {
        let mut store = self.take()?;
        let looked = all(&mut store, words, out);
        self.put_back(store);
        looked
    }

    /// Prints all that is looked at by these words; or, without words, what is another line of what is watched than at the look before.
    pub(crate) fn look(&mut self, words: &str, out: &mut Out) -> Played {
        if !words.is_empty() {
            return self.look_at(words, out);
        }
        let watched = String::from_str(out.alloc(), self.looked.watched.as_str())?;
        let mut now = Out::new(out.alloc());
        let looked = self.look_at(watched.as_str(), &mut now);
        let now = now.into_text()?;
        push_changes(out, self.looked.seen.as_str(), now.as_str());
        self.looked.seen = now;
        looked
    }
}
