//! New halls, and all that came to them in one run.
ghost use Rattle.std.specs.Prelude.{◌≡◌, ℕ, List, length, IfOk};
ghost use Rattle.laws_stores.specs.Prelude.{state, HasCleanDisk, Hall, IsBlank, new_hall, second, created, Headline, exchanges};

use hall_desk::{Answer, Arrival, Desk};
use hall_sql::SqlStore;
use hall_store::{HallStore, Unavailable};
use hall_types::{Digest, Name};
use pxe_vendor::Place;
use sqlite::{Alter, Connection};
use std::alloc::Global;
use store_memory::MemoryStore;

// Answers all that comes to the new hall of a store, which is handed back, one answer each: the headline holds if its disk gave back all
// along what was written to it.
fn answer_all<S: HallStore + Drop>(
    alloc: Global,
    store: S,
    place: Place,
    arrivals: &[Arrival],
) -> Result<(Vec<Answer>, S), Unavailable>
    ensures one_each { IfOk result (λ done. length done.0.items ≡ length arrivals.now) }
    ensures clean { IfOk result (λ done. S.HallStore.is_clean done.1 → S.HallStore.is_clean store) }
    ensures headline { IfOk result (λ done. S.HallStore.is_clean done.1 → (admin digest : List ℕ) → S.HallStore.holds store (new_hall second admin digest)
        → (end : Hall) × Headline (created admin digest) (exchanges place arrivals.now done.0.items) end) }
{
    let mut desk = Desk::new(store, place);
    match desk.run(alloc, arrivals) {
        Ok(answers) => Ok((answers, desk.into_store())),
        Err(_) => Err(Unavailable),
    }
}

/// Answers all that comes to a new hall in memory, one answer each: the headline holds.
pub fn memory_keeps_the_headline(
    alloc: Global,
    admin: Name,
    digest: Digest,
    place: Place,
    arrivals: &[Arrival],
) -> Result<Vec<Answer>, Unavailable>
    ensures one_each { IfOk result (λ answers. length answers.items ≡ length arrivals.now) }
    ensures headline { IfOk result (λ answers. (end : Hall) × Headline (created admin digest) (exchanges place arrivals.now answers.items) end) }
{
    let store = MemoryStore::create(alloc, admin, digest)?;
    let (answers, store) = answer_all(alloc, store, place, arrivals)?;
    drop(store);
    Ok(answers)
}

/// Answers all that comes to a new hall over a connection to a file without a table, which is handed back, one answer each: the headline
/// holds if its disk gave back all along what was written to it.
pub fn sqlite_keeps_the_headline<S: Alter + Drop>(
    alloc: Global,
    conn: Connection<S>,
    admin: Name,
    digest: Digest,
    place: Place,
    arrivals: &[Arrival],
) -> Result<(Vec<Answer>, Connection<S>), Unavailable>
    ensures one_each { IfOk result (λ done. length done.0.items ≡ length arrivals.now) }
    ensures headline { IfOk result (λ done. HasCleanDisk (state S.Store done.1) → IsBlank (state S.Store conn) → (end : Hall) × Headline (created admin digest) (exchanges place arrivals.now done.0.items) end) }
{
    let Ok(store) = SqlStore::create(alloc, conn, admin, digest) else {
        return Err(Unavailable);
    };
    let (answers, store) = answer_all(alloc, store, place, arrivals)?;
    Ok((answers, store.into_connection()))
}
