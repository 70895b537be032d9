//! The versions that row writes expect.
ghost use Rattle.std.specs.Prelude.{◌≡◌, IsTrue};
ghost use Rattle.hall_types.specs.Hall.{Hall, applied, written};
ghost use Rattle.hall_store.specs.Versions.{HasVersion, HaveVersions, version_of};
ghost use Rattle.store_memory.specs.Held.{IsHeld};

use crate::memory::MemoryStore;
use hall_types::{Number, RowWrite, Version};

// The version of a machine after one more row write.
fn version_after(version: Option<Version>, write: &RowWrite, id: Number) -> Option<Version>
    ensures { (h : Hall) → version ≡ version_of h id → result ≡ version_of (written write.now h) id }
{
    match write {
        RowWrite::PutMachine { machine, .. } => {
            if machine.id == id {
                Some(machine.version)
            } else {
                version
            }
        }
        RowWrite::MachineGone(gone) => { if *gone == id { None } else { version } }
        _ => version,
    }
}

impl MemoryStore {
    // The version of a machine after some row writes.
    fn version_after_all(&self, writes: &[RowWrite], id: Number) -> Option<Version>
        ensures { (h : Hall) → IsHeld self.now h → result ≡ version_of (applied writes.now h) id }
    {
        let mut version = self.machine_row(id).map(|machine| machine.version);
        'writes: for write in writes {
            version = version_after(version, write, id);
        }
        version
    }

    // Whether a row write has its version after some others.
    fn has_version(&self, before: &[RowWrite], write: &RowWrite) -> bool
        ensures has { (h : Hall) → IsHeld self.now h → IsTrue result → HasVersion write.now (applied before.now h) }
        ensures only { (h : Hall) → IsHeld self.now h → HasVersion write.now (applied before.now h) → IsTrue result }
    {
        match write {
            RowWrite::PutMachine { machine, was } => {
                *was == self.version_after_all(before, machine.id)
            }
            _ => true,
        }
    }

    /// Whether each row write has its version after those before it.
    pub(crate) fn have_versions(&self, writes: &[RowWrite]) -> bool
        ensures have { (h : Hall) → IsHeld self.now h → IsTrue result → HaveVersions writes.now h }
        ensures only { (h : Hall) → IsHeld self.now h → HaveVersions writes.now h → IsTrue result }
    {
        'writes: for i in 0..writes.len() {
            if !self.has_version(&writes[..i], &writes[i]) {
                return false;
            }
        }
        true
    }
}
