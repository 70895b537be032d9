//! Machines found by their number, their UUID, their image and their deadline.
ghost use Rattle.sql_schema.specs.Words.{list_any, state, HasCleanDisk, bound, Hall, at, listed, is_named, machine_with_uuid, next_expired, Machine, IsTableRead};
ghost use Rattle.std.specs.Prelude.{◌≡◌, Option, option_map};
ghost use Rattle.sql_items.specs.MachineRows.{AsksMachine, found_whole};

use crate::machines::{FIND_EXPIRED, MachineNumbers, MachineRows};
use crate::wipes::find_wipe;
use hall_types::{Machine, MachineUuid, Moment, Name, Number};
use sql_schema::creating::FIND_MACHINE;
use sql_schema::{ask_first, ask_one, name_value, number_value, octets_value};
use sqlite::types::ValueRef;
use sqlite::{Alter, Connection, Error};

// The first machine that has an image.
const FIND_MACHINE_WITH_IMAGE: &str =
    "SELECT id FROM machines WHERE image = ?1 ORDER BY id LIMIT 1";

// The machines with a UUID.
const FIND_UUID: &str = "SELECT id FROM machines WHERE uuid = ?1 ORDER BY id";

// The machine of the row that was found, with how its disks are erased.
fn with_wipe<S: Alter>(
    conn: &mut Connection<S>,
    found: Option<Machine>,
) -> Result<Option<Machine>, Error>
    ensures clean { HasCleanDisk (state S.Store conn.new) → HasCleanDisk (state S.Store conn.old) }
    ensures asked { HasCleanDisk (state S.Store conn.new) → IsTableRead (state S.Store conn.old) (state S.Store conn.new) result (λ h machine. machine ≡ found_whole h found) }
{
    match found {
        None => Ok(None),
        Some(machine) => match find_wipe(conn, machine.id) {
            Ok(erase) => Ok(Some(Machine { erase, ..machine })),
            Err(error) => Err(error),
        },
    }
}

// The machine whose row a query shows, if it shows one.
fn ask_machine<S: Alter>(
    conn: &mut Connection<S>,
    sql: &str,
    params: &[ValueRef<'_>],
) -> Result<Option<Machine>, Error>
    ensures clean { HasCleanDisk (state S.Store conn.new) → HasCleanDisk (state S.Store conn.old) }
    ensures asked { HasCleanDisk (state S.Store conn.new) → (right : Hall → Option Machine) → AsksMachine sql.now (bound params.now) right → IsTableRead (state S.Store conn.old) (state S.Store conn.new) result (λ h machine. machine ≡ right h) }
{
    match ask_one::<MachineRows, S>(conn, sql, params) {
        Ok(found) => with_wipe(conn, found),
        Err(error) => Err(error),
    }
}

/// The machine with this number, if there is one.
pub fn find_machine<S: Alter>(
    conn: &mut Connection<S>,
    id: Number,
) -> Result<Option<Machine>, Error>
    ensures clean { HasCleanDisk (state S.Store conn.new) → HasCleanDisk (state S.Store conn.old) }
    ensures asked { HasCleanDisk (state S.Store conn.new) → IsTableRead (state S.Store conn.old) (state S.Store conn.new) result (λ h machine. machine ≡ at h.machines id) }
{
    ask_machine(conn, FIND_MACHINE, &[number_value(id.get())])
}

/// Of the machines whose deadline is at most this moment, the one with the least deadline, and of those with the same
/// one the one with the least number.
pub fn next_expired<S: Alter>(
    conn: &mut Connection<S>,
    moment: Moment,
) -> Result<Option<Machine>, Error>
    ensures clean { HasCleanDisk (state S.Store conn.new) → HasCleanDisk (state S.Store conn.old) }
    ensures asked { HasCleanDisk (state S.Store conn.new) → IsTableRead (state S.Store conn.old) (state S.Store conn.new) result (λ h machine. machine ≡ next_expired h moment) }
{
    ask_machine(conn, FIND_EXPIRED, &[number_value(moment.get())])
}

/// The number of the machine that this UUID is recorded with, if there is one.
pub fn find_uuid<S: Alter>(
    conn: &mut Connection<S>,
    uuid: MachineUuid,
) -> Result<Option<Number>, Error>
    ensures clean { HasCleanDisk (state S.Store conn.new) → HasCleanDisk (state S.Store conn.old) }
    ensures asked { HasCleanDisk (state S.Store conn.new) → IsTableRead (state S.Store conn.old) (state S.Store conn.new) result (λ h number. number ≡ option_map (λ m. m.id) (machine_with_uuid h uuid)) }
{
    let octets = uuid.octets();
    ask_first::<MachineNumbers, S>(conn, FIND_UUID, &[octets_value(&octets)])
}

/// Whether a machine has this image.
pub fn has_machine_with_image<S: Alter>(
    conn: &mut Connection<S>,
    name: &Name,
) -> Result<bool, Error>
    ensures clean { HasCleanDisk (state S.Store conn.new) → HasCleanDisk (state S.Store conn.old) }
    ensures asked { HasCleanDisk (state S.Store conn.new) → IsTableRead (state S.Store conn.old) (state S.Store conn.new) result (λ h used. used ≡ list_any (λ m. is_named m.image name.now) (listed h.machines)) }
{
    match ask_first::<MachineNumbers, S>(conn, FIND_MACHINE_WITH_IMAGE, &[name_value(name)]) {
        Ok(found) => Ok(found.is_some()),
        Err(error) => Err(error),
    }
}
