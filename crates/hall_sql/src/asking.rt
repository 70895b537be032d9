//! Reads of the tables as answers of a store.
ghost use Rattle.sql_schema.specs.Words.{state, HasCleanDisk, is_image_used, at, IsTableRead};
ghost use Rattle.std.specs.Prelude.{◌≡◌, option_map};
ghost use Rattle.hall_sql.specs.Store.{LeavesCommitted, Passes};

use crate::store::SqlStore;
use hall_store::Unavailable;
use hall_types::{MacAddress, Name, Number};
use sql_items::{Interfaces, has_machine_with_image, is_live};
use sql_schema::creating::FIND_INTERFACE;
use sql_schema::{ask_one, is_running, octets_value};
use sqlite::{Alter, Connection, Error};

impl<S: Alter> SqlStore<S> {
    // Passes an answer of the connection on. After a refusal the store goes on if the connection is still open, and is
    // stopped for good if it isn't.
    pub(crate) fn pass<Y>(&mut self, answer: Result<Y, Error>) -> Result<Y, Unavailable>
        ensures clean { HasCleanDisk (state S.Store self.new.conn) → HasCleanDisk (state S.Store self.old.conn) }
        ensures passed { HasCleanDisk (state S.Store self.new.conn) → Passes S.Store self.old self.new answer result }
        ensures settled { LeavesCommitted (state S.Store self.new.conn) }
    {
        match answer {
            Ok(answer) => Ok(answer),
            Err(_) => {
                self.stopped = !is_running(&mut self.conn);
                Err(Unavailable)
            }
        }
    }
}

/// The number of the machine that an address is recorded with.
pub(crate) fn machine_at<S: Alter>(
    conn: &mut Connection<S>,
    mac: MacAddress,
) -> Result<Option<Number>, Error>
    ensures clean { HasCleanDisk (state S.Store conn.new) → HasCleanDisk (state S.Store conn.old) }
    ensures asked { HasCleanDisk (state S.Store conn.new) → IsTableRead (state S.Store conn.old) (state S.Store conn.new) result (λ h answer. answer ≡ option_map (λ i. i.machine) (at h.interfaces mac)) }
{
    let octets = mac.octets();
    match ask_one::<Interfaces, S>(conn, FIND_INTERFACE, &[octets_value(&octets)]) {
        Ok(found) => Ok(found.map(|interface| interface.machine)),
        Err(error) => Err(error),
    }
}

/// Whether an image is an architecture's live image or a machine's image.
pub(crate) fn is_image_used<S: Alter>(conn: &mut Connection<S>, name: &Name) -> Result<bool, Error>
    ensures clean { HasCleanDisk (state S.Store conn.new) → HasCleanDisk (state S.Store conn.old) }
    ensures asked { HasCleanDisk (state S.Store conn.new) → IsTableRead (state S.Store conn.old) (state S.Store conn.new) result (λ h answer. answer ≡ is_image_used h name.now) }
{
    match is_live(conn, name) {
        Ok(true) => Ok(true),
        Ok(false) => has_machine_with_image(conn, name),
        Err(error) => Err(error),
    }
}
