//! The table of interfaces.
ghost use Rattle.sql_schema.specs.{Words.{state, HasCleanDisk, Survives, at, interface_columns, interfaces}, Steps.{IsWritten, always}, TableStatements.{with_item, without_item}};
ghost use Rattle.std.{specs.Prelude.{◌≡◌, None}, proofs.Common.rules};

use hall_types::{Interface, MacAddress};
use sql_schema::creating::ADD_INTERFACE;
use sql_schema::{Table, number_in, number_value, octets_in, octets_value, write};
use sqlite::{Alter, Error, Row, Transaction};

/// The interfaces of a machine.
pub const FIND_INTERFACES: &str =
    "SELECT mac, machine FROM interfaces WHERE machine = ?1 ORDER BY mac";

/// All interfaces.
pub const LIST_INTERFACES: &str = "SELECT mac, machine FROM interfaces ORDER BY mac";

// The interface with an address goes.
const REMOVE_INTERFACE: &str = "DELETE FROM interfaces WHERE mac = ?1";

/// The interfaces of a machine go.
pub const REMOVE_INTERFACES: &str = "DELETE FROM interfaces WHERE machine = ?1";

/// The table of interfaces, by what it stores.
pub struct Interfaces;

impl Table for Interfaces {
    type Item = Interface;

    ghost values = { interface_columns };

    fn read(row: &Row) -> Result<Interface, Error> {
        if row.column_count() != 2 {
            return Err(Error::InvalidQuery);
        }
        let mac = MacAddress::from(octets_in(row, 0)?);
        let machine = number_in(row, 1)?;
        Ok(Interface { mac, machine })
    }

    ghost single = { Prim.search rules };
}

/// A new interface, whose address has to be free.
pub fn add_interface<S: Alter>(
    tx: &mut Transaction<'_, S>,
    interface: &Interface,
) -> Result<(), Error>
    ensures same_reference { tx.new.conn.ghost_name ≡ tx.old.conn.ghost_name }
    ensures written { HasCleanDisk (state S.Store tx.new.conn.now) → IsWritten (state S.Store tx.old.conn.now) (state S.Store tx.new.conn.now) result (λ c. at c.hall.interfaces interface.now.mac ≡ None) (λ c. with_item interfaces c interface.now) }
    ensures survives { Survives (state S.Store tx.old.conn.now) (state S.Store tx.new.conn.now) (λ _. ⊥) }
{
    let octets = interface.mac.octets();
    write(
        tx,
        ADD_INTERFACE,
        &[octets_value(&octets), number_value(interface.machine.get())],
    )
}

/// The interface with this address goes.
pub fn remove_interface<S: Alter>(tx: &mut Transaction<'_, S>, mac: MacAddress) -> Result<(), Error>
    ensures same_reference { tx.new.conn.ghost_name ≡ tx.old.conn.ghost_name }
    ensures written { HasCleanDisk (state S.Store tx.new.conn.now) → IsWritten (state S.Store tx.old.conn.now) (state S.Store tx.new.conn.now) result always (λ c. without_item interfaces c mac) }
    ensures survives { Survives (state S.Store tx.old.conn.now) (state S.Store tx.new.conn.now) (λ _. ⊥) }
{
    let octets = mac.octets();
    write(tx, REMOVE_INTERFACE, &[octets_value(&octets)])
}
