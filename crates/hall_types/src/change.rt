//! What changes a hall.
ghost use Rattle.std.specs.Prelude.{◌≡◌};

use crate::address::MacAddress;
use crate::boot::Boot;
use crate::image::{Image, Live};
use crate::machine::{Interface, Machine};
use crate::name::Name;
use crate::number::{Number, Numbers};
use crate::operator::{Member, Operator, Pool};
use crate::order::Order;
use crate::receipt::Receipt;
use crate::version::Version;
use std::marker::Model;

/// One write to a hall's tables: a row that is put, replacing the row with its key if there is one, or a row
/// that goes.
#[derive(Drop)]
pub enum RowWrite {
    PutOperator(Operator),
    PutPool(Pool),
    PutMember(Member),
    PutImage(Image),
    ImageGone(Name),
    PutLive(Live),
    /// A machine's row, and the version that its row had before, none if it is new.
    PutMachine {
        machine: Machine,
        was: Option<Version>,
    },
    /// A machine goes with its interfaces, boots and orders.
    MachineGone(Number),
    PutInterface(Interface),
    InterfaceGone(MacAddress),
    PutBoot(Boot),
    PutOrder(Order),
    PutReceipt(Receipt),
    PutNumbers(Numbers),
}

/// Row writes in the order in which they are carried out. Contracts see the list.
#[derive(Drop)]
pub struct Change {
    writes: Vec<RowWrite>,
}

impl Model for Change {
    ghost use Rattle.std.specs.Prelude.{List};
    ghost use Rattle.hall_types.specs.declared.{boot.Boot.Boot, machine.Interface.Interface, order.Order.Order, change.RowWrite.RowWrite};

    ghost Value = { List RowWrite };

    ghost view = { λ change. change.writes.items };
}

impl From<Vec<RowWrite>> for Change {
    ghost from_gives = { λ writes change. change ≡ writes.items };

    fn from(writes: Vec<RowWrite>) -> Change {
        Change { writes }
    }
}

impl Change {
    pub fn writes(&self) -> &[RowWrite]
        ensures { result.now ≡ self.now }
    {
        self.writes.as_slice()
    }

    /// The writes, as what it was made from.
    pub fn into_vec(self) -> Vec<RowWrite>
        ensures { result.items ≡ self }
    {
        self.writes
    }
}
