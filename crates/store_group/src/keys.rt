//! The keys of each table's rows.
ghost use Rattle.std.specs.Prelude.{◌≡◌, ◌≢◌, ◌==◌, Some, true, false, IfOk};
ghost use Rattle.hall_types.specs.{Hall.{Hall, pair, written}, Kinds.arch_number, Rows.{at, passes}};

use crate::keyed::Keyed;
use hall_types::{
    Arch, Boot, Image, Live, Machine, Name, Number, Numbers, Operator, Order, Pool, Receipt,
    RequestKey, RowWrite, arch_number,
};
use std::alloc::{AllocError, Global};

type Row<X> = Result<Option<X>, AllocError>;

impl Keyed<Operator> for Name {
    ghost row_in = { λ name h. at h.operators name };

    fn after(&self, alloc: Global, row: Option<Operator>, write: &RowWrite) -> Row<Operator>
        ensures { (h : Hall) → row ≡ at h.operators self.now → IfOk result (λ after. after ≡ at (written write.now h).operators self.now) }
    {
        match write {
            RowWrite::PutOperator(operator) => {
                if operator.name == *self {
                    Ok(Some(*operator))
                } else {
                    Ok(row)
                }
            }
            _ => Ok(row),
        }
    }
}

impl Keyed<Pool> for Name {
    ghost row_in = { λ name h. at h.pools name };

    fn after(&self, alloc: Global, row: Option<Pool>, write: &RowWrite) -> Row<Pool>
        ensures { (h : Hall) → row ≡ at h.pools self.now → IfOk result (λ after. after ≡ at (written write.now h).pools self.now) }
    {
        match write {
            RowWrite::PutPool(pool) => {
                if pool.name == *self {
                    Ok(Some(*pool))
                } else {
                    Ok(row)
                }
            }
            _ => Ok(row),
        }
    }
}

impl Keyed<Image> for Name {
    ghost row_in = { λ name h. at h.images name };

    fn after(&self, alloc: Global, row: Option<Image>, write: &RowWrite) -> Row<Image>
        ensures { (h : Hall) → row ≡ at h.images self.now → IfOk result (λ after. after ≡ at (written write.now h).images self.now) }
    {
        match write {
            RowWrite::PutImage(image) => {
                if image.name() == *self {
                    Ok(Some(image.copy(alloc)?))
                } else {
                    Ok(row)
                }
            }
            RowWrite::ImageGone(name) => { if *name == *self { Ok(None) } else { Ok(row) } }
            _ => Ok(row),
        }
    }
}

impl Keyed<Live> for Arch {
    ghost row_in = { λ arch h. at h.lives (arch_number arch) };

    fn after(&self, alloc: Global, row: Option<Live>, write: &RowWrite) -> Row<Live>
        ensures { (h : Hall) → row ≡ at h.lives (arch_number self.now) → IfOk result (λ after. after ≡ at (written write.now h).lives (arch_number self.now)) }
    {
        match write {
            RowWrite::PutLive(live) => {
                if arch_number(live.arch) == arch_number(*self) {
                    Ok(Some(*live))
                } else {
                    Ok(row)
                }
            }
            _ => Ok(row),
        }
    }
}

impl Keyed<Machine> for Number {
    ghost row_in = { λ id h. at h.machines id };

    fn after(&self, alloc: Global, row: Option<Machine>, write: &RowWrite) -> Row<Machine>
        ensures { (h : Hall) → row ≡ at h.machines self.now → IfOk result (λ after. after ≡ at (written write.now h).machines self.now) }
    {
        match write {
            RowWrite::PutMachine { machine, .. } => {
                if machine.id == *self {
                    Ok(Some(*machine))
                } else {
                    Ok(row)
                }
            }
            RowWrite::MachineGone(id) => { if *id == *self { Ok(None) } else { Ok(row) } }
            _ => Ok(row),
        }
    }
}

// Whether there is a boot, and it is a machine's.
fn is_boot_of(row: &Option<Boot>, machine: Number) -> bool
    ensures { result ≡ passes (λ boot. boot.machine == machine) row.now }
{
    match row {
        Some(boot) => boot.machine == machine,
        None => false,
    }
}

impl Keyed<Boot> for Number {
    ghost row_in = { λ number h. at h.boots number };

    fn after(&self, alloc: Global, row: Option<Boot>, write: &RowWrite) -> Row<Boot>
        ensures { (h : Hall) → row ≡ at h.boots self.now → IfOk result (λ after. after ≡ at (written write.now h).boots self.now) }
    {
        match write {
            RowWrite::PutBoot(boot) => {
                if boot.number == *self {
                    Ok(Some(*boot))
                } else {
                    Ok(row)
                }
            }
            RowWrite::MachineGone(id) => {
                if is_boot_of(&row, *id) {
                    Ok(None)
                } else {
                    Ok(row)
                }
            }
            _ => Ok(row),
        }
    }
}

// Whether there is an order, and it is a machine's.
fn is_order_of(row: &Option<Order>, machine: Number) -> bool
    ensures { result ≡ passes (λ order. order.machine == machine) row.now }
{
    match row {
        Some(order) => order.machine == machine,
        None => false,
    }
}

impl Keyed<Order> for Number {
    ghost row_in = { λ number h. at h.orders number };

    fn after(&self, alloc: Global, row: Option<Order>, write: &RowWrite) -> Row<Order>
        ensures { (h : Hall) → row ≡ at h.orders self.now → IfOk result (λ after. after ≡ at (written write.now h).orders self.now) }
    {
        match write {
            RowWrite::PutOrder(order) => {
                if order.number == *self {
                    Ok(Some(*order))
                } else {
                    Ok(row)
                }
            }
            RowWrite::MachineGone(id) => {
                if is_order_of(&row, *id) {
                    Ok(None)
                } else {
                    Ok(row)
                }
            }
            _ => Ok(row),
        }
    }
}

// Whether a receipt is the one with a key.
fn is_under(receipt: &Receipt, key: &(Name, RequestKey)) -> bool
    ensures here { true ≡ result → pair receipt.now.operator receipt.now.key ≡ pair key.now.0 key.now.1 }
    ensures apart { false ≡ result → pair key.now.0 key.now.1 ≢ pair receipt.now.operator receipt.now.key }
{
    if receipt.operator != key.0 {
        return false;
    }
    receipt.key.octets() == key.1.octets()
}

impl Keyed<Receipt> for (Name, RequestKey) {
    ghost row_in = { λ key h. at h.receipts (pair key.0 key.1) };

    fn after(&self, alloc: Global, row: Option<Receipt>, write: &RowWrite) -> Row<Receipt>
        ensures { (h : Hall) → row ≡ at h.receipts (pair self.now.0 self.now.1) → IfOk result (λ after. after ≡ at (written write.now h).receipts (pair self.now.0 self.now.1)) }
    {
        match write {
            RowWrite::PutReceipt(receipt) => {
                if is_under(receipt, self) {
                    Ok(Some(receipt.copy(alloc)?))
                } else {
                    Ok(row)
                }
            }
            _ => Ok(row),
        }
    }
}

// The last numbers stand alone.
impl Keyed<Numbers> for () {
    ghost row_in = { λ key h. Some h.last };

    fn after(&self, alloc: Global, row: Option<Numbers>, write: &RowWrite) -> Row<Numbers>
        ensures { (h : Hall) → row ≡ Some h.last → IfOk result (λ after. after ≡ Some (written write.now h).last) }
    {
        match write {
            RowWrite::PutNumbers(numbers) => Ok(Some(*numbers)),
            _ => Ok(row),
        }
    }
}
