//! Copies of row writes.
ghost use Rattle.std.specs.Prelude.{◌≡◌, ◌++◌, [], ◌∷◌, IfOk, OnOk};

use hall_types::RowWrite;
use std::alloc::{AllocError, Global};

fn copy_write(alloc: Global, write: &RowWrite) -> Result<RowWrite, AllocError>
    ensures { IfOk result (λ copy. copy ≡ write.now) }
{
    match write {
        RowWrite::PutOperator(operator) => Ok(RowWrite::PutOperator(*operator)),
        RowWrite::PutPool(pool) => Ok(RowWrite::PutPool(*pool)),
        RowWrite::PutMember(member) => Ok(RowWrite::PutMember(*member)),
        RowWrite::PutImage(image) => Ok(RowWrite::PutImage(image.copy(alloc)?)),
        RowWrite::ImageGone(name) => Ok(RowWrite::ImageGone(*name)),
        RowWrite::PutLive(live) => Ok(RowWrite::PutLive(*live)),
        RowWrite::PutMachine { machine, was } => Ok(RowWrite::PutMachine {
            machine: *machine,
            was: *was,
        }),
        RowWrite::MachineGone(id) => Ok(RowWrite::MachineGone(*id)),
        RowWrite::PutInterface(interface) => Ok(RowWrite::PutInterface(*interface)),
        RowWrite::InterfaceGone(mac) => Ok(RowWrite::InterfaceGone(*mac)),
        RowWrite::PutBoot(boot) => Ok(RowWrite::PutBoot(*boot)),
        RowWrite::PutOrder(order) => Ok(RowWrite::PutOrder(*order)),
        RowWrite::PutReceipt(receipt) => Ok(RowWrite::PutReceipt(receipt.copy(alloc)?)),
        RowWrite::PutNumbers(numbers) => Ok(RowWrite::PutNumbers(*numbers)),
    }
}

fn push_copy(alloc: Global, copies: &mut Vec<RowWrite>, write: &RowWrite) -> Result<(), AllocError>
    ensures { OnOk result (copies.new.items ≡ copies.old.items ++ write.now ∷ []) }
{
    let copy = copy_write(alloc, write)?;
    copies.push(copy)?;
    Ok(())
}

/// Equal row writes. The error is want of memory.
pub fn copies(alloc: Global, writes: &[RowWrite]) -> Result<Vec<RowWrite>, AllocError>
    ensures { IfOk result (λ copies. copies.items ≡ writes.now) }
{
    let mut copies = Vec::with_capacity(alloc, writes.len())?;
    'copying: for write in writes {
        push_copy(alloc, &mut copies, write)?;
    }
    Ok(copies)
}
