//! Changes that no desk makes. Their rows stand one after the other, `; ` between two: `machine ID WAS VERSION POOL STATUS DEADLINE`
//! is a machine of uefi64 over its row of version WAS, `-` for a new one, which may end in ` UUID` or ` UUID OWNER IMAGE`;
//! `machine_gone ID`, `interface MAC ID`, `interface_gone MAC`, `image_gone NAME`, `numbers MACHINE BOOT ORDER`, `boot NUMBER ID`,
//! `order NUMBER ID` and `receipt NAME KEY`.
use crate::hall::Hall;
use cases::{CaseFault, Out, Played, first, parsed};
use hall_store::HallStore;
use hall_types::{
    Arch, Boot, Change, Interface, Machine, Moment, Numbers, Order, OrderKind, OrderStage, Purpose,
    Receipt, RowWrite, Stage, Text, Token,
};
use play_log::{key, last, maybe, some, uuid};
use std::alloc::Global;

// `ID VERSION POOL STATUS DEADLINE`, and what may stand after it.
fn machine(id: &str, words: &str) -> Result<Machine, CaseFault> {
    let (version, words) = first(words);
    let (pool, words) = first(words);
    let (status, words) = first(words);
    let (deadline, words) = first(words);
    let (its_uuid, words) = first(words);
    let (owner, image) = first(words);
    let deadline: Option<Moment> = maybe(deadline)?;
    let its_uuid = some(its_uuid).map(uuid).transpose()?;
    Ok(Machine {
        status: parsed(status)?,
        owner: maybe(owner)?,
        image: maybe(image)?,
        version: parsed(version)?,
        deadline: deadline.map(|moment| moment.get()),
        ..Machine::new(parsed(id)?, Arch::Uefi64, parsed(pool)?, its_uuid)
    })
}

fn numbers(words: &str) -> Result<Numbers, CaseFault> {
    let (machine, words) = first(words);
    let (boot, order) = first(words);
    Ok(Numbers {
        machine: last(machine)?,
        boot: last(boot)?,
        order: last(order)?,
    })
}

// An offered boot that commissions.
fn boot(number: &str, id: &str) -> Result<Boot, CaseFault> {
    Ok(Boot {
        number: parsed(number)?,
        machine: parsed(id)?,
        purpose: Purpose::Commission,
        token: Token::from([0; 16]),
        stage: Stage::Offered,
    })
}

// An order that waits, to cycle the power.
fn order(number: &str, id: &str) -> Result<Order, CaseFault> {
    Ok(Order {
        number: parsed(number)?,
        machine: parsed(id)?,
        kind: OrderKind::Cycle,
        stage: OrderStage::Waiting,
    })
}

fn text(alloc: Global, text: &str) -> Result<Text, CaseFault> {
    Ok(Text::from(String::from_str(alloc, text)?))
}

// The receipt of a lock.
fn receipt(alloc: Global, operator: &str, its_key: &str) -> Result<Receipt, CaseFault> {
    Ok(Receipt {
        operator: parsed(operator)?,
        key: key(its_key)?,
        command: text(alloc, "{\"command\":\"lock\",\"machine\":1,\"version\":1}")?,
        status: 200,
        body: text(alloc, "{\"id\":1,\"status\":\"Ready\",\"version\":2}")?,
    })
}

fn put_machine(id: &str, words: &str) -> Result<RowWrite, CaseFault> {
    let (before, words) = first(words);
    Ok(RowWrite::PutMachine {
        machine: machine(id, words)?,
        was: maybe(before)?,
    })
}

fn row(alloc: Global, words: &str) -> Result<RowWrite, CaseFault> {
    let (kind, words) = first(words);
    let (word, rest) = first(words);
    match kind {
        "machine" => put_machine(word, rest),
        "machine_gone" => Ok(RowWrite::MachineGone(parsed(word)?)),
        "interface" => Ok(RowWrite::PutInterface(Interface {
            mac: parsed(word)?,
            machine: parsed(rest)?,
        })),
        "interface_gone" => Ok(RowWrite::InterfaceGone(parsed(word)?)),
        "image_gone" => Ok(RowWrite::ImageGone(parsed(word)?)),
        "numbers" => Ok(RowWrite::PutNumbers(numbers(words)?)),
        "boot" => Ok(RowWrite::PutBoot(boot(word, rest)?)),
        "order" => Ok(RowWrite::PutOrder(order(word, rest)?)),
        "receipt" => Ok(RowWrite::PutReceipt(receipt(alloc, word, rest)?)),
        _ => Err(CaseFault::Form),
    }
}

/// The change of words.
pub fn change(alloc: Global, words: &str) -> Result<Change, CaseFault> {
    let texts = words.split("; ").filter(|text| !text.is_empty());
    let rows: Vec<RowWrite> = texts.map(|text| row(alloc, text)).try_collect(alloc)?;
    Ok(Change::from(rows))
}

impl<S: HallStore + Drop> Hall<S> {
    /// Makes a change, and prints `applied`, or `refused` where the store doesn't make it.
    pub(crate) fn apply(&mut self, words: &str, out: &mut Out) -> Played {
        let change = change(out.alloc(), words)?;
        let mut store = self.take()?;
        match store.apply(&change) {
            Ok(_) => out.push("applied"),
            Err(_) => out.push("refused"),
        }
        self.put_back(store);
        Ok(())
    }
}
