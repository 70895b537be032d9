//! Answers and receipts, and the octets of their responses.
use cases::{CaseFault, Out, Played, halves, parsed};
use hall_events::{MachineList, Reply};
use hall_http::{UNAVAILABLE, bytes_of, is_response};
use hall_types::OrderKind::{self, Cycle, Off};
use hall_types::{
    Arch, Erase, Interface, MacAddress, Machine, Name, Number, Order, OrderStage, Receipt,
    RequestKey, Status, Text, Version,
};
use ipxe_script::read;
use play_log::uuid;
use std::alloc::Global;

fn print_response(reply: &Reply, out: &mut Out) -> Played {
    match reply {
        Reply::File(file) => out.show(format_args!("file {}", file.as_str())),
        _ if is_response(reply) => out.escaped(bytes_of(out.alloc(), reply)?.as_slice()),
        _ => out.push("no response"),
    }
    Ok(())
}

fn ready(pool: Name, version: Version) -> Machine {
    Machine {
        status: Status::Ready,
        version,
        ..Machine::new(Number::FIRST, Arch::Uefi64, pool, None)
    }
}

fn interfaces() -> [Interface; 2] {
    let machine = Number::FIRST;
    let interface = |mac| Interface { mac, machine };
    let one = MacAddress::from([0x52, 0x54, 0, 0x12, 0x34, 0x56]);
    let two = MacAddress::from([2, 0, 0, 0, 0, 10]);
    [interface(one), interface(two)]
}

fn order(number: &str, kind: OrderKind) -> Result<Order, CaseFault> {
    Ok(Order {
        number: parsed(number)?,
        machine: parsed("7")?,
        kind,
        stage: OrderStage::Waiting,
    })
}

// A machine whose disks couldn't be erased.
fn one_machine(alloc: Global, is_whole: bool) -> Result<Reply, CaseFault> {
    let machine = Machine {
        uuid: Some(uuid("00112233445566778899aabbccddeeff")?),
        status: Status::FailedDiskErasing,
        owner: Some(parsed("olga")?),
        image: Some(parsed("jammy")?),
        erase: Some(Erase::Quick),
        locked: true,
        deadline: Some(4700),
        boot: Some(parsed("4")?),
        waiting: Some(parsed("5")?),
        ..ready(parsed("lab")?, parsed("13")?)
    };
    if is_whole {
        return Ok(Reply::one_machine(alloc, &machine, &interfaces())?);
    }
    Ok(Reply::machine(alloc, &machine)?)
}

// A machine that is ready, without interfaces and with two.
fn machines(alloc: Global) -> Result<Reply, CaseFault> {
    let machine = ready(parsed("lab")?, parsed("14")?);
    let mut list = MachineList::new(alloc, 2)?;
    list.push(alloc, &machine, &[])?;
    list.push(alloc, &machine, &interfaces())?;
    Ok(list.finish()?)
}

fn script(alloc: Global, text: &str) -> Result<Reply, CaseFault> {
    let script = read(alloc, text).map_err(|_| CaseFault::Memory)?;
    Ok(Reply::script(alloc, &script)?)
}

fn reply_of(alloc: Global, word: &str) -> Result<Reply, CaseFault> {
    let reply = match word {
        "done" => Reply::done(alloc),
        "counted" => Reply::counted(alloc),
        "repeated" => Reply::repeated(alloc),
        "gone" => Reply::gone(alloc, Number::FIRST),
        "exit" => return script(alloc, "#!ipxe\nexit\n"),
        "poweroff" => return script(alloc, "#!ipxe\npoweroff\n"),
        "orders" => Reply::orders(alloc, &[order("1", Cycle)?, order("2", Off)?]),
        "no orders" => Reply::orders(alloc, &[]),
        "machine" => return one_machine(alloc, false),
        "one machine" => return one_machine(alloc, true),
        "machines" => return machines(alloc),
        "no machines" => MachineList::new(alloc, 0)?.finish(),
        "loader" => Ok(Reply::boot_file(String::from_str(alloc, "ipxe.efi")?)),
        _ => return Err(CaseFault::Form),
    };
    Ok(reply?)
}

/// The response of an answer.
pub fn answered(rest: &str, out: &mut Out) -> Played {
    if rest == "unavailable" {
        out.escaped(UNAVAILABLE);
        return Ok(());
    }
    print_response(&reply_of(out.alloc(), rest)?, out)
}

fn receipt_of(alloc: Global, rest: &str) -> Result<Receipt, CaseFault> {
    let (status, rest) = halves(rest, " ")?;
    let (command, body) = halves(rest, " ")?;
    Ok(Receipt {
        operator: parsed("olga")?,
        key: RequestKey::from([7; 16]),
        status: parsed(status)?,
        command: Text::from(String::from_str(alloc, command)?),
        body: Text::from(String::from_str(alloc, body)?),
    })
}

/// A copy of a receipt of olga's, `STATUS COMMAND BODY`.
pub fn receipt(rest: &str, out: &mut Out) -> Played {
    let copy = receipt_of(out.alloc(), rest)?.copy(out.alloc())?;
    out.show(format_args!("{} ", copy.operator));
    out.hex(&copy.key.octets());
    let (status, command, body) = (copy.status, copy.command.as_str(), copy.body.as_str());
    out.show(format_args!(" {status} {command} {body}"));
    Ok(())
}

/// The response that a receipt keeps, `STATUS COMMAND BODY`.
pub fn stored(rest: &str, out: &mut Out) -> Played {
    let receipt = receipt_of(out.alloc(), rest)?;
    print_response(&Reply::stored(out.alloc(), &receipt)?, out)
}
