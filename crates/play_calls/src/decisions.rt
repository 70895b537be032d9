//! How clients are answered, by what is known of them.
use crate::frames::print_field;
use boot_desk::{Decision, FrameView, enlist, frame};
use cases::{CaseFault, Out, Played, halves, number};
use hall_types::{Client, Port, RowWrite};
use play_log::{arrival, client_of, maybe, numbers};
use std::alloc::Global;

// The client whose frame arrives, and the port.
fn client_in(alloc: Global, words: &str) -> Result<(Port, Client), CaseFault> {
    client_of(alloc, &arrival(alloc, words)?)
}

/// How a client is answered, `BY_ADDRESS BY_UUID MACHINES LAST, ARRIVAL`: the machines with its address and with its UUID, how
/// many machines the hall has, and the last number of a machine.
pub fn decide(rest: &str, out: &mut Out) -> Played {
    let (words, arrival) = halves(rest, ", ")?;
    let (by_mac, words) = halves(words, " ")?;
    let (by_uuid, words) = halves(words, " ")?;
    let (machines, last) = halves(words, " ")?;
    let view = FrameView {
        by_mac: maybe(by_mac)?,
        by_uuid: maybe(by_uuid)?,
        machines: number(machines)?,
        numbers: numbers(last)?,
    };
    let (port, client) = client_in(out.alloc(), arrival)?;
    match frame(&view, port, &client) {
        Decision::Loader => out.push("loader"),
        Decision::ScriptUrl => out.push("script"),
        Decision::Enlist => out.push("enlist"),
        Decision::Silent(cause) => out.show(format_args!("silence {} {cause:?}", cause as u8)),
    }
    Ok(())
}

fn print_row(row: &RowWrite, out: &mut Out) {
    match row {
        RowWrite::PutMachine { machine, was } => {
            let (id, status, pool) = (machine.id.get(), machine.status.text(), machine.pool);
            out.push(if was.is_none() { "new" } else { "changed" });
            out.show(format_args!(" machine {id} {status} {pool}"));
            if let Some(uuid) = machine.uuid {
                print_field("uuid", &uuid.octets(), out);
            }
        }
        RowWrite::PutInterface(interface) => {
            out.show(format_args!("interface of {} ", interface.machine.get()));
            out.hex(&interface.mac.octets());
        }
        RowWrite::PutNumbers(last) => out.show(format_args!("last machine {}", last.machine.get())),
        _ => out.push("another row"),
    }
    out.push("\n");
}

/// The rows of a client that is enlisted, `LAST, ARRIVAL`.
pub fn enlisted(rest: &str, out: &mut Out) -> Played {
    let (last, arrival) = halves(rest, ", ")?;
    let issued = numbers(last)?;
    let (_, client) = client_in(out.alloc(), arrival)?;
    for row in enlist(out.alloc(), &client, issued)?.writes() {
        print_row(row, out);
    }
    Ok(())
}
