//! What a command line of hallctl asks for.
use crate::words::words_of;
use cases::{CaseFault, Out, Played};
use command_rows::Wrong;
use hallctl_texts::{Choice, Column};
use hallctl_words::{Form, Line, LineFault, Listing, MachineList, Waited, Which, Wish, read};

fn show_choice(choice: &Choice<'_>, out: &mut Out) {
    let filter = &choice.filter;
    let status = filter.status.map_or("-", |status| status.text());
    out.show(format_args!(", status {status}"));
    for (word, name) in [("pool", filter.pool), ("owner", filter.owner)] {
        let name = name.as_ref().map_or("-", |name| name.text());
        out.show(format_args!(", {word} {name}"));
    }
    show_given("search", choice.search, out);
    show_given("sort", choice.sort.map(|column| column.name()), out);
}

fn show_machines(list: &MachineList<'_>, out: &mut Out) {
    out.push(match list.form {
        Form::Table => "machines as table",
        Form::Json => "machines as json",
        Form::Ids => "machines as ids",
    });
    show_choice(&list.choice, out);
    if list.columns.as_slice() != Column::USUAL.as_slice() {
        out.push(", columns");
        for column in list.columns.as_slice() {
            out.show(format_args!(" {}", column.name()));
        }
    }
    out.push(if list.is_watched { ", watched" } else { "" });
}

fn show_listing(listing: &Listing<'_>, out: &mut Out) -> Played {
    match listing {
        Listing::Machines(list) => show_machines(list, out),
        Listing::Machine(Which::Number(id)) => out.show(format_args!("machine {}", id.get())),
        Listing::Machine(Which::Address(mac)) => {
            let mac = pxe_vendor::print_mac(out.alloc(), &mac.octets())?;
            out.show(format_args!("machine with {mac}"));
        }
        Listing::Orders => out.push("orders"),
    }
    Ok(())
}

fn show_waited(waited: &Waited, out: &mut Out) -> Played {
    out.push("wait for machine");
    for which in waited.machines.as_slice() {
        match which {
            Which::Number(id) => out.show(format_args!(" {}", id.get())),
            Which::Address(mac) => {
                let mac = pxe_vendor::print_mac(out.alloc(), &mac.octets())?;
                out.show(format_args!(" {mac}"));
            }
        }
    }
    for status in waited.statuses.as_slice() {
        out.show(format_args!(", {}", status.text()));
    }
    out.push(if waited.despite_failures {
        ", despite failures"
    } else {
        ""
    });
    Ok(())
}

fn show(wish: &Wish<'_>, out: &mut Out) -> Played {
    match wish {
        Wish::List(listing) => show_listing(listing, out)?,
        Wish::Change(commands) => {
            out.push("send");
            for command in commands.as_slice() {
                let text = command.text(out.alloc())?;
                out.show(format_args!(" {text}"));
            }
        }
        Wish::NewOperator(new) => {
            let (operator, role, file) = (new.operator, new.role.text(), new.file);
            out.show(format_args!("new operator {operator}, {role}, token to {file}"));
        }
        Wish::Wait(waited) => show_waited(waited, out)?,
        Wish::Import(file) => out.show(format_args!("import {file}")),
        Wish::Answer { order, outcome } => {
            out.show(format_args!("order {} is {}", order.get(), outcome.text()));
        }
        Wish::Hello => out.push("hello"),
        Wish::Halls => out.push("halls"),
        Wish::Completion => out.push("completion"),
    }
    Ok(())
}

fn show_given(word: &str, value: Option<&str>, out: &mut Out) {
    if let Some(value) = value {
        out.show(format_args!(", {word} {value}"));
    }
}

fn show_line(line: &Line<'_>, out: &mut Out) -> Played {
    show(&line.wish, out)?;
    out.show(format_args!("; {} s", line.timeout));
    show_given("desk", line.desk, out);
    show_given("token of", line.token_file, out);
    show_given("hall", line.hall.as_ref().map(|hall| hall.text()), out);
    show_given("halls of", line.halls, out);
    if let Some(key) = line.key {
        out.push(", key ");
        out.hex(&key.octets());
    }
    show_given("keys to", line.keys, out);
    if let Some(seconds) = line.wait {
        out.show(format_args!(", wait {seconds} s"));
    }
    out.push(if line.yes { ", yes" } else { "" });
    out.push(if line.dry_run { ", dry run" } else { "" });
    out.push(if line.json { ", json" } else { "" });
    Ok(())
}

/// What a command line asks for, or the fault.
pub(crate) fn show_wish(line: &str, out: &mut Out) -> Played {
    let words = words_of(out.alloc(), "hallctl", line)?;
    match read(out.alloc(), words.as_slice()) {
        Ok(line) => show_line(&line, out)?,
        Err(LineFault::Usage(usage)) => out.show(format_args!("status {}", usage.status())),
        Err(LineFault::Wrong(Wrong::Text(line))) => out.show(format_args!("status 2, {line}")),
        Err(LineFault::Wrong(Wrong::Memory)) => return Err(CaseFault::Memory),
    }
    Ok(())
}
