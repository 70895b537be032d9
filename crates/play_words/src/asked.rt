//! What a command line of hallboot asks for.
use crate::words::words_of;
use cases::{Out, Played};
use hall_report::What;
use hall_types::Port;
use hallboot_words::{AdoptTask, Failure, Frame, HallCopy, Job, Task, read, wants_reason};
use pxe_vendor::Place;
use std::net::Ipv4Addr;

fn show_place(place: &Place, out: &mut Out) {
    let (server, next) = (Ipv4Addr::from(place.server()), Ipv4Addr::from(place.next()));
    out.show(format_args!(", server {server}, next {next}, host {}", place.host()));
}

fn show_task(task: Task, out: &mut Out) {
    match task {
        Task::Request(request) => {
            out.show(format_args!("request at {}, fresh ", request.moment.get()));
            out.hex(&request.fresh.octets());
            show_place(&request.place, out);
        }
        Task::Report(What::Hall) => out.push("report hall"),
        Task::Report(What::Orders) => out.push("report orders"),
        Task::Report(What::Machine(id)) => out.show(format_args!("report machine {id}")),
        Task::Export => out.push("export"),
        Task::Import(asked) => {
            let (moment, len) = (asked.moment.get(), asked.octets.len());
            out.show(format_args!("import of {len} octets at {moment}, digest "));
            out.hex(&asked.bearer.octets());
            show_place(&asked.place, out);
        }
        Task::Adopt(asked) => show_adoption(&asked, out),
    }
}

fn show_adoption(asked: &AdoptTask, out: &mut Out) {
    out.push("adopt");
    for (machine, image) in asked.running.as_slice() {
        out.show(format_args!(" {} {image},", machine.get()));
    }
    out.show(format_args!(" at {}, owner ", asked.moment.get()));
    out.hex(&asked.owner.octets());
    out.push(", power ");
    out.hex(&asked.power.octets());
    if let Some(admin) = asked.admin {
        out.push(", admin ");
        out.hex(&admin.octets());
    }
}

fn show_over(path: &str, task: Task, out: &mut Out) {
    out.show(format_args!("{path}: "));
    show_task(task, out);
}

// Files are read that an import names.
fn show(rt: &HostRuntime, job: Job, out: &mut Out) -> Result<(), Failure> {
    match job {
        Job::Frame(Frame { port, place }) => {
            out.push(match port {
                Port::Discover => "frame discover",
                Port::Boot => "frame boot",
            });
            show_place(&place, out);
        }
        Job::Init(init) => {
            out.show(format_args!("init {}, admin {}, digest ", init.path, init.admin));
            out.hex(&init.digest.octets());
        }
        Job::Migrate(path) => out.show(format_args!("migrate {path}")),
        Job::Backup(HallCopy { path, copy }) => out.show(format_args!("backup {path} to {copy}")),
        Job::Restore(HallCopy { path, copy }) => {
            out.show(format_args!("restore {path} from {copy}"));
        }
        Job::Serve(serving) => out.show(format_args!("{serving}")),
        Job::Import(path, import) => show_over(path.as_str(), import.task(rt)?, out),
        Job::Adopt(path, adopt) => show_over(path.as_str(), adopt.task(rt)?, out),
        Job::Over(path, task) => show_over(path.as_str(), task, out),
    }
    Ok(())
}

fn show_failure(failure: Failure, out: &mut Out) {
    out.show(format_args!("fault {}", failure.fault.name()));
    if let Some(reason) = failure.reason {
        out.show(format_args!(": {reason}"));
    }
}

/// What a command line asks for, or the fault.
pub(crate) fn show_asked(rt: &HostRuntime, line: &str, out: &mut Out) -> Played {
    let words = words_of(out.alloc(), "hallboot", line)?;
    match read(out.alloc(), words.as_slice()) {
        Ok(options) => {
            if let Err(failure) = Job::read(rt, &options).and_then(|job| show(rt, job, out)) {
                show_failure(failure, out);
            }
            out.push(if wants_reason(&options) {
                ", and why"
            } else {
                ""
            });
        }
        Err(usage) => out.show(format_args!("status {}", usage.status())),
    }
    Ok(())
}
