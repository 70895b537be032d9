//! What is printed of each server.
use crate::server::Server;
use crate::steps::End;
use std::alloc::{AllocError, Global};

/// The line of a server, as `machine 7: adopted`.
pub(crate) fn line_of(alloc: Global, server: &Server, end: &End) -> Result<String, AllocError> {
    let id = server.machine.get();
    match end {
        End::Adopted => format!(in alloc; "machine {id}: Deployed\n"),
        End::Refused { status, body } => {
            let body = body.as_str();
            format!(in alloc; "machine {id}: not adopted, {status} {body}\n")
        }
        End::Stuck(status) => {
            let status = status.text();
            format!(in alloc;
                "machine {id}: not adopted, it is {status}, or another's, or has another image\n"
            )
        }
        End::NoMachine => format!(in alloc; "machine {id}: there is none\n"),
        End::Unavailable => format!(in alloc; "machine {id}: not adopted, unavailable\n"),
    }
}
