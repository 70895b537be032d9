//! Halls of machines at a glance: pages over HTTP of what their desks list. Nothing is changed, neither here nor in a hall.
#![tactic(auto)]

mod addresses;
mod asked;
mod asking;
mod clients;
mod clocks;
mod command_line;
mod connection;
mod dues;
mod end;
mod exchange;
mod exchanges;
mod fault;
mod finding;
mod least;
mod marks;
mod options;
mod schedule;
mod seats;
mod server;
mod service;
mod slots;
mod sockets;
mod taking;
mod times;
mod tokens;
mod turn;
mod watch;

use asked::Line;
use command_line::read;
use end::End;
use finding::viewing;
use server::Server;
use std::io::Write;
use std::process::ExitCode;
use std::{env, io};

// The words of the command line.
fn given(rt: &HostRuntime) -> io::Result<Vec<String>> {
    Ok(env::args(rt)?.collect(rt.alloc())?)
}

// Says where pages are.
fn tell_ready(rt: &HostRuntime, server: &Server) -> Result<(), End> {
    let address = server.address;
    let line = format!(in rt.alloc(); "hallview ready at http://{address}\n")?;
    match rt.stdout().write_all(line.as_bytes()) {
        Ok(()) => Ok(()),
        Err(_) => Err(End::Output),
    }
}

fn serve(rt: &HostRuntime, line: &Line<'_>) -> Result<(), End> {
    let viewing = viewing(rt, line)?;
    let mut server = Server::bind(rt, line.listen, viewing)?;
    tell_ready(rt, &server)?;
    server.serve(rt)?;
    Ok(())
}

fn run(rt: &HostRuntime) -> Result<(), End> {
    let Ok(words) = given(rt) else {
        return Err(End::NotText);
    };
    let line = read(rt.alloc(), words.as_slice())?;
    serve(rt, &line)
}

fn main(rt: HostRuntime) -> ExitCode {
    match run(&rt) {
        Ok(()) => ExitCode::SUCCESS,
        Err(end) => ExitCode::from(end.report(&rt)),
    }
}
