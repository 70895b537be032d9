//! The tasks over an open store, which they give back. The store's type stays open here, so that no proof looks into a file.
ghost use Rattle.hallboot_tasks.specs.Served.{WasServed};

use crate::random_block::RandomBlock;
use crate::serving::serve;
use crate::suspended::Suspended;
use desk_adoption::{Adopted, Adopters, Server};
use desk_operations::{Exit, Imported};
use hall_desk::{Desk, histories_keep_the_laws};
use hall_http::Noted;
use hall_report::Fault;
use hall_store::{Cached, HallStore};
use hallboot_files::Joining;
use hallboot_words::{AdoptTask, ImportTask, Request, Serving, Task};
use rand::rngs::SysRng;
use std::alloc::AllocError;

/// What came of a task, and its store.
pub type Carried<S> = (Result<Exit, Fault>, S);

fn done(task: Result<(), Fault>) -> Result<Exit, Fault> {
    task.map(|_| Exit::Done)
}

fn request<S: HallStore>(rt: &HostRuntime, store: S, request: Request) -> Carried<S> {
    let (alloc, moment, fresh) = (rt.alloc(), request.moment, request.fresh);
    let mut desk = Desk::new(store, request.place);
    let mut reader = Noted::new(rt.stdin());
    let mut writer = Noted::new(rt.stdout());
    let task = desk_operations::request(alloc, &mut desk, &mut reader, &mut writer, moment, fresh);
    (done(task), desk.into_store())
}

fn import<S: HallStore>(rt: &HostRuntime, store: S, asked: ImportTask) -> Carried<S> {
    let (octets, bearer, moment) = (asked.octets, asked.bearer, asked.moment);
    let mut desk = Desk::new(store, asked.place);
    let (alloc, mut out) = (rt.alloc(), rt.stdout());
    let task = desk_operations::import(alloc, &mut desk, &mut out, &octets, bearer, moment);
    let exit = task.map(|imported| match imported {
        Imported::All => Exit::Done,
        Imported::NotAll => Exit::NotAll,
    });
    (exit, desk.into_store())
}

// Servers with octets that nobody can guess.
fn servers_of(
    rt: &HostRuntime,
    asked: &AdoptTask,
) -> Result<Result<Vec<Server>, Fault>, AllocError> {
    let (mut random, mut block) = (SysRng::new(rt), RandomBlock::new());
    let mut servers = Vec::new(rt.alloc());
    for (machine, image) in asked.running.as_slice() {
        let (Some(keys), Some(token)) = (block.token(&mut random), block.token(&mut random)) else {
            return Ok(Err(Fault::Io));
        };
        servers.push(Server {
            machine: *machine,
            image: *image,
            keys,
            token,
        })?;
    }
    Ok(Ok(servers))
}

fn adopt<S: HallStore>(rt: &HostRuntime, store: S, asked: &AdoptTask) -> Carried<S> {
    let servers = match servers_of(rt, asked) {
        Ok(Ok(servers)) => servers,
        Ok(Err(fault)) => return (Err(fault), store),
        Err(AllocError) => return (Err(Fault::Memory), store),
    };
    let adopters = Adopters {
        owner: asked.owner,
        power: asked.power,
        admin: asked.admin,
    };
    let (place, moment, mut out) = (&asked.place, asked.moment, rt.stdout());
    let (adopted, store) = desk_adoption::adopt(
        rt.alloc(),
        store,
        place,
        &mut out,
        &adopters,
        &servers,
        moment,
    );
    let exit = adopted.map(|adopted| match adopted {
        Adopted::All => Exit::Done,
        Adopted::NotAll => Exit::NotAll,
    });
    (exit, store)
}

fn carried_out_over<S: HallStore>(rt: &HostRuntime, mut store: S, task: Task) -> Carried<S> {
    match task {
        Task::Request(asked) => request(rt, store, asked),
        Task::Report(what) => {
            let task = desk_operations::report(rt.alloc(), &mut store, &mut rt.stdout(), what);
            (done(task), store)
        }
        Task::Export => {
            let task = desk_operations::export(rt.alloc(), &mut store, &mut rt.stdout());
            (done(task), store)
        }
        Task::Import(asked) => import(rt, store, asked),
        Task::Adopt(asked) => adopt(rt, store, &asked),
    }
}

/// Carries a task out over a store. Addresses and lists are kept in memory meanwhile.
pub fn carried_out<S: HallStore>(rt: &HostRuntime, store: S, task: Task) -> Carried<S> {
    match Cached::new(rt.alloc(), store) {
        Ok(cached) => {
            let (exit, cached) = carried_out_over(rt, cached, task);
            (exit, cached.into_inner())
        }
        Err(store) => (Err(Fault::Memory), store),
    }
}

/// Serves the turns that are left of a service over a store, or until a fault shuts it, or its file goes. Addresses and lists are kept in
/// memory meanwhile, and several requests are answered by one commit.
///
/// With all that came to the hall since it was new, it is a history that keeps all laws. A stop leaves, of a store that was settled, the
/// hall after some of the arrivals, or after some more whose answers weren't given.
pub fn served<S: HallStore, J: Joining>(
    rt: &HostRuntime,
    store: S,
    serving: &Serving,
    suspended: &mut Suspended,
    joining: &J,
) -> Carried<S>
    ensures { S.HallStore.is_clean result.1 → WasServed S.HallStore store result.1 }
{
    histories_keep_the_laws();
    match Cached::new(rt.alloc(), store) {
        Ok(cached) => {
            let (task, cached) = serve(rt, cached, serving, suspended, joining);
            (done(task), cached.into_inner())
        }
        Err(store) => (Err(Fault::Memory), store),
    }
}
