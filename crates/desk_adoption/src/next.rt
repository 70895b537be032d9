//! What has to come next, so that a server's machine becomes Deployed.
ghost use Rattle.std.specs.Prelude.{◌≡◌, true, Some};
ghost use Rattle.desk_adoption.specs.Next.{IsNextOf};

use crate::looking::Seen;
use crate::server::{Adopters, Server};
use hall_events::{Event, HallCommand, MachineCommand};
use hall_types::{Act, Name, Outcome, Progress, Status};

/// What is next for a server's machine.
#[derive(Drop)]
pub(crate) enum Next {
    /// Nothing: it is Deployed for its owner with its image, and no order waits for it.
    Nothing,
    /// This comes to the desk.
    Event(Event),
    /// Its status isn't on the way there.
    Stuck,
}

// The kinds of keys, one for each command.
const COMMISSION: u8 = 1;

const ALLOCATE: u8 = 2;

const DEPLOY: u8 = 3;

pub(crate) fn is_named(its: Option<Name>, name: &Name) -> bool
    ensures { result ≡ true → its ≡ Some name.now }
{
    match its {
        Some(its) => its == *name,
        None => false,
    }
}

// A machine that works: its order is answered, then its script is asked for, then its boot is reported as done.
fn next_of_work(adopters: &Adopters, server: &Server, seen: &Seen) -> Next
    ensures { IsNextOf adopters.now server.now result }
{
    if let Some(order) = seen.machine.waiting {
        return Next::Event(Event::OrderAnswer {
            bearer: Some(adopters.power),
            order,
            outcome: Outcome::Done,
        });
    }
    match (seen.boot, seen.mac) {
        (Some(boot), _) => Next::Event(Event::Report {
            boot: boot.number,
            token: boot.token,
            progress: Progress::Done,
        }),
        (None, Some(mac)) => Next::Event(Event::Script { mac }),
        (None, None) => Next::Stuck,
    }
}

fn next_by_admin(adopters: &Adopters, server: &Server) -> Next
    ensures { IsNextOf adopters.now server.now result }
{
    match adopters.admin {
        Some(admin) => Next::Event(Event::Command {
            bearer: Some(admin),
            key: server.key(COMMISSION),
            command: HallCommand::OnMachine {
                machine: server.machine,
                version: None,
                command: MachineCommand::Commission { tests: false },
            },
        }),
        None => Next::Stuck,
    }
}

fn next_of_owner(adopters: &Adopters, server: &Server, seen: &Seen) -> Next
    ensures { IsNextOf adopters.now server.now result }
{
    let is_its_image = is_named(seen.machine.image, &server.image);
    match seen.machine.status {
        Status::Allocated | Status::FailedDeployment => Next::Event(Event::Command {
            bearer: Some(adopters.owner),
            key: server.key(DEPLOY),
            command: HallCommand::OnMachine {
                machine: server.machine,
                version: None,
                command: MachineCommand::Deploy {
                    image: server.image,
                },
            },
        }),
        Status::Deploying if is_its_image => next_of_work(adopters, server, seen),
        Status::Deployed if is_its_image && seen.machine.waiting.is_none() => Next::Nothing,
        _ => Next::Stuck,
    }
}

/// What is next for a server's machine, whose owner is to be the operator with a name. Where an admin's token is given, a machine that is New,
/// or failed when it was commissioned or tested, is commissioned first.
pub(crate) fn next_for(adopters: &Adopters, owner: &Name, server: &Server, seen: &Seen) -> Next
    ensures { IsNextOf adopters.now server.now result }
{
    match seen.machine.status {
        Status::New | Status::FailedCommissioning | Status::FailedTesting => {
            next_by_admin(adopters, server)
        }
        Status::Commissioning | Status::Testing if adopters.admin.is_some() => {
            next_of_work(adopters, server, seen)
        }
        Status::Ready => Next::Event(Event::Command {
            bearer: Some(adopters.owner),
            key: server.key(ALLOCATE),
            command: HallCommand::OnMachine {
                machine: server.machine,
                version: None,
                command: MachineCommand::Act(Act::Allocate),
            },
        }),
        _ if is_named(seen.machine.owner, owner) => next_of_owner(adopters, server, seen),
        _ => Next::Stuck,
    }
}
