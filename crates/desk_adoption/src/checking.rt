//! Whether servers are adopted, as a store has them.
ghost use Rattle.std.specs.{Prelude.{◌≡◌, IfOk, true}, List.All};
ghost use Rattle.desk_adoption.specs.{Adoption.{AreAdopted, IsAdopted, IsDeployedFor, Keeps}, Prelude.{Hall}};

use crate::next::is_named;
use crate::server::Server;
use hall_store::{HallStore, Unavailable};
use hall_types::{Digest, Machine, Name, Status};

// Whether a machine is Deployed for this owner with this image, and no order waits for it.
#[tactic(auto, using(crate::proofs::AdoptionLemmas::deployed_for))]
fn is_deployed_for(machine: &Machine, owner: &Name, image: &Name) -> bool
    ensures { result ≡ true → IsDeployedFor owner.now image.now machine.now }
{
    match (machine.status, machine.waiting) {
        (Status::Deployed, None) => {
            is_named(machine.owner, owner) && is_named(machine.image, image)
        }
        _ => false,
    }
}

#[tactic(auto, using(crate::proofs::AdoptionLemmas::adopted))]
fn is_adopted<S: HallStore>(
    store: &mut S,
    owner: &Name,
    server: &Server,
) -> Result<bool, Unavailable>
    ensures keeps { Keeps S.HallStore store.old store.new }
    ensures is { S.HallStore.is_clean store.new → IfOk result (λ is. is ≡ true → (h : Hall) → S.HallStore.holds store.old h → IsAdopted owner.now h server.now) }
{
    match store.machine(server.machine)? {
        Some(machine) => Ok(is_deployed_for(&machine, owner, &server.image)),
        None => Ok(false),
    }
}

fn are_adopted<S: HallStore>(
    store: &mut S,
    owner: &Name,
    servers: &[Server],
) -> Result<bool, Unavailable>
    ensures keeps { Keeps S.HallStore store.old store.new }
    ensures are { S.HallStore.is_clean store.new → IfOk result (λ are. are ≡ true → (h : Hall) → S.HallStore.holds store.old h → All (IsAdopted owner.now h) servers.now) }
{
    for server in servers {
        if !is_adopted(store, owner, server)? {
            return Ok(false);
        }
    }
    Ok(true)
}

/// Whether the machines of all servers are Deployed for the operator whose token has this digest.
pub(crate) fn all_adopted<S: HallStore>(
    store: &mut S,
    owner: &Digest,
    servers: &[Server],
) -> Result<bool, Unavailable>
    ensures keeps { Keeps S.HallStore store.old store.new }
    ensures are { S.HallStore.is_clean store.new → IfOk result (λ are. are ≡ true → (h : Hall) → S.HallStore.holds store.old h → AreAdopted owner.now servers.now h) }
{
    match store.operator_by_digest(owner)? {
        Some(operator) => are_adopted(store, &operator.name, servers),
        None => Ok(false),
    }
}
