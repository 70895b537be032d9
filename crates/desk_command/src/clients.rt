//! What a hall has of a PXE client, read from a store.
ghost use Rattle.std.specs.Prelude.{◌≡◌};
ghost use Rattle.desk_command.specs.{Causes.by_uuid, Client.IsEnough, Look.Looks};

use crate::view::Read;
use boot_desk::FrameView;
use hall_store::HallStore;
use hall_types::{LastIssued, MacAddress, MachineUuid, Number, Numbers};
use pxe_vendor::Client;

const NO_NUMBERS: Numbers = Numbers {
    machine: LastIssued::NONE,
    boot: LastIssued::NONE,
    order: LastIssued::NONE,
};

// The number of the machine that a UUID is recorded with, if there is a UUID.
pub(crate) fn by_uuid<S: HallStore>(
    store: &mut S,
    uuid: Option<MachineUuid>,
) -> Read<Option<Number>>
    ensures { Looks S.HallStore store.old store.new result (λ h answer. answer ≡ by_uuid h uuid) }
{
    match uuid {
        Some(uuid) => store.by_uuid(uuid),
        None => Ok(None),
    }
}

/// What a hall has of a client, as far as the decision on its frame needs it: the machines of its address and of its UUID, and,
/// where its address is unknown, how many machines there are and the last numbers.
#[tactic(auto, using(crate::proofs::ClientLemmas::whole_enough))]
pub fn frame_view<S: HallStore>(store: &mut S, client: &Client) -> Read<FrameView>
    ensures { Looks S.HallStore store.old store.new result (λ h view. IsEnough h client.now view) }
{
    let by_mac = store.by_mac(MacAddress::from(client.mac))?;
    let by_uuid = by_uuid(store, client.uuid.map(MachineUuid::from))?;
    if let Some(_) = by_mac {
        return Ok(FrameView {
            by_mac,
            by_uuid,
            machines: 0,
            numbers: NO_NUMBERS,
        });
    }
    let machines = store.machine_count()?;
    let numbers = store.numbers()?;
    Ok(FrameView {
        by_mac,
        by_uuid,
        machines,
        numbers,
    })
}
