//! What a hall has under the names that a command has, read from a store.
ghost use Rattle.std.specs.Prelude.{◌≡◌, is_some};
ghost use Rattle.desk_command.specs.Causes as view;
ghost use Rattle.desk_command.specs.{Prelude.{arch_number, operator_with_digest, at}, Look.Looks};

use crate::view::{CommandView, Read};
use hall_store::HallStore;
use hall_types::{Arch, Digest, Name};
use std::alloc::Global;

// Nothing but the last numbers.
pub(crate) fn nothing<S: HallStore>(store: &mut S) -> Read<CommandView>
    ensures { Looks S.HallStore store.old store.new result (λ h answer. answer ≡ view.nothing_of h) }
{
    let numbers = store.numbers()?;
    Ok(CommandView {
        machine: None,
        order: None,
        interfaces: 0,
        is_member: false,
        has_live: false,
        operator: None,
        has_digest: false,
        has_pool: false,
        image: None,
        image_used: false,
        by_mac: None,
        by_uuid: None,
        machines: 0,
        numbers,
    })
}

pub(crate) fn has_pool<S: HallStore>(store: &mut S, pool: &Name) -> Read<bool>
    ensures { Looks S.HallStore store.old store.new result (λ h answer. answer ≡ view.has_pool h pool.now) }
{
    Ok(store.pool(pool)?.is_some())
}

pub(crate) fn has_member<S: HallStore>(store: &mut S, pool: &Name, operator: &Name) -> Read<bool>
    ensures { Looks S.HallStore store.old store.new result (λ h answer. answer ≡ view.has_member h pool.now operator.now) }
{
    Ok(store.member(pool, operator)?.is_some())
}

pub(crate) fn has_live<S: HallStore>(store: &mut S, arch: Arch) -> Read<bool>
    ensures { Looks S.HallStore store.old store.new result (λ h answer. answer ≡ is_some (at h.lives (arch_number arch))) }
{
    Ok(store.live(arch)?.is_some())
}

pub(crate) fn has_digest<S: HallStore>(store: &mut S, digest: &Digest) -> Read<bool>
    ensures { Looks S.HallStore store.old store.new result (λ h answer. answer ≡ is_some (operator_with_digest h digest.now)) }
{
    Ok(store.operator_by_digest(digest)?.is_some())
}

// The architecture of an image that is recorded.
pub(crate) fn image_arch<S: HallStore>(
    alloc: Global,
    store: &mut S,
    image: &Name,
) -> Read<Option<Arch>>
    ensures { Looks S.HallStore store.old store.new result (λ h answer. answer ≡ view.image_arch h image.now) }
{
    match store.image(alloc, image)? {
        Some(image) => Ok(Some(image.arch())),
        None => Ok(None),
    }
}
