//! Images, read from a store.
ghost use Rattle.std.specs.Prelude.{◌≡◌};
ghost use Rattle.boot_desk.specs.Views.{live_image};
ghost use Rattle.desk_command.specs.{Prelude.{arch_number, row_at}, Look.Looks};

use crate::view::Read;
use hall_store::HallStore;
use hall_types::{Arch, Image, Name};
use std::alloc::Global;

// The image with a name, if there is a name.
pub(crate) fn image_at<S: HallStore>(
    alloc: Global,
    store: &mut S,
    name: Option<Name>,
) -> Read<Option<Image>>
    ensures { Looks S.HallStore store.old store.new result (λ h answer. answer ≡ row_at h.images name) }
{
    match name {
        Some(name) => store.image(alloc, &name),
        None => Ok(None),
    }
}

// The live image of an architecture.
pub(crate) fn live_image<S: HallStore>(
    alloc: Global,
    store: &mut S,
    arch: Arch,
) -> Read<Option<Image>>
    ensures { Looks S.HallStore store.old store.new result (λ h answer. answer ≡ live_image h (arch_number arch)) }
{
    match store.live(arch)? {
        Some(live) => store.image(alloc, &live.image),
        None => Ok(None),
    }
}
