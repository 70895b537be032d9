//! The numbers of architectures in tables.
ghost use Rattle.std.specs.Prelude.{◌≡◌};
ghost use Rattle.hall_types.specs.{Kinds.{arch_number, archs}, KindLaws.arch_by_number};

use crate::numbered::Numbered;
use pxe_vendor::Arch;

const ARCHS: [Arch; 4] = [Arch::Bios, Arch::Uefi32, Arch::Uefi64, Arch::Arm64];

/// An architecture's number in tables, 0 to 3. It is not the number that a client sends
/// (RFC 4578 section 2.1).
#[tactic(auto, unfolding(crate::specs::Kinds::arch_number))]
pub fn arch_number(arch: Arch) -> u8
    ensures { result ≡ arch_number arch }
{
    arch as u8
}

impl Numbered for Arch {
    ghost number_of = { arch_number };

    ghost kinds = { archs };

    ghost exact = { arch_by_number };

    fn with_number(number: u8) -> Option<Self> {
        ARCHS.iter().copied().find(|it| arch_number(*it) == number)
    }
}
