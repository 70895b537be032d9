//! Processor architectures.
ghost use Rattle.std.specs.Prelude.{◌≡◌, ◌↔◌, ℕ, List, Some};
ghost use Rattle.pxe_vendor.specs.Arch.{arch_of_dhcp_number, arch_in, arch_text, numbers_of, class_numbers, first_known};

use crate::digits::{are_digits, decimal};
use std::str::FromStr;
use thiserror::Error;

/// A client's processor architecture and firmware (RFC 4578 section 2.1).
#[derive(Clone, Copy, PartialEq, Eq)]
pub enum Arch {
    Bios,
    Uefi32,
    Uefi64,
    Arm64,
}

impl Arch {
    /// The architecture's word in texts.
    #[tactic(auto, unfolding(crate::specs::Arch::arch_text))]
    pub fn text(self) -> &'static str
        ensures { result.now ≡ arch_text self }
    {
        match self {
            Arch::Bios => "bios",
            Arch::Uefi32 => "uefi32",
            Arch::Uefi64 => "uefi64",
            Arch::Arm64 => "arm64",
        }
    }
}

/// The text is not the word of an architecture.
#[derive(Clone, Copy, Debug, PartialEq, Eq, Error)]
#[error("not the word of an architecture")]
pub struct UnknownArch;

/// Reads an architecture's word: `bios`, `uefi32`, `uefi64` or `arm64`.
impl FromStr for Arch {
    ghost use Rattle.std.specs.Prelude.{◌≡◌, ok_or};
    ghost use Rattle.pxe_vendor.specs.{Arch.arch_in, declared.arch.UnknownArch.UnknownArch};

    type Err = UnknownArch;

    ghost from_str_gives = { λ text r. r ≡ ok_or (arch_in text) (record {}) };

    #[tactic(auto, unfolding(crate::specs::Arch::arch_in, crate::specs::Arch::arch_text))]
    fn from_str(text: &str) -> Result<Arch, UnknownArch> {
        match text {
            "bios" => Ok(Arch::Bios),
            "uefi32" => Ok(Arch::Uefi32),
            "uefi64" => Ok(Arch::Uefi64),
            "arm64" => Ok(Arch::Arm64),
            _ => Err(UnknownArch),
        }
    }
}

/// The law of the architectures' words: a text is read as an architecture if and only if it is the word
/// of that architecture.
pub fn one_word()
    ensures { (text : List ℕ) (arch : Arch) → (text ≡ arch_text arch) ↔ (arch_in text ≡ Some arch) }
{}

// The architecture of a number in option 93 or in a vendor class.
fn from_dhcp_number(number: u64) -> Option<Arch>
    ensures { result ≡ arch_of_dhcp_number number }
{
    match number {
        0 => Some(Arch::Bios),
        6 => Some(Arch::Uefi32),
        7 | 9 => Some(Arch::Uefi64),
        11 => Some(Arch::Arm64),
        _ => None,
    }
}

/// The first known architecture in option 93, a list of numbers of two octets.
#[tactic(auto, using(crate::proofs::ArchLemmas::arch_steps))]
pub(crate) fn in_list(octets: &[u8]) -> Option<Arch>
    ensures { result ≡ first_known (numbers_of octets.now) }
{
    for pair in octets.chunks_exact(2) {
        let known = from_dhcp_number(256 * u64::from(pair[0]) + u64::from(pair[1]));
        if known.is_some() {
            return known;
        }
    }
    None
}

// The places of the five digits in a vendor class `PXEClient:Arch:xxxxx:UNDI:yyyzzz` (PXE 2.1).
const DIGITS_START: usize = 15;

const DIGITS_END: usize = 20;

/// The known architecture in a vendor class.
#[tactic(auto, using(crate::proofs::ArchLemmas::arch_steps))]
pub(crate) fn in_class(class: &[u8]) -> Option<Arch>
    ensures { result ≡ first_known (class_numbers class.now) }
{
    if class.starts_with(b"PXEClient:Arch:") && class.len() >= DIGITS_END {
        let digits = &class[DIGITS_START..DIGITS_END];
        if are_digits(digits) {
            return from_dhcp_number(decimal(digits));
        }
    }
    None
}
