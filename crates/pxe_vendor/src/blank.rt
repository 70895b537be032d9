//! UUIDs that identify no machine.
ghost use Rattle.std.specs.{Prelude.{◌≡◌, ◌==◌}, List.list_all};
ghost use Rattle.pxe_vendor.specs.Blank.{is_blank};

fn are_all(octets: &[u8], value: u8) -> bool
    ensures { result ≡ list_all (λ octet. octet == value) octets.now }
{
    octets.iter().all(|octet| *octet == value)
}

/// Whether the octets of a UUID identify no machine: all are 0, or all are 255 (SMBIOS, DSP0134 section 7.2.1).
pub fn is_blank(octets: &[u8]) -> bool
    ensures { result ≡ is_blank octets.now }
{
    are_all(octets, 0) || are_all(octets, 255)
}
