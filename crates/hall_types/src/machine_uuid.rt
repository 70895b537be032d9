//! Identifiers of machines.
ghost use Rattle.std.specs.Prelude.{◌≡◌};
ghost use Rattle.hall_types.specs.{Octets.AreOctets, Uuid.unless_blank};

use pxe_vendor::is_blank;
use std::marker::Model;

/// The UUID of a machine's system, 16 octets in the order in which a client sends them
/// (RFC 4578 section 2.3). Contracts see the octets.
#[derive(Clone, Copy, PartialEq, Eq)]
pub struct MachineUuid {
    octets: [u8; 16],
}

impl Model for MachineUuid {
    ghost use Rattle.std.specs.Prelude.{List, ℕ};

    ghost Value = { List ℕ };

    ghost view = { λ machine_uuid. machine_uuid.octets };

    ghost inverse = { λ octets. record { octets = octets } };
}

impl From<[u8; 16]> for MachineUuid {
    ghost from_gives = { λ octets machine_uuid. machine_uuid ≡ octets };

    fn from(octets: [u8; 16]) -> MachineUuid {
        MachineUuid { octets }
    }
}

impl MachineUuid {
    /// The UUID of these octets, unless they are all 0 or all 255, which identify no machine
    /// (SMBIOS, DSP0134 section 7.2.1).
    pub fn identifying(octets: [u8; 16]) -> Option<MachineUuid>
        ensures { result ≡ unless_blank octets }
    {
        if is_blank(&octets) {
            None
        } else {
            Some(MachineUuid { octets })
        }
    }

    pub fn octets(self) -> [u8; 16]
        ensures octets { result ≡ self }
        ensures range { AreOctets 16 self }
    {
        self.octets
    }
}
