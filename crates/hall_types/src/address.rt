//! Hardware addresses.
ghost use Rattle.std.specs.{Prelude.{◌≡◌, Some, refl}, Ordering.nat_cmp, Cmp.Lexicographic.{slice_cmp, nat_list_cmp_total, texts_po, texts_ties}};
ghost use Rattle.hall_types.specs.Octets.{AreOctets};

use pxe_vendor::read_mac;
use std::cmp::Ordering;
use std::marker::Model;
use std::str::FromStr;
use thiserror::Error;

/// An Ethernet address, six octets in the order in which they are sent. Contracts see the octets.
#[derive(Clone, Copy, PartialEq, Eq)]
pub struct MacAddress {
    octets: [u8; 6],
}

impl Model for MacAddress {
    ghost use Rattle.std.specs.Prelude.{List, ℕ};

    ghost Value = { List ℕ };

    ghost view = { λ address. address.octets };

    ghost inverse = { λ octets. record { octets = octets } };
}

impl From<[u8; 6]> for MacAddress {
    ghost from_gives = { λ octets address. address ≡ octets };

    fn from(octets: [u8; 6]) -> MacAddress {
        MacAddress { octets }
    }
}

/// The text is no hardware address.
#[derive(Clone, Copy, Debug, PartialEq, Eq, Error)]
#[error("an address is six octets of two hexadecimal digits, with colons between them")]
pub struct BadMacAddress;

/// An address is read as in `52:54:00:12:34:56`, with its digits in either case.
impl FromStr for MacAddress {
    type Err = BadMacAddress;

    ghost use Rattle.std.specs.Result.{result_ok};
    ghost use Rattle.pxe_vendor.specs.MacText.{mac_of};

    ghost from_str_gives = { λ text result. result_ok result ≡ mac_of text };

    fn from_str(text: &str) -> Result<Self, BadMacAddress> {
        let octets = read_mac(text.as_bytes()).ok_or(BadMacAddress)?;
        Ok(MacAddress { octets })
    }
}

impl MacAddress {
    pub fn octets(self) -> [u8; 6]
        ensures octets { result ≡ self }
        ensures range { AreOctets 6 self }
    {
        self.octets
    }
}

/// Addresses are in the order of their octets.
impl Ord for MacAddress {
    ghost cmp = { slice_cmp nat_cmp };

    ghost total = { nat_list_cmp_total };

    ghost matches_partial_cmp = { λ one other. refl };

    ghost matches_eq = { texts_ties };

    fn cmp(&self, other: &MacAddress) -> Ordering {
        self.octets.cmp(&other.octets)
    }
}

impl PartialOrd for MacAddress {
    ghost partial_cmp = { λ one other. Some (slice_cmp nat_cmp one other) };

    ghost laws = { texts_po };

    fn partial_cmp(&self, other: &MacAddress) -> Option<Ordering> {
        Some(self.cmp(other))
    }
}
