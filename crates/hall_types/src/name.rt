//! Names.
ghost use Rattle.std.specs.{Prelude.{◌≡◌, ◌≤◌, ◌↔◌, length, Some, refl, IfOk, IsErr, IsTrue}, List.list_all, Ordering.nat_cmp, Cmp.{partial_equiv_from_equiv, Lexicographic.{slice_cmp, nat_list_eq_equiv, nat_list_cmp_total, texts_po, texts_ties}}, Str.bytes_eq};
ghost use Rattle.hall_types.specs.Name.{IsName, filled, is_name, is_name_octet};

use std::cmp::Ordering;
use std::marker::Model;
use std::str::FromStr;
use std::{fmt, str};
use thiserror::Error;

/// A name of an operator, a pool or an image: 1 to 32 characters of `a-z`, `0-9` and `-`, the first a
/// letter. Contracts see its text.
#[derive(Clone, Copy)]
pub struct Name {
    // The text, filled up with zeros.
    octets: [u8; 32],
}

impl Model for Name {
    ghost use Rattle.std.{specs.Prelude.{◌≡◌, ℕ, List}, proofs.Common.{ap, sym}};
    ghost use Rattle.hall_types.specs.Name.{IsName, filled, name_in};

    ghost Value = { List ℕ };

    ghost view = { λ name. name_in name.octets };

    ghost invariant = { λ name. IsName (name_in name.octets) × (name.octets ≡ filled (name_in name.octets)) };

    ghost inverse = { λ text. record { octets = filled text } };

    ghost inverse_ok = { λ name h i. record { octets = sym h.1 i } };
}

/// The text is no name.
#[derive(Clone, Copy, Debug, PartialEq, Eq, Error)]
#[error("a name has 1 to 32 characters of a-z, 0-9 and -, the first a letter")]
pub struct BadName;

fn are_name_octets(octets: &[u8]) -> bool
    ensures { result ≡ list_all is_name_octet octets.now }
{
    octets.iter().all(|octet| octet.is_ascii_lowercase()
        || octet.is_ascii_digit()
        || *octet == b'-')
}

#[tactic(auto, unfolding(crate::specs::Name::is_name))]
fn is_name(text: &[u8]) -> bool
    ensures name { result ≡ is_name text.now }
    ensures short { IsTrue result → length text.now ≤ 32 }
{
    let Some((first, others)) = text.split_first() else {
        return false;
    };
    first.is_ascii_lowercase() && are_name_octets(others) && others.len() <= 31
}

static ZEROS: [u8; 32] = [0; 32];

fn filled(text: &[u8]) -> [u8; 32]
    requires { length text.now ≤ 32 }
    ensures { result ≡ filled text.now }
{
    let mut octets = ZEROS;
    octets[..text.len()].copy_from_slice(text);
    octets
}

impl Name {
    /// The name with this text. It takes no memory.
    #[tactic(auto, using(crate::proofs::NameLemmas::name_steps))]
    pub fn new(text: &str) -> Result<Name, BadName>
        ensures name { IfOk result (λ name. name ≡ text.now) }
        ensures bad { IsErr result ↔ ¬ (IsName text.now) }
    {
        if !is_name(text.as_bytes()) {
            return Err(BadName);
        }
        let octets = filled(text.as_bytes());
        Ok(Name { octets })
    }

    /// Its characters.
    #[tactic(auto, using(crate::proofs::NameLemmas::name_steps))]
    pub fn text(&self) -> &str
        ensures text { result.now ≡ self.now }
        ensures name { IsName self.now }
    {
        match str::from_utf8(&self.octets) {
            Ok(text) => match text.split_once('\0') {
                Some((name, _)) => name,
                None => text,
            },
            Err(_) => unreachable!(),
        }
    }
}

impl FromStr for Name {
    type Err = BadName;

    ghost use Rattle.std.specs.Result.{result_ok};
    ghost use Rattle.hall_types.specs.Name.{name_of};

    ghost from_str_gives = { λ text result. result_ok result ≡ name_of text };

    fn from_str(text: &str) -> Result<Self, BadName> {
        Name::new(text)
    }
}

impl PartialEq for Name {
    ghost eq = { bytes_eq };

    ghost laws = { partial_equiv_from_equiv nat_list_eq_equiv };

    fn eq(&self, other: &Name) -> bool {
        self.text() == other.text()
    }
}

impl Eq for Name {
    ghost laws = { nat_list_eq_equiv };
}

/// Names are in the order of their octets.
impl Ord for Name {
    ghost cmp = { slice_cmp nat_cmp };

    ghost total = { nat_list_cmp_total };

    ghost matches_partial_cmp = { λ one other. refl };

    ghost matches_eq = { texts_ties };

    fn cmp(&self, other: &Name) -> Ordering {
        self.text().cmp(other.text())
    }
}

impl PartialOrd for Name {
    ghost partial_cmp = { λ one other. Some (slice_cmp nat_cmp one other) };

    ghost laws = { texts_po };

    fn partial_cmp(&self, other: &Name) -> Option<Ordering> {
        Some(self.cmp(other))
    }
}

impl fmt::Debug for Name {
    fn fmt<W: fmt::Write>(&self, f: &mut fmt::Formatter<W>) -> fmt::Result {
        fmt::Debug::fmt(&self.text(), f)
    }
}

impl fmt::Display for Name {
    ghost output = { λ name. Some name };

    fn fmt<W: fmt::Write>(&self, f: &mut fmt::Formatter<W>) -> fmt::Result {
        f.pad(self.text())
    }
}
