//! Octets of a client's option.
ghost use Rattle.std.specs.Prelude.{◌≡◌, length};

use std::marker::Model;

/// A list of octets. Contracts see only the list: a `Vec` also has a capacity and a place in memory.
#[derive(Drop)]
pub struct Octets {
    items: Vec<u8>,
}

impl Model for Octets {
    ghost use Rattle.std.specs.Prelude.{List, ℕ};

    ghost Value = { List ℕ };

    ghost view = { λ octets. octets.items.items };
}

impl From<Vec<u8>> for Octets {
    ghost from_gives = { λ items octets. octets ≡ items.items };

    fn from(items: Vec<u8>) -> Octets {
        Octets { items }
    }
}

impl Octets {
    pub fn as_slice(&self) -> &[u8]
        ensures { result.now ≡ self.now }
    {
        self.items.as_slice()
    }

    /// The octets in their memory.
    pub fn into_vec(self) -> Vec<u8>
        ensures { result.items ≡ self }
    {
        self.items
    }
}
