//! The servers that are adopted, and whose tokens are used.
use hall_types::{Digest, Name, Number, RequestKey, Token};

/// A server that runs: the number of its machine, the image that it was deployed with, and octets that nobody can guess, for the keys of its
/// commands and the token of its boots.
#[derive(Clone, Copy)]
pub struct Server {
    pub machine: Number,
    pub image: Name,
    pub keys: Token,
    pub token: Token,
}

/// The digests of the tokens of the servers' owner, of an operator of role power, and of an admin, who commissions machines that are New.
#[derive(Clone, Copy)]
pub struct Adopters {
    pub owner: Digest,
    pub power: Digest,
    pub admin: Option<Digest>,
}

impl Server {
    /// The key of a command of this kind.
    pub(crate) fn key(&self, kind: u8) -> RequestKey {
        let mut octets = self.keys.octets();
        octets[15] ^= kind;
        RequestKey::from(octets)
    }
}
