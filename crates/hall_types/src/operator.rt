//! Operators, and the pools of machines that they are members of.
use crate::digest::Digest;
use crate::kinds::Role;
use crate::name::Name;

/// Who gives commands.
#[derive(Clone, Copy)]
pub struct Operator {
    pub name: Name,
    pub role: Role,
    pub digest: Digest,
    /// Whether its token is accepted.
    pub enabled: bool,
}

/// A pool of machines.
#[derive(Clone, Copy)]
pub struct Pool {
    pub name: Name,
}

/// An operator's membership of a pool.
#[derive(Clone, Copy)]
pub struct Member {
    pub pool: Name,
    pub operator: Name,
}
