//! How many machines each pool has in each status.
use hall_types::{Name, Status};

/// How many machines a pool has in a status.
#[derive(Clone, Copy, PartialEq, Eq)]
pub struct Count {
    pub pool: Name,
    pub status: Status,
    pub machines: u64,
}
