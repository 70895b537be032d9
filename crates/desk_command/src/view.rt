//! The rows of a hall that a command names.
use hall_store::Unavailable;
use hall_types::{Arch, Machine, Number, Numbers, Operator, Order};

/// What was read of a store, unless it is unavailable.
pub type Read<T> = Result<T, Unavailable>;

/// What a hall has of a command. What the command doesn't name is none, 0 or false.
#[derive(Clone, Copy)]
pub struct CommandView {
    /// The machine.
    pub machine: Option<Machine>,
    /// The order that it waits for.
    pub order: Option<Order>,
    /// How many interfaces it has.
    pub interfaces: u64,
    /// Whether the operator whom the command names is a member of the pool that it names; or, for `allocate`, whether
    /// its sender is a member of the machine's pool.
    pub is_member: bool,
    /// Whether the machine's architecture has a live image.
    pub has_live: bool,
    /// The operator.
    pub operator: Option<Operator>,
    /// Whether an operator has the digest.
    pub has_digest: bool,
    /// Whether the pool is recorded.
    pub has_pool: bool,
    /// The architecture of the image.
    pub image: Option<Arch>,
    /// Whether the image is an architecture's live image or a machine's image.
    pub image_used: bool,
    /// The number of the machine that the address is recorded with.
    pub by_mac: Option<Number>,
    /// The number of the machine that the UUID is recorded with.
    pub by_uuid: Option<Number>,
    /// How many machines there are.
    pub machines: u64,
    /// The last numbers that were issued.
    pub numbers: Numbers,
}
