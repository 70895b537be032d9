//! A hall in memory.
use hall_types::{
    Boot, Image, Interface, Live, Machine, Member, Name, Number, Numbers, Operator, Order, Pool,
    Receipt,
};
use std::alloc::Global;
use std::collections::{BTreeMap, HashMap};

/// A hall kept in memory: a map in order for each table. Beside them, so that the machine of a frame is found as fast among
/// many as among few, are the interfaces under a hash of their addresses and the machines' numbers under one of their
/// UUIDs; and how many machines there are, and a deadline that none of theirs is before.
#[derive(Drop)]
pub struct MemoryStore {
    pub(crate) alloc: Global,
    pub(crate) operators: BTreeMap<Name, Option<Operator>>,
    pub(crate) pools: BTreeMap<Name, Option<Pool>>,
    pub(crate) members: BTreeMap<(Name, Name), Option<Member>>,
    pub(crate) images: BTreeMap<Name, Option<Image>>,
    pub(crate) lives: BTreeMap<u8, Option<Live>>,
    pub(crate) machines: BTreeMap<u64, Option<Machine>>,
    pub(crate) interfaces: BTreeMap<[u8; 6], Option<Interface>>,
    pub(crate) boots: BTreeMap<u64, Option<Boot>>,
    pub(crate) orders: BTreeMap<u64, Option<Order>>,
    pub(crate) receipts: BTreeMap<(Name, [u8; 16]), Option<Receipt>>,
    pub(crate) numbers: Numbers,
    pub(crate) addresses: HashMap<[u8; 6], Option<Interface>>,
    pub(crate) uuids: HashMap<[u8; 16], Option<Number>>,
    pub(crate) machine_count: u64,
    pub(crate) earliest: u64,
}
