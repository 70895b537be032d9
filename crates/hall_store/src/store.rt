//! The promise of a store.
ghost use Rattle.std.specs.Prelude.{◌≡◌, List, ◌∷◌, Option, option_map};
ghost use Rattle.hall_types.specs.{Hall.{Hall, pair, second}, Kinds.arch_number, Lookup.{interfaces_of, is_image_used, machine_with_uuid, next_expired, operator_with_digest, waiting}, Rows.{at, listed, size}};
ghost use Rattle.hall_store.specs.{Counts.AreCounts, Store.{Base, ReadsBy, WritesBy}};

use crate::count::Count;
use hall_types::{
    Arch, Boot, Change, Digest, Image, Interface, Live, MacAddress, Machine, MachineUuid, Member,
    Moment, Name, Number, Numbers, Operator, Order, Pool, Receipt, RequestKey,
};
use std::alloc::{AllocError, Global};
use thiserror::Error;

/// The store can't answer now: memory or a disk failed it, or a row to be written has another version than it
/// expects.
#[derive(Clone, Copy, Debug, PartialEq, Eq, Error)]
#[error("Unavailable")]
pub struct Unavailable;

impl From<AllocError> for Unavailable {
    fn from(_refused: AllocError) -> Unavailable {
        Unavailable
    }
}

/// What keeps a hall. A read answers what the hall has, or `Unavailable`, and leaves the hall as it is; `apply`
/// writes all rows of a change or none.
///
/// Each promise is made where the store is clean afterwards: where it hasn't taken a wrong answer of a disk for a right one. A store that is
/// clean afterwards was clean before.
pub trait HallStore {
    // no wrong answer of a disk was taken for a right one
    ghost is_clean: { Self → Type 0 };

    // the store has this hall
    ghost holds: { Self → Hall → Type 0 };

    // a stop now leaves one of these halls
    ghost leaves: { Self → List Hall → Type 0 };

    // a group of changes is held over this hall
    ghost over: { Self → Option Base → Type 0 };

    ghost wider: { (s : Self) (h : Hall) (hs : List Hall) → leaves s hs → leaves s (h ∷ hs) };

    ghost second_schema: { (s : Self) (h : Hall) → holds s h → h.schema ≡ second };

    /// The number of the machine that an address is recorded with.
    fn by_mac(&mut self, mac: MacAddress) -> Result<Option<Number>, Unavailable>
        ensures { ReadsBy is_clean holds leaves over self.old self.new result (λ h answer. answer ≡ option_map (λ i. i.machine) (at h.interfaces mac)) };

    /// The number of the machine that a UUID is recorded with.
    fn by_uuid(&mut self, uuid: MachineUuid) -> Result<Option<Number>, Unavailable>
        ensures { ReadsBy is_clean holds leaves over self.old self.new result (λ h answer. answer ≡ option_map (λ m. m.id) (machine_with_uuid h uuid)) };

    /// The machine with a number.
    fn machine(&mut self, id: Number) -> Result<Option<Machine>, Unavailable>
        ensures { ReadsBy is_clean holds leaves over self.old self.new result (λ h answer. answer ≡ at h.machines id) };

    /// The boot with a number.
    fn boot(&mut self, number: Number) -> Result<Option<Boot>, Unavailable>
        ensures { ReadsBy is_clean holds leaves over self.old self.new result (λ h answer. answer ≡ at h.boots number) };

    /// The order with a number.
    fn order(&mut self, number: Number) -> Result<Option<Order>, Unavailable>
        ensures { ReadsBy is_clean holds leaves over self.old self.new result (λ h answer. answer ≡ at h.orders number) };

    /// The operator with a name.
    fn operator(&mut self, name: &Name) -> Result<Option<Operator>, Unavailable>
        ensures { ReadsBy is_clean holds leaves over self.old self.new result (λ h answer. answer ≡ at h.operators name.now) };

    /// The operator whose token has a digest.
    fn operator_by_digest(&mut self, digest: &Digest) -> Result<Option<Operator>, Unavailable>
        ensures { ReadsBy is_clean holds leaves over self.old self.new result (λ h answer. answer ≡ operator_with_digest h digest.now) };

    /// The pool with a name.
    fn pool(&mut self, name: &Name) -> Result<Option<Pool>, Unavailable>
        ensures { ReadsBy is_clean holds leaves over self.old self.new result (λ h answer. answer ≡ at h.pools name.now) };

    /// The membership of an operator in a pool.
    fn member(&mut self, pool: &Name, operator: &Name) -> Result<Option<Member>, Unavailable>
        ensures { ReadsBy is_clean holds leaves over self.old self.new result (λ h answer. answer ≡ at h.members (pair pool.now operator.now)) };

    /// The image with a name. `alloc` is for the answer.
    fn image(&mut self, alloc: Global, name: &Name) -> Result<Option<Image>, Unavailable>
        ensures { ReadsBy is_clean holds leaves over self.old self.new result (λ h answer. answer ≡ at h.images name.now) };

    /// Whether an image is an architecture's live image or a machine's image.
    fn image_used(&mut self, name: &Name) -> Result<bool, Unavailable>
        ensures { ReadsBy is_clean holds leaves over self.old self.new result (λ h answer. answer ≡ is_image_used h name.now) };

    /// The live image of an architecture.
    fn live(&mut self, arch: Arch) -> Result<Option<Live>, Unavailable>
        ensures { ReadsBy is_clean holds leaves over self.old self.new result (λ h answer. answer ≡ at h.lives (arch_number arch)) };

    /// The receipt of an operator's request. `alloc` is for the answer.
    fn receipt(
        &mut self,
        alloc: Global,
        operator: &Name,
        key: RequestKey,
    ) -> Result<Option<Receipt>, Unavailable>
        ensures { ReadsBy is_clean holds leaves over self.old self.new result (λ h answer. answer ≡ at h.receipts (pair operator.now key)) };

    /// The last numbers that were issued.
    fn numbers(&mut self) -> Result<Numbers, Unavailable>
        ensures { ReadsBy is_clean holds leaves over self.old self.new result (λ h answer. answer ≡ h.last) };

    /// Of the machines whose deadline is at most a moment, the one with the least deadline, and of those with the
    /// same one the one with the least number.
    fn next_expired(&mut self, moment: Moment) -> Result<Option<Machine>, Unavailable>
        ensures { ReadsBy is_clean holds leaves over self.old self.new result (λ h answer. answer ≡ next_expired h moment) };

    /// How many machines there are.
    fn machine_count(&mut self) -> Result<u64, Unavailable>
        ensures { ReadsBy is_clean holds leaves over self.old self.new result (λ h answer. answer ≡ size h.machines) };

    /// The interfaces of a machine, by address.
    fn interfaces_of(&mut self, alloc: Global, id: Number) -> Result<Vec<Interface>, Unavailable>
        ensures { ReadsBy is_clean holds leaves over self.old self.new result (λ h answer. answer.items ≡ interfaces_of h id) };

    /// All interfaces, by address.
    fn interfaces(&mut self, alloc: Global) -> Result<Vec<Interface>, Unavailable>
        ensures { ReadsBy is_clean holds leaves over self.old self.new result (λ h answer. answer.items ≡ listed h.interfaces) };

    /// All machines, by number.
    fn machines(&mut self, alloc: Global) -> Result<Vec<Machine>, Unavailable>
        ensures { ReadsBy is_clean holds leaves over self.old self.new result (λ h answer. answer.items ≡ listed h.machines) };

    /// The orders that wait, by number.
    fn waiting_orders(&mut self, alloc: Global) -> Result<Vec<Order>, Unavailable>
        ensures { ReadsBy is_clean holds leaves over self.old self.new result (λ h answer. answer.items ≡ waiting h) };

    /// How many machines each pool has in each status, by the pool's name and the status's number, without those
    /// of which there are none.
    fn counts(&mut self, alloc: Global) -> Result<Vec<Count>, Unavailable>
        ensures { ReadsBy is_clean holds leaves over self.old self.new result (λ h answer. AreCounts h answer.items) };

    /// Writes all rows of a change in turn, or none. They are to keep the tables' rules (`AllKeep`). A machine's
    /// row that was to have another version is a refusal.
    fn apply(&mut self, change: &Change) -> Result<(), Unavailable>
        ensures { WritesBy is_clean holds leaves over self.old self.new result (λ h. change.now) };
}
