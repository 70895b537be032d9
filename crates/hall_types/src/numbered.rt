//! Kinds that tables name by a number.
ghost use Rattle.std.specs.Prelude.{◌≡◌, ◌↔◌, ℕ, List, Some};
ghost use Rattle.hall_types.specs.{Kinds.{with_number, role_number, roles, purpose_number, purposes, stage_number, stages, order_kind_number, order_kinds, order_stage_number, order_stages, erase_number, erases}, KindLaws.{role_by_number, purpose_by_number, stage_by_number, order_kind_by_number, order_stage_by_number, erase_by_number, status_by_number}, Status.{status_number, statuses}};

use crate::kinds::{Erase, OrderKind, OrderStage, Purpose, Role, Stage};
use crate::status::Status;

/// A kind that tables name by a number.
pub trait Numbered: Copy {
    // the number of one
    ghost number_of: { Self → ℕ };

    // all of them
    ghost kinds: { List Self };

    /// The one that has this number.
    fn with_number(number: u8) -> Option<Self>
        ensures { result ≡ with_number number_of number kinds };

    ghost exact: { (number : ℕ) (kind : Self) → (with_number number_of number kinds ≡ Some kind) ↔ (number_of kind ≡ number) };
}

impl Numbered for Role {
    ghost number_of = { role_number };

    ghost kinds = { roles };

    ghost exact = { role_by_number };

    fn with_number(number: u8) -> Option<Self> {
        Self::ALL.iter().copied().find(|it| it.number() == number)
    }
}

impl Numbered for Purpose {
    ghost number_of = { purpose_number };

    ghost kinds = { purposes };

    ghost exact = { purpose_by_number };

    fn with_number(number: u8) -> Option<Self> {
        Self::ALL.iter().copied().find(|it| it.number() == number)
    }
}

impl Numbered for Stage {
    ghost number_of = { stage_number };

    ghost kinds = { stages };

    ghost exact = { stage_by_number };

    fn with_number(number: u8) -> Option<Self> {
        Self::ALL.iter().copied().find(|it| it.number() == number)
    }
}

impl Numbered for OrderKind {
    ghost number_of = { order_kind_number };

    ghost kinds = { order_kinds };

    ghost exact = { order_kind_by_number };

    fn with_number(number: u8) -> Option<Self> {
        Self::ALL.iter().copied().find(|it| it.number() == number)
    }
}

impl Numbered for OrderStage {
    ghost number_of = { order_stage_number };

    ghost kinds = { order_stages };

    ghost exact = { order_stage_by_number };

    fn with_number(number: u8) -> Option<Self> {
        Self::ALL.iter().copied().find(|it| it.number() == number)
    }
}

impl Numbered for Erase {
    ghost number_of = { erase_number };

    ghost kinds = { erases };

    ghost exact = { erase_by_number };

    fn with_number(number: u8) -> Option<Self> {
        Self::ALL.iter().copied().find(|it| it.number() == number)
    }
}

impl Numbered for Status {
    ghost number_of = { status_number };

    ghost kinds = { statuses };

    ghost exact = { status_by_number };

    fn with_number(number: u8) -> Option<Self> {
        Self::ALL.iter().copied().find(|it| it.number() == number)
    }
}
