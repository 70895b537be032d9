//! The last list of a hall.
ghost use Rattle.std.specs.{Prelude.IsTrue, List.Sorted.IsNonDecreasingBy};
ghost use Rattle.hallview_state.specs.{Lists.IsListOf, Received.body_of};

use crate::listed::Listed;
use crate::received::Received;

/// The last list of a hall: the machines that a desk's answer lists, whose numbers rise.
#[derive(Drop)]
pub struct List {
    /// When it came, in seconds since 1970.
    pub at: u64,
    /// How long it took, in milliseconds.
    pub took: u64,
    pub machines: Vec<Listed>,
    pub(crate) answer: Received,
    ghost rising: { IsNonDecreasingBy (λ one. one.machine.id) machines.items },
    ghost listed: { IsListOf machines.items answer.status (body_of answer) },
}

impl List {
    /// Whether an answer has the same status and the same body.
    pub(crate) fn is_of(&self, received: &Received) -> bool
        ensures { IsTrue result → IsListOf self.now.machines.items received.now.status (body_of received.now) }
    {
        self.answer.status == received.status && self.answer.body() == received.body()
    }
}
