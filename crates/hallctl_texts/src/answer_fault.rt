//! Why an answer can't be put in words.
ghost use Rattle.std.specs.Prelude.{◌≡◌};

use std::alloc::AllocError;
use thiserror::Error;

/// Why an answer can't be put in words.
#[derive(Clone, Copy, Debug, PartialEq, Eq, Error)]
pub enum AnswerFault {
    /// The answer isn't one that a desk gives to such a request.
    #[error("the answer isn't a boot desk's")]
    NotTheDesk = 1,
    #[error("out of memory")]
    Memory = 2,
}

impl From<AllocError> for AnswerFault {
    ghost use Rattle.hallctl_texts.specs.declared.answer_fault.AnswerFault.TheVariants.{Memory};

    ghost from_gives = { λ _ fault. fault ≡ Memory };

    fn from(_error: AllocError) -> AnswerFault {
        AnswerFault::Memory
    }
}
