//! What operators do to a machine by a word alone.
ghost use Rattle.std.specs.{Prelude.◌≡◌, Result.result_ok};
ghost use Rattle.hall_types.specs.{Act.{act_of_text, act_text}, Kinds.with_text};

use crate::kinds::UnknownWord;
use std::str::FromStr;

/// What an operator does to a machine, where a word says all of it.
#[derive(Clone, Copy, PartialEq, Eq)]
pub enum Act {
    Test,
    /// Take a machine whose tests failed as ready.
    Override,
    /// Mark a broken machine as ready.
    Fix,
    Allocate,
    /// Boot the machine into rescue.
    Rescue,
    /// End what the machine is doing, before it is done.
    Abort,
    /// Refuse other commands on the machine until it is unlocked.
    Lock,
    Unlock,
    ExitRescue,
    /// Mark the machine as broken.
    Break,
}

#[tactic(auto, unfolding(crate::specs::Act::act_text))]
impl Act {
    /// All of them.
    pub const ALL: [Act; 10] = [
        Act::Test,
        Act::Override,
        Act::Fix,
        Act::Allocate,
        Act::Rescue,
        Act::Abort,
        Act::Lock,
        Act::Unlock,
        Act::ExitRescue,
        Act::Break,
    ];

    /// The word in texts.
    pub fn text(self) -> &'static str
        ensures { result.now ≡ act_text self }
    {
        match self {
            Act::Test => "test",
            Act::Override => "override",
            Act::Fix => "fix",
            Act::Allocate => "allocate",
            Act::Rescue => "rescue",
            Act::Abort => "abort",
            Act::Lock => "lock",
            Act::Unlock => "unlock",
            Act::ExitRescue => "exit_rescue",
            Act::Break => "break",
        }
    }
}

// The one of these acts that has this word.
fn with_word(acts: &[Act], word: &str) -> Option<Act>
    ensures { result ≡ with_text act_text word.now acts.now }
{
    acts.iter().copied().find(|it| it.text() == word)
}

impl FromStr for Act {
    type Err = UnknownWord;

    ghost from_str_gives = { λ text result. result_ok result ≡ act_of_text text };

    fn from_str(text: &str) -> Result<Self, UnknownWord> {
        with_word(&Self::ALL, text).ok_or(UnknownWord)
    }
}
