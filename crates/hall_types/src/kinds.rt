//! Kinds that texts name by a word, and most of them tables by a number.
ghost use Rattle.std.specs.{Prelude.◌≡◌, Result.result_ok};
ghost use Rattle.hall_types.specs.Kinds.{role_text, role_number, role_of_text, purpose_text, purpose_number, stage_number, order_kind_text, order_kind_number, order_stage_number, erase_text, erase_number, erase_of_text, progress_text, progress_of_text, outcome_text, outcome_of_text, stage_after};

use std::str::FromStr;
use thiserror::Error;

/// No kind has this word.
#[derive(Clone, Copy, Debug, PartialEq, Eq, Error)]
#[error("unknown word")]
pub struct UnknownWord;

/// What an operator may do.
#[derive(Clone, Copy)]
pub enum Role {
    Admin,
    User,
    Power,
}

#[tactic(auto, unfolding(crate::specs::Kinds::role_text, crate::specs::Kinds::role_number))]
impl Role {
    pub(crate) const ALL: [Role; 3] = [Role::Admin, Role::User, Role::Power];

    /// The word in texts.
    pub fn text(self) -> &'static str
        ensures { result.now ≡ role_text self }
    {
        match self {
            Role::Admin => "admin",
            Role::User => "user",
            Role::Power => "power",
        }
    }

    /// The number in tables.
    pub fn number(self) -> u8
        ensures { result ≡ role_number self }
    {
        self as u8
    }
}

impl FromStr for Role {
    type Err = UnknownWord;

    ghost from_str_gives = { λ text result. result_ok result ≡ role_of_text text };

    fn from_str(text: &str) -> Result<Self, UnknownWord> {
        let kind = Self::ALL.iter().copied().find(|it| it.text() == text);
        kind.ok_or(UnknownWord)
    }
}

/// What a machine boots for.
#[derive(Clone, Copy, PartialEq, Eq)]
pub enum Purpose {
    Commission,
    Test,
    Deploy,
    Erase,
    Rescue,
}

#[tactic(auto, unfolding(crate::specs::Kinds::purpose_text, crate::specs::Kinds::purpose_number))]
impl Purpose {
    pub(crate) const ALL: [Purpose; 5] = [
        Purpose::Commission,
        Purpose::Test,
        Purpose::Deploy,
        Purpose::Erase,
        Purpose::Rescue,
    ];

    /// The word in texts.
    pub fn text(self) -> &'static str
        ensures { result.now ≡ purpose_text self }
    {
        match self {
            Purpose::Commission => "commission",
            Purpose::Test => "test",
            Purpose::Deploy => "deploy",
            Purpose::Erase => "erase",
            Purpose::Rescue => "rescue",
        }
    }

    /// The number in tables.
    pub fn number(self) -> u8
        ensures { result ≡ purpose_number self }
    {
        self as u8
    }
}

/// How far a boot has come.
#[derive(Clone, Copy, Debug, PartialEq, Eq)]
pub enum Stage {
    /// The script that boots it was given.
    Offered,
    Started,
    Done,
    Failed,
}

#[tactic(auto, unfolding(crate::specs::Kinds::stage_number))]
impl Stage {
    pub(crate) const ALL: [Stage; 4] = [Stage::Offered, Stage::Started, Stage::Done, Stage::Failed];

    /// The number in tables.
    pub fn number(self) -> u8
        ensures { result ≡ stage_number self }
    {
        self as u8
    }
}

/// What a power order asks for.
#[derive(Clone, Copy, PartialEq, Eq)]
pub enum OrderKind {
    /// Off and on again.
    Cycle,
    Off,
}

#[tactic(auto, unfolding(crate::specs::Kinds::order_kind_text, crate::specs::Kinds::order_kind_number))]
impl OrderKind {
    pub(crate) const ALL: [OrderKind; 2] = [OrderKind::Cycle, OrderKind::Off];

    /// The word in texts.
    pub fn text(self) -> &'static str
        ensures { result.now ≡ order_kind_text self }
    {
        match self {
            OrderKind::Cycle => "cycle",
            OrderKind::Off => "off",
        }
    }

    /// The number in tables.
    pub fn number(self) -> u8
        ensures { result ≡ order_kind_number self }
    {
        self as u8
    }
}

/// What became of a power order.
#[derive(Clone, Copy, Debug, PartialEq, Eq)]
pub enum OrderStage {
    Waiting,
    Done,
    Failed,
    /// Its machine no longer needs it.
    Withdrawn,
}

#[tactic(auto, unfolding(crate::specs::Kinds::order_stage_number))]
impl OrderStage {
    pub(crate) const ALL: [OrderStage; 4] = [
        OrderStage::Waiting,
        OrderStage::Done,
        OrderStage::Failed,
        OrderStage::Withdrawn,
    ];

    /// The number in tables.
    pub fn number(self) -> u8
        ensures { result ≡ order_stage_number self }
    {
        self as u8
    }
}

/// How disks are erased.
#[derive(Clone, Copy, PartialEq, Eq)]
pub enum Erase {
    Quick,
    Full,
}

#[tactic(auto, unfolding(crate::specs::Kinds::erase_text, crate::specs::Kinds::erase_number))]
impl Erase {
    pub(crate) const ALL: [Erase; 2] = [Erase::Quick, Erase::Full];

    /// The word in texts.
    pub fn text(self) -> &'static str
        ensures { result.now ≡ erase_text self }
    {
        match self {
            Erase::Quick => "quick",
            Erase::Full => "full",
        }
    }

    /// The number in tables.
    pub fn number(self) -> u8
        ensures { result ≡ erase_number self }
    {
        self as u8
    }
}

impl FromStr for Erase {
    type Err = UnknownWord;

    ghost from_str_gives = { λ text result. result_ok result ≡ erase_of_text text };

    fn from_str(text: &str) -> Result<Self, UnknownWord> {
        let kind = Self::ALL.iter().copied().find(|it| it.text() == text);
        kind.ok_or(UnknownWord)
    }
}

/// What a machine may report of its boot.
#[derive(Clone, Copy)]
pub enum Progress {
    Started,
    Done,
    Failed,
}

#[tactic(auto, unfolding(crate::specs::Kinds::progress_text))]
impl Progress {
    const ALL: [Progress; 3] = [Progress::Started, Progress::Done, Progress::Failed];

    /// The word in texts.
    pub fn text(self) -> &'static str
        ensures { result.now ≡ progress_text self }
    {
        match self {
            Progress::Started => "started",
            Progress::Done => "done",
            Progress::Failed => "failed",
        }
    }

    /// The stage of a boot after this report.
    pub fn stage(self) -> Stage
        ensures { result ≡ stage_after self }
    {
        match self {
            Progress::Started => Stage::Started,
            Progress::Done => Stage::Done,
            Progress::Failed => Stage::Failed,
        }
    }
}

impl FromStr for Progress {
    type Err = UnknownWord;

    ghost from_str_gives = { λ text result. result_ok result ≡ progress_of_text text };

    fn from_str(text: &str) -> Result<Self, UnknownWord> {
        let kind = Self::ALL.iter().copied().find(|it| it.text() == text);
        kind.ok_or(UnknownWord)
    }
}

/// What the power program may answer to an order.
#[derive(Clone, Copy)]
pub enum Outcome {
    Done,
    Failed,
}

#[tactic(auto, unfolding(crate::specs::Kinds::outcome_text))]
impl Outcome {
    const ALL: [Outcome; 2] = [Outcome::Done, Outcome::Failed];

    /// The word in texts.
    pub fn text(self) -> &'static str
        ensures { result.now ≡ outcome_text self }
    {
        match self {
            Outcome::Done => "done",
            Outcome::Failed => "failed",
        }
    }
}

impl FromStr for Outcome {
    type Err = UnknownWord;

    ghost from_str_gives = { λ text result. result_ok result ≡ outcome_of_text text };

    fn from_str(text: &str) -> Result<Self, UnknownWord> {
        let kind = Self::ALL.iter().copied().find(|it| it.text() == text);
        kind.ok_or(UnknownWord)
    }
}
