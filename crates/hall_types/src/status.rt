//! Statuses of machines.
ghost use Rattle.std.specs.Prelude.{◌≡◌, ◌<◌};
ghost use Rattle.hall_types.specs.{Kinds.with_text, Status.{is_failure, status_text, status_number}};

use crate::kinds::UnknownWord;
use std::str::FromStr;

/// A machine's status, modelled on the node statuses of MAAS. Its number in tables is its place, from 0 on.
#[derive(Clone, Copy, PartialEq, Eq)]
pub enum Status {
    New,
    Commissioning,
    FailedCommissioning,
    Testing,
    FailedTesting,
    Ready,
    Allocated,
    Deploying,
    FailedDeployment,
    Deployed,
    Releasing,
    FailedReleasing,
    DiskErasing,
    FailedDiskErasing,
    EnteringRescue,
    FailedToEnterRescue,
    Rescue,
    ExitingRescue,
    FailedToExitRescue,
    Broken,
}

#[tactic(auto, unfolding(crate::specs::Status::status_text, crate::specs::Status::status_number, crate::specs::Status::is_failure))]
impl Status {
    /// All of them, in the order of their numbers.
    pub const ALL: [Status; 20] = [
        Status::New,
        Status::Commissioning,
        Status::FailedCommissioning,
        Status::Testing,
        Status::FailedTesting,
        Status::Ready,
        Status::Allocated,
        Status::Deploying,
        Status::FailedDeployment,
        Status::Deployed,
        Status::Releasing,
        Status::FailedReleasing,
        Status::DiskErasing,
        Status::FailedDiskErasing,
        Status::EnteringRescue,
        Status::FailedToEnterRescue,
        Status::Rescue,
        Status::ExitingRescue,
        Status::FailedToExitRescue,
        Status::Broken,
    ];

    /// The printed text.
    pub fn text(self) -> &'static str
        ensures { result.now ≡ status_text self }
    {
        match self {
            Status::New => "New",
            Status::Commissioning => "Commissioning",
            Status::FailedCommissioning => "Failed commissioning",
            Status::Testing => "Testing",
            Status::FailedTesting => "Failed testing",
            Status::Ready => "Ready",
            Status::Allocated => "Allocated",
            Status::Deploying => "Deploying",
            Status::FailedDeployment => "Failed deployment",
            Status::Deployed => "Deployed",
            Status::Releasing => "Releasing",
            Status::FailedReleasing => "Failed releasing",
            Status::DiskErasing => "Disk erasing",
            Status::FailedDiskErasing => "Failed disk erasing",
            Status::EnteringRescue => "Entering rescue mode",
            Status::FailedToEnterRescue => "Failed to enter rescue mode",
            Status::Rescue => "Rescue mode",
            Status::ExitingRescue => "Exiting rescue mode",
            Status::FailedToExitRescue => "Failed to exit rescue mode",
            Status::Broken => "Broken",
        }
    }

    /// The number in tables, 0 to 19.
    pub fn number(self) -> u8
        ensures number { result ≡ status_number self }
        ensures small { result < 20 }
    {
        self as u8
    }

    /// Whether a machine stays there until somebody does something.
    pub fn is_failure(self) -> bool
        ensures { result ≡ is_failure self }
    {
        matches!(
            self,
            Status::FailedCommissioning
                | Status::FailedTesting
                | Status::FailedDeployment
                | Status::FailedReleasing
                | Status::FailedDiskErasing
                | Status::FailedToEnterRescue
                | Status::FailedToExitRescue
                | Status::Broken
        )
    }
}

// The one of these statuses that has this text.
fn with_text(statuses: &[Status], text: &str) -> Option<Status>
    ensures { result ≡ with_text status_text text.now statuses.now }
{
    statuses.iter().copied().find(|it| it.text() == text)
}

/// A status is read from its printed text.
impl FromStr for Status {
    type Err = UnknownWord;

    ghost use Rattle.std.specs.Result.{result_ok};
    ghost use Rattle.hall_types.specs.Status.{status_of_text};

    ghost from_str_gives = { λ text result. result_ok result ≡ status_of_text text };

    fn from_str(text: &str) -> Result<Self, UnknownWord> {
        with_text(&Self::ALL, text).ok_or(UnknownWord)
    }
}
