//! What to do about a machine in a status.
use hall_types::Status;

/// What to do about a machine in a status.
pub fn advice(status: Status) -> &'static str {
    match status {
        Status::New => "Commission it.",
        Status::FailedCommissioning => "Look at the machine's console; commission again.",
        Status::FailedTesting => "Test again; override if it is good all the same, break if not.",
        Status::Ready => "Allocate it.",
        Status::Allocated => "Deploy it.",
        Status::FailedDeployment => "Look at the console; deploy again.",
        Status::Deployed => "Use it.",
        Status::Releasing => "Wait until it is switched off; then it is Ready.",
        Status::FailedReleasing => "Is the power program running? Release again.",
        Status::FailedDiskErasing => "The disks may still have data: release again, and erase.",
        Status::FailedToEnterRescue => "Rescue again, or exit.",
        Status::Rescue => "Work on the machine.",
        Status::ExitingRescue => "Wait; then it is Deployed or Broken, as before.",
        Status::FailedToExitRescue => "Is the power program running? Exit again.",
        Status::Broken => "Repair it, then fix or commission.",
        Status::Commissioning
        | Status::Testing
        | Status::Deploying
        | Status::DiskErasing
        | Status::EnteringRescue => "Wait.",
    }
}

/// The words of the commands that do it, as hallctl has them.
pub fn words_for(status: Status) -> &'static [&'static str] {
    match status {
        Status::New | Status::FailedCommissioning => &["commission"],
        Status::FailedTesting => &["test", "override", "break"],
        Status::Ready => &["allocate"],
        Status::Allocated | Status::FailedDeployment => &["deploy"],
        Status::FailedReleasing | Status::FailedDiskErasing => &["release"],
        Status::FailedToEnterRescue => &["rescue", "exit-rescue"],
        Status::Rescue | Status::FailedToExitRescue => &["exit-rescue"],
        Status::Broken => &["fix", "commission"],
        _ => &[],
    }
}
