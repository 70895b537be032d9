//! How a task ends.
use std::alloc::AllocError;
use thiserror::Error;

/// How a task ends that nothing kept from its end.
#[derive(Clone, Copy, PartialEq, Eq)]
pub enum TaskEnd {
    Done,
    /// The desk or the operator refused something.
    Refused,
    /// The command line asks for what can't be done.
    Misused,
    /// There was no answer of the desk.
    NoAnswer,
    /// The time was over before all that was waited for had come.
    TimeOver,
    /// There was no connection to the desk: nothing was sent.
    Unsent,
}

impl TaskEnd {
    /// How several things end with one more: as the last that wasn't done.
    pub(crate) fn and_then(self, one: TaskEnd) -> TaskEnd {
        if one == TaskEnd::Done { self } else { one }
    }

    /// Whether nothing more is sent after a command that ends so.
    pub(crate) fn is_last(self) -> bool {
        match self {
            TaskEnd::Done | TaskEnd::Refused => false,
            TaskEnd::Misused | TaskEnd::NoAnswer | TaskEnd::TimeOver | TaskEnd::Unsent => true,
        }
    }

    /// How a command ended, as the file of keys has it.
    pub(crate) fn word(self) -> &'static str {
        match self {
            TaskEnd::Done => "done",
            TaskEnd::Refused => "refused",
            TaskEnd::NoAnswer | TaskEnd::TimeOver => "not known",
            TaskEnd::Misused | TaskEnd::Unsent => "not sent",
        }
    }

    /// The exit status of the program.
    pub fn status(self) -> u8 {
        match self {
            TaskEnd::Done => 0,
            TaskEnd::Refused => 1,
            TaskEnd::Misused => 2,
            TaskEnd::NoAnswer | TaskEnd::Unsent => 3,
            TaskEnd::TimeOver => 4,
        }
    }
}

/// What keeps a task from its end.
#[derive(Clone, Copy, Debug, PartialEq, Eq, Error)]
pub enum TaskFault {
    #[error("memory ran out")]
    Memory,
    #[error("standard output can't be written")]
    Output,
    #[error("the system gives no random octets")]
    Random,
    /// The UUID of a new machine is all zeros or all ones.
    #[error("a UUID of zeros or ones alone identifies no machine")]
    BlankUuid,
}

/// Why a task ends before all of it is done.
#[derive(Clone, Copy, PartialEq, Eq)]
pub(crate) enum EarlyEnd {
    /// It was reported why, and it ends so.
    Reported(TaskEnd),
    Fault(TaskFault),
}

/// What comes of a step of a task.
pub(crate) type Step<T> = Result<T, EarlyEnd>;

impl From<TaskFault> for EarlyEnd {
    fn from(fault: TaskFault) -> EarlyEnd {
        EarlyEnd::Fault(fault)
    }
}

impl From<AllocError> for EarlyEnd {
    fn from(_refused: AllocError) -> EarlyEnd {
        EarlyEnd::Fault(TaskFault::Memory)
    }
}
