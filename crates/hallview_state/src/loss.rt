//! Why a desk gave no list.
use hall_types::Refusal;
use std::alloc::{AllocError, Global};

/// Why the last time that a desk was asked gave no list.
#[derive(Clone, Copy)]
pub enum Loss {
    /// It wasn't asked yet, or is being asked for the first time.
    NotYet,
    /// Its name has no address.
    NoAddress,
    /// It takes no connection.
    NoConnection,
    /// It didn't answer in time, or the connection was closed before.
    NoAnswer,
    /// What came isn't HTTP as a desk speaks it.
    NotHttp,
    /// More octets came than a list has.
    TooLong,
    /// What answered is no list as a desk writes it.
    NotTheDesk,
    /// It refuses.
    Refused(Refusal),
    /// There was no memory for the answer.
    Memory,
}

impl Loss {
    /// It in a sentence.
    pub fn text(self, alloc: Global) -> Result<String, AllocError> {
        let text = match self {
            Loss::NotYet => "The desk hasn't answered yet.",
            Loss::NoAddress => "The desk's name has no address.",
            Loss::NoConnection => "The desk takes no connection.",
            Loss::NoAnswer => "The desk didn't answer in time, or closed the connection.",
            Loss::NotHttp => "What answered is no desk: it doesn't speak HTTP as a desk does.",
            Loss::TooLong => "What answered is no desk: it sent more than 32 MiB.",
            Loss::NotTheDesk => "What answered is no desk: its list isn't written as a desk does.",
            Loss::Memory => "There was no memory for the desk's answer.",
            Loss::Refused(refusal) => {
                let sentence = refusal.sentence();
                return format!(in alloc; "The desk refuses: {refusal}: {sentence}.");
            }
        };
        String::from_str(alloc, text)
    }
}
