//! Why a file can't be a hall's.
use thiserror::Error;

/// Why a new hall can't be made.
#[derive(Clone, Copy, Debug, PartialEq, Eq, Error)]
pub enum CreateFault {
    /// The file has a table, an index or a view with the name of one of a hall's tables.
    #[error("the file already has one of a hall's tables")]
    NotEmpty = 1,
    /// Memory or the disk failed.
    #[error("the file can't be written now")]
    Unavailable = 3,
}

/// Why the hall of a file can't be opened.
#[derive(Clone, Copy, Debug, PartialEq, Eq, Error)]
pub enum OpenFault {
    /// A hall's table is missing, or a column of it, or the one row that names its schema.
    #[error("the file isn't a hall's")]
    NotAHall = 1,
    /// The tables are those of another schema.
    #[error("the hall's tables are of another version")]
    OtherVersion = 2,
    /// Memory or the disk failed.
    #[error("the file can't be read now")]
    Unavailable = 3,
}
