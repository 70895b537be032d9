//! Why the store of a hall's file can't be used.
use thiserror::Error;

/// Why a hall's file can't be made, opened or closed.
#[derive(Clone, Copy, Debug, PartialEq, Eq, Error)]
pub enum FileFault {
    /// The file already has one of a hall's tables.
    #[error("the file already has one of a hall's tables")]
    NotEmpty,
    /// There is no file, or a hall's table is missing in it, or a column of one, or the one row that names its schema.
    #[error("the file isn't a hall's")]
    NotAHall,
    /// The tables are those of another schema.
    #[error("the hall's tables are of another version")]
    OtherVersion,
    /// Memory or the disk failed, or another program has the file open.
    #[error("the file can't be read or written now")]
    Unavailable,
}
