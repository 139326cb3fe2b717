//! Why bytes are no column, and why codes weren't made one.
ghost use Rattle.std.specs.Prelude.{◌≡◌};
ghost use Rattle.intaglio_columns.specs.declared.file.error.ColumnWriteError.TheVariants.{Memory};

use std::alloc::AllocError;
use thiserror::Error;

/// Why bytes are no column.
#[derive(Debug, Clone, Copy, PartialEq, Eq, Error)]
pub enum ColumnError {
    /// The bytes don't begin with the magic.
    #[error("not a column")]
    Magic,
    /// The bytes end within the header.
    #[error("the header is cut short")]
    Header,
    /// The version is 1, whose columns aren't read.
    #[error("a column of version 1: encode its lines again")]
    OldVersion,
    /// The version is neither 1 nor 2.
    #[error("a column of another version")]
    Version,
    /// The number of the dictionary's kind is none.
    #[error("a column of an unknown kind")]
    Kind,
    /// The header counts more strings than a dictionary can have.
    #[error("too many strings")]
    TooMany,
    /// The width isn't the least that serves the number of strings.
    #[error("another width than that of the number of strings")]
    Width,
    /// The rows come from a dictionary that can't be, or from one that can't lead to that of the column.
    #[error("a source of rows that can't be")]
    Source,
    /// A reserved byte of the header isn't 0.
    #[error("a reserved byte isn't zero")]
    Reserved,
    /// There are fewer bytes than the rows have.
    #[error("the codes are cut short")]
    Truncated,
    /// There are more bytes than the rows have.
    #[error("there are bytes behind the last row")]
    TooLong,
    /// The checksum isn't that of the codes and the header.
    #[error("damaged: it has another checksum")]
    Damaged,
    /// The code of this row is neither that of a string nor the missing one.
    #[error("row {0} has a code that is no symbol")]
    NoString(u64),
    /// This row is missing, and the rows come from a dictionary.
    #[error("row {0} of a map is missing")]
    Missing(u64),
}

/// Why codes weren't made a column.
#[derive(Debug, Clone, Copy, PartialEq, Eq, Error)]
pub enum ColumnWriteError {
    /// There are more strings than a dictionary can have.
    #[error("too many strings")]
    TooMany,
    /// The code of this row is neither that of a string nor the missing one.
    #[error("row {0} has a code that is no symbol")]
    NoString(u64),
    /// This row is missing, and the rows come from a dictionary.
    #[error("row {0} of a map is missing")]
    Missing(u64),
    /// An allocation failed.
    #[error("out of memory")]
    Memory,
}

impl From<AllocError> for ColumnWriteError {
    ghost from_gives = { λ _ error. error ≡ Memory };

    fn from(_error: AllocError) -> ColumnWriteError {
        ColumnWriteError::Memory
    }
}
