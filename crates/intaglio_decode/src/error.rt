//! Errors of a run.
ghost use Rattle.std.specs.Prelude.{◌≡◌};
ghost use Rattle.intaglio_lines.specs.declared.error.StreamError.TheVariants.{Memory};
ghost use Rattle.intaglio_decode.specs.declared.error.RestoreError.TheVariants.{Stream};

use intaglio_lines::error::StreamError;
use std::alloc::{AllocError, AllocFailed};
use thiserror::Error;

/// Why a run failed. Lines are counted from 1.
#[derive(Debug, Drop, Error)]
pub enum RestoreError {
    /// This line should be a symbol, and isn't a decimal number without sign and leading zeros.
    #[error("line {0}: not a number")]
    NotANumber(u64),
    /// A line is a number, and no string has that number.
    #[error("line {line}: no string {number}")]
    NoString {
        /// The line's number.
        line: u64,
        /// What the line says.
        number: String,
    },
    /// No line is empty, so there are no strings.
    #[error("no empty line")]
    NoEmptyLine,
    /// The last line isn't ended by byte 10.
    #[error("last line not ended")]
    NotEnded,
    /// The input couldn't be read, or the output couldn't be written.
    #[error(transparent)]
    Stream(StreamError),
}

impl From<StreamError> for RestoreError {
    ghost from_gives = { λ stopped error. error ≡ Stream stopped };

    fn from(stopped: StreamError) -> RestoreError {
        RestoreError::Stream(stopped)
    }
}

impl From<AllocError> for RestoreError {
    ghost from_gives = { λ _ error. error ≡ Stream Memory };

    fn from(_error: AllocError) -> RestoreError {
        RestoreError::Stream(StreamError::Memory)
    }
}

impl<T: Drop> From<AllocFailed<T>> for RestoreError {
    ghost from_gives = { λ _ error. error ≡ Stream Memory };

    fn from(_error: AllocFailed<T>) -> RestoreError {
        RestoreError::Stream(StreamError::Memory)
    }
}
