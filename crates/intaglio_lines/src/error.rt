//! Why an input wasn't read, or an output wasn't written.
ghost use Rattle.std.specs.Prelude.{◌≡◌};
ghost use Rattle.intaglio_lines.specs.declared.error.StreamError.TheVariants.{Memory};

use std::alloc::{AllocError, AllocFailed};
use std::fmt::Display;
use std::io;
use thiserror::Error;

/// Why an input wasn't read, or an output wasn't written.
#[derive(Clone, Copy, Debug, PartialEq, Eq, Error)]
pub enum StreamError {
    /// An allocation failed.
    #[error("out of memory")]
    Memory,
    /// A read failed, or the input didn't end.
    #[error("read failed")]
    Read,
    /// A write or the flush failed.
    #[error("write failed")]
    Write,
}

impl From<AllocError> for StreamError {
    ghost from_gives = { λ _ error. error ≡ Memory };

    fn from(_error: AllocError) -> StreamError {
        StreamError::Memory
    }
}

impl<T: Drop> From<AllocFailed<T>> for StreamError {
    ghost from_gives = { λ _ error. error ≡ Memory };

    fn from(_error: AllocFailed<T>) -> StreamError {
        StreamError::Memory
    }
}

/// Writes an error's text and byte 10, and returns the exit status of an error, 1. A
/// failure to write it is ignored.
pub fn report<F: Display + Drop, E: io::Write>(error: F, errors: &mut E) -> u8
    ensures { result ≡ 1 }
{
    let _ = writeln!(errors, "{error}");
    1
}
