//! Errors of an encoding.
ghost use Rattle.std.specs.Prelude.{◌≡◌};
ghost use Rattle.intaglio_lines.specs.ToolError.{from_intern_error, from_stream_error};
ghost use Rattle.intaglio_lines.specs.declared.tool_error.ToolError.TheVariants.{Memory, ZeroByte};

use crate::error::StreamError;
use intaglio_symbol::{InternError, RoomError};
use std::alloc::{AllocError, AllocFailed};
use thiserror::Error;

/// Why a line doesn't fit a kind.
#[derive(Clone, Copy, Debug, PartialEq, Eq)]
pub enum Unfit {
    /// It has a zero byte, which no C string has.
    ZeroByte,
}

impl Unfit {
    /// The error for such a line, by its number. Lines are counted from 1.
    pub fn at(self, line: u64) -> ToolError
        ensures { result ≡ ZeroByte line }
    {
        match self {
            Unfit::ZeroByte => ToolError::ZeroByte(line),
        }
    }
}

/// Why a run failed.
#[derive(Debug, Drop, Error)]
pub enum ToolError {
    /// The input isn't UTF-8, and the kind requires that.
    #[error("input is not UTF-8")]
    NotUtf8,
    /// A line that should be a C string has a zero byte. This is the first such
    /// line; lines are counted from 1.
    #[error("line {0} holds a zero byte")]
    ZeroByte(u64),
    /// There are more distinct lines than symbols.
    #[error("Symbol overflow")]
    Overflow,
    /// An allocation failed.
    #[error("out of memory")]
    Memory,
    /// A read failed, or the input didn't end.
    #[error("read failed")]
    Read,
    /// A write or the flush failed.
    #[error("write failed")]
    Write,
}

impl From<AllocError> for ToolError {
    ghost from_gives = { λ _ error. error ≡ Memory };

    fn from(_refused: AllocError) -> ToolError {
        ToolError::Memory
    }
}

impl<T: Drop> From<AllocFailed<T>> for ToolError {
    ghost from_gives = { λ _ error. error ≡ Memory };

    fn from(_refused: AllocFailed<T>) -> ToolError {
        ToolError::Memory
    }
}

/// The program's tables have the default capacity, which is never too large.
impl From<RoomError> for ToolError {
    ghost from_gives = { λ _ error. error ≡ Memory };

    fn from(_refused: RoomError) -> ToolError {
        ToolError::Memory
    }
}

impl From<InternError> for ToolError {
    ghost from_gives = { λ refused error. error ≡ from_intern_error refused };

    fn from(refused: InternError) -> ToolError {
        match refused {
            InternError::Overflow(_) => ToolError::Overflow,
            InternError::Memory(_) => ToolError::Memory,
        }
    }
}

impl From<StreamError> for ToolError {
    ghost from_gives = { λ stopped error. error ≡ from_stream_error stopped };

    fn from(stopped: StreamError) -> ToolError {
        match stopped {
            StreamError::Memory => ToolError::Memory,
            StreamError::Read => ToolError::Read,
            StreamError::Write => ToolError::Write,
        }
    }
}
