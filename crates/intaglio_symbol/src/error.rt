//! Errors.
ghost use Rattle.std.specs.Prelude.{◌≡◌, Some, codes};
ghost use Rattle.intaglio_symbol.specs.Error.{intern_error_text, room_error_text};
ghost use Rattle.intaglio_symbol.specs.declared.error.InternError.TheVariants.{Memory, Overflow};
ghost use Rattle.intaglio_symbol.specs.declared.error.RoomError.TheVariants.{Memory as RoomMemory};

use std::alloc::AllocError;
use std::error::Error;
use std::fmt;
use std::num::TryFromIntError;

/// A number is too large for a symbol, or a table holds as many contents as its limit. The type has one
/// value.
#[derive(Debug, Clone, Copy, Hash, PartialEq, Eq, PartialOrd, Ord, Default)]
pub struct SymbolOverflowError {
    private: (),
}

impl SymbolOverflowError {
    /// The one value of the type.
    pub const fn new() -> SymbolOverflowError
        ensures only { (other : SymbolOverflowError) → other ≡ result }
    {
        SymbolOverflowError { private: () }
    }

    /// How many symbols there are, and so how many contents a table can hold.
    pub const fn max_capacity(self) -> usize
        ensures { result ≡ 4294967296 }
    {
        4_294_967_296
    }
}

impl From<TryFromIntError> for SymbolOverflowError {
    fn from(_error: TryFromIntError) -> SymbolOverflowError {
        SymbolOverflowError::new()
    }
}

impl fmt::Display for SymbolOverflowError {
    ghost output = { λ _. Some (codes "Symbol overflow") };

    fn fmt<W: fmt::Write>(&self, f: &mut fmt::Formatter<W>) -> fmt::Result {
        write!(f, "Symbol overflow")
    }
}

impl Error for SymbolOverflowError {}

/// Why a content, or a batch, wasn't interned. The contents are unchanged, and the capacity isn't lower.
#[derive(Debug, Clone, Copy, PartialEq, Eq)]
pub enum InternError {
    /// A content is new, and the table holds as many as its limit.
    Overflow(SymbolOverflowError),
    /// An allocation failed: for a growth of the table, for the copy of a form, or for a batch's lists.
    Memory(AllocError),
}

impl fmt::Display for InternError {
    ghost output = { λ error. Some (intern_error_text error) };

    fn fmt<W: fmt::Write>(&self, f: &mut fmt::Formatter<W>) -> fmt::Result {
        match self {
            InternError::Overflow(overflow) => write!(f, "{overflow}"),
            InternError::Memory(_) => write!(f, "out of memory"),
        }
    }
}

impl Error for InternError {}

impl From<SymbolOverflowError> for InternError {
    ghost from_gives = { λ full error. error ≡ Overflow full };

    fn from(full: SymbolOverflowError) -> InternError {
        InternError::Overflow(full)
    }
}

impl From<AllocError> for InternError {
    ghost from_gives = { λ refused error. error ≡ Memory refused };

    fn from(refused: AllocError) -> InternError {
        InternError::Memory(refused)
    }
}

/// Why a table wasn't made, or why a change of its capacity failed.
///
/// Then a constructor has made no table, a reservation has left the contents unchanged and the capacity no
/// lower, and a shrink has changed nothing.
#[derive(Debug, Clone, Copy, PartialEq, Eq)]
pub enum RoomError {
    /// The requested capacity is above 2^32 or the table's limit, or the requested limit is 0 or above 2^32.
    /// Nothing was allocated.
    CapacityOverflow,
    /// An allocation failed.
    Memory(AllocError),
}

impl fmt::Display for RoomError {
    ghost output = { λ error. Some (room_error_text error) };

    fn fmt<W: fmt::Write>(&self, f: &mut fmt::Formatter<W>) -> fmt::Result {
        match self {
            RoomError::CapacityOverflow => write!(f, "capacity overflow"),
            RoomError::Memory(_) => write!(f, "out of memory"),
        }
    }
}

impl Error for RoomError {}

impl From<AllocError> for RoomError {
    ghost from_gives = { λ refused error. error ≡ RoomMemory refused };

    fn from(refused: AllocError) -> RoomError {
        RoomError::Memory(refused)
    }
}

/// A mark has a greater count than the table has contents. The table is unchanged. The type has one value.
#[derive(Debug, Clone, Copy, Hash, PartialEq, Eq, PartialOrd, Ord, Default)]
pub struct StaleMark {
    private: (),
}

impl StaleMark {
    /// The one value of the type.
    pub const fn new() -> StaleMark
        ensures only { (other : StaleMark) → other ≡ result }
    {
        StaleMark { private: () }
    }
}

impl fmt::Display for StaleMark {
    ghost output = { λ _. Some (codes "stale mark") };

    fn fmt<W: fmt::Write>(&self, f: &mut fmt::Formatter<W>) -> fmt::Result {
        write!(f, "stale mark")
    }
}

impl Error for StaleMark {}
