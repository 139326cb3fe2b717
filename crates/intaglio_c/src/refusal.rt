//! Errors and their codes, and results as C gets them.
ghost use Rattle.std.specs.Prelude.{◌≡◌};
ghost use Rattle.intaglio_c.specs.Cited.{Ok, Err, answer_code, room_refusal, symbol_answer, IsWritten, column_refusal, write_refusal, freeze_refusal, frozen_refusal, NoMemory};

use intaglio_columns::{ColumnError, ColumnWriteError};
use intaglio_core::{InternError, RoomError, Symbol};
use intaglio_frozen::{FreezeError, FrozenError};
use std::alloc::AllocError;

/// Why a call failed.
#[derive(Clone, Copy)]
pub enum Refusal {
    /// The handle holds no table.
    NoTable = 1,
    /// A content is new, and the table holds as many as its limit.
    Full = 2,
    /// An allocation failed.
    NoMemory = 3,
    /// A capacity above 2^32 or the limit was requested, or a limit of 0 or above 2^32.
    TooLarge = 4,
    /// The mark counts more contents than the table holds.
    Stale = 5,
    /// The bytes aren't UTF-8.
    NotUtf8 = 6,
    /// A byte before the last one is zero.
    InnerZero = 7,
    /// There is no zero byte.
    MissingZero = 8,
    /// The ends of a batch decrease or exceed its bytes, or its lists differ in length.
    BadEnds = 9,
    /// The table has no content for a symbol, or a code of a column is no symbol.
    NoSymbol = 10,
    /// The buffer is too short.
    NoSpace = 11,
    /// The number is no kind's.
    NoKind = 12,
    /// The bytes don't begin as a frozen table does.
    NotFrozen = 13,
    /// A frozen table or a column of another version.
    OtherVersion = 14,
    /// A reserved byte of a frozen table or of a column isn't 0.
    Reserved = 15,
    /// There are more strings than a frozen table can have.
    TooMany = 16,
    /// The bytes of a frozen table end within its header or a section, or those
    /// of a column before its last row.
    Truncated = 17,
    /// The strings of a frozen table don't fill its text.
    TextEnds = 18,
    /// A place of a frozen table that no string has isn't empty.
    Unused = 19,
    /// A string of a frozen table isn't found at its symbol.
    NotFound = 20,
    /// The strings have 2^32 bytes or more together.
    TooLong = 21,
    /// Two strings are equal.
    Equal = 22,
    /// No places were found for the strings of a frozen table.
    NoPlaces = 23,
    /// The bytes don't begin as a column does.
    NotColumn = 24,
    /// The width of a column isn't the least that serves its dictionary.
    BadWidth = 25,
    /// There are bytes behind the strings of a frozen table, or behind the last row of a column.
    TrailingBytes = 26,
    /// The number of a shard isn't below the number of shards, or the rows of a column come from a dictionary
    /// that can't be.
    BadShard = 27,
    /// The identity in the header of a frozen table isn't that of its strings.
    OtherIdentity = 28,
    /// The checksum of a column isn't that of its codes and its header.
    Damaged = 29,
}

impl From<AllocError> for Refusal {
    ghost from_gives = { λ _ refusal. refusal ≡ NoMemory };

    fn from(_error: AllocError) -> Refusal {
        Refusal::NoMemory
    }
}

impl From<RoomError> for Refusal {
    ghost from_gives = { λ error refusal. refusal ≡ room_refusal error };

    fn from(error: RoomError) -> Refusal {
        match error {
            RoomError::CapacityOverflow => Refusal::TooLarge,
            RoomError::Memory(_) => Refusal::NoMemory,
        }
    }
}

impl From<FrozenError> for Refusal {
    ghost from_gives = { λ error refusal. refusal ≡ frozen_refusal error };

    fn from(error: FrozenError) -> Refusal {
        match error {
            FrozenError::Magic => Refusal::NotFrozen,
            FrozenError::OldVersion | FrozenError::Version => Refusal::OtherVersion,
            FrozenError::Kind => Refusal::NoKind,
            FrozenError::Reserved => Refusal::Reserved,
            FrozenError::TooMany => Refusal::TooMany,
            FrozenError::Shard => Refusal::BadShard,
            FrozenError::OtherIdentity => Refusal::OtherIdentity,
            FrozenError::Truncated => Refusal::Truncated,
            FrozenError::TooLong => Refusal::TrailingBytes,
            FrozenError::Ends => Refusal::TextEnds,
            FrozenError::Unused => Refusal::Unused,
            FrozenError::NotFound(_) => Refusal::NotFound,
            FrozenError::NotUtf8(_) => Refusal::NotUtf8,
        }
    }
}

impl From<ColumnError> for Refusal {
    ghost from_gives = { λ error refusal. refusal ≡ column_refusal error };

    fn from(error: ColumnError) -> Refusal {
        match error {
            ColumnError::Magic => Refusal::NotColumn,
            ColumnError::Header => Refusal::Truncated,
            ColumnError::OldVersion | ColumnError::Version => Refusal::OtherVersion,
            ColumnError::Kind => Refusal::NoKind,
            ColumnError::TooMany => Refusal::TooMany,
            ColumnError::Width => Refusal::BadWidth,
            ColumnError::Source => Refusal::BadShard,
            ColumnError::Reserved => Refusal::Reserved,
            ColumnError::Truncated => Refusal::Truncated,
            ColumnError::TooLong => Refusal::TrailingBytes,
            ColumnError::Damaged => Refusal::Damaged,
            ColumnError::NoString(_) | ColumnError::Missing(_) => Refusal::NoSymbol,
        }
    }
}

impl From<ColumnWriteError> for Refusal {
    ghost from_gives = { λ error refusal. refusal ≡ write_refusal error };

    fn from(error: ColumnWriteError) -> Refusal {
        match error {
            ColumnWriteError::TooMany => Refusal::TooMany,
            ColumnWriteError::NoString(_) | ColumnWriteError::Missing(_) => Refusal::NoSymbol,
            ColumnWriteError::Memory => Refusal::NoMemory,
        }
    }
}

impl From<FreezeError> for Refusal {
    ghost from_gives = { λ error refusal. refusal ≡ freeze_refusal error };

    fn from(error: FreezeError) -> Refusal {
        match error {
            FreezeError::TooMany => Refusal::TooMany,
            FreezeError::TooLong => Refusal::TooLong,
            FreezeError::Equal(_, _) => Refusal::Equal,
            FreezeError::NotUtf8(_) => Refusal::NotUtf8,
            FreezeError::NoPlaces => Refusal::NoPlaces,
            FreezeError::Memory => Refusal::NoMemory,
        }
    }
}

// The results of a call that failed and of one that succeeded. Contracts speak of them as of any result.
pub(crate) fn failed<X>(refusal: Refusal) -> Result<X, Refusal>
    ensures { result ≡ Err refusal }
{
    Err(refusal)
}

pub(crate) fn done() -> Result<(), Refusal>
    ensures { result ≡ Ok tt }
{
    Ok(())
}

// The code of a result: 0 if the call succeeded.
pub(crate) fn code(answer: Result<(), Refusal>) -> u32
    ensures code { result ≡ answer_code answer }
{
    match answer {
        Ok(()) => 0,
        Err(refusal) => refusal as u32,
    }
}

// The code of a result with a symbol, which is written to `symbol`.
pub(crate) fn symbol_code(answer: Result<Symbol, Refusal>, symbol: &mut u32) -> u32
    ensures code { result ≡ answer_code answer }
    ensures written { IsWritten answer symbol.old symbol.new }
{
    match answer {
        Ok(issued) => {
            *symbol = issued.id();
            0
        }
        Err(refusal) => refusal as u32,
    }
}

// The result for C of an interning.
pub(crate) fn symbol_answer(answer: Result<Symbol, InternError>) -> Result<Symbol, Refusal>
    ensures answer { result ≡ symbol_answer answer }
{
    match answer {
        Ok(symbol) => Ok(symbol),
        Err(InternError::Overflow(_)) => Err(Refusal::Full),
        Err(InternError::Memory(_)) => Err(Refusal::NoMemory),
    }
}
