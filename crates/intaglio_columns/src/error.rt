//! Errors.
ghost use Rattle.std.specs.Prelude.{◌≡◌};
ghost use Rattle.intaglio_columns.specs.declared.error.DictionaryError.TheVariants.{Stream};
ghost use Rattle.intaglio_columns.specs.declared.error.FreezingError.TheVariants.{Table, Stream as FreezingStopped};
ghost use Rattle.intaglio_columns.specs.declared.error.RowsError.TheVariants.{Stream as RowsStopped};
ghost use Rattle.intaglio_columns.specs.declared.error.ShardMergeError.TheVariants.{Strings};

use intaglio_frozen::FreezeError;
use intaglio_lines::error::StreamError;
use thiserror::Error;

/// Why nothing, or not all, was written.
#[derive(Clone, Copy, Debug, PartialEq, Eq, Error)]
pub enum DictionaryError {
    /// No string has this symbol.
    #[error("no string {0}")]
    NoString(u32),
    /// The input couldn't be read, or the output couldn't be written.
    #[error(transparent)]
    Stream(StreamError),
}

impl From<StreamError> for DictionaryError {
    ghost from_gives = { λ stopped error. error ≡ Stream stopped };

    fn from(stopped: StreamError) -> DictionaryError {
        DictionaryError::Stream(stopped)
    }
}

/// Why an input wasn't frozen.
#[derive(Clone, Copy, Debug, PartialEq, Eq, Error)]
pub enum FreezingError {
    /// The input isn't UTF-8, and the kind requires that.
    #[error("input is not UTF-8")]
    NotUtf8,
    /// The lines have no frozen table, or weren't given one.
    #[error(transparent)]
    Table(FreezeError),
    /// There was no memory for the lines, or the output couldn't be written.
    #[error(transparent)]
    Stream(StreamError),
}

impl From<StreamError> for FreezingError {
    ghost from_gives = { λ stopped error. error ≡ FreezingStopped stopped };

    fn from(stopped: StreamError) -> FreezingError {
        FreezingError::Stream(stopped)
    }
}

impl From<FreezeError> for FreezingError {
    ghost from_gives = { λ refused error. error ≡ Table refused };

    fn from(refused: FreezeError) -> FreezingError {
        FreezingError::Table(refused)
    }
}

/// Why a shard of several parts wasn't merged.
#[derive(Clone, Copy, Debug, PartialEq, Eq, Error)]
pub enum ShardMergeError {
    /// The shard's number isn't below the number of shards.
    #[error("there is no such shard")]
    NoShard,
    /// In the part with the first number the string with the second one belongs to another
    /// shard. Both are counted from 0.
    #[error("string {1} of part {0} belongs to another shard")]
    Misplaced(usize, u32),
    /// The strings have no frozen table, or weren't given one.
    #[error(transparent)]
    Strings(FreezingError),
}

impl From<FreezingError> for ShardMergeError {
    ghost from_gives = { λ refused error. error ≡ Strings refused };

    fn from(refused: FreezingError) -> ShardMergeError {
        ShardMergeError::Strings(refused)
    }
}

/// Why a column wasn't encoded, decoded or renumbered, or not all of it.
#[derive(Clone, Copy, Debug, PartialEq, Eq, Error)]
pub enum CodesError {
    /// The line with this number, counted from 1, isn't in the dictionary.
    #[error("line {0} is not in the dictionary")]
    NoSymbol(u64),
    /// The code with this number, counted from 1, is no symbol.
    #[error("code {0} is no symbol")]
    NoString(u64),
    /// The input ends within the code with this number, counted from 1.
    #[error("code {0} is cut short")]
    ShortCode(u64),
    /// An allocation, a read or a write failed.
    #[error(transparent)]
    Stream(StreamError),
}

/// Why rows of a column weren't written.
#[derive(Clone, Copy, Debug, PartialEq, Eq, Error)]
pub enum RowsError {
    /// The column has no row with this number.
    #[error("no row {0}")]
    NoRow(u64),
    /// The code of this row has no line.
    #[error("row {0} has no line")]
    NoLine(u64),
    /// An allocation or a write failed.
    #[error(transparent)]
    Stream(StreamError),
}

impl From<StreamError> for RowsError {
    ghost from_gives = { λ stopped error. error ≡ RowsStopped stopped };

    fn from(stopped: StreamError) -> RowsError {
        RowsError::Stream(stopped)
    }
}

/// Why a column wasn't renumbered. A map is counted from 0.
#[derive(Clone, Copy, Debug, PartialEq, Eq, Error)]
pub enum RenumberError {
    /// There isn't one map for each shard of the column's dictionary, or just one if the column is the map of
    /// a shard.
    #[error("another number of maps than of shards")]
    OtherCount,
    /// The map with this number leads from another dictionary than that of the column, or from another shard.
    #[error("map {0} leads from another dictionary")]
    OtherSource(usize),
    /// The map with this number leads to another dictionary than the first one.
    #[error("map {0} leads to another dictionary")]
    OtherTarget(usize),
    /// The maps have more or fewer rows than the column's dictionary has strings.
    #[error("the maps are those of another number of strings")]
    OtherLength,
    /// The maps lead to 2^32 strings or more.
    #[error("too many strings")]
    TooMany,
    /// An allocation failed.
    #[error("out of memory")]
    Memory,
}
