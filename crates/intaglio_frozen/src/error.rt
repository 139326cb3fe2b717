//! Why bytes are no frozen table, and why a list of strings wasn't frozen.
ghost use Rattle.std.specs.Prelude.{◌≡◌};
ghost use Rattle.intaglio_frozen.specs.declared.error.FreezeError.TheVariants.{Memory};

use std::alloc::AllocError;
use thiserror::Error;

/// Why bytes are no frozen table.
#[derive(Debug, Clone, Copy, PartialEq, Eq, Error)]
pub enum FrozenError {
    /// The bytes don't begin with the magic.
    #[error("not a frozen table")]
    Magic,
    /// The version is 1, whose tables aren't read.
    #[error("a dictionary of version 1: freeze its strings again")]
    OldVersion,
    /// The version is neither 1 nor 2.
    #[error("a frozen table of another version")]
    Version,
    /// The number of the kind is none.
    #[error("a frozen table of an unknown kind")]
    Kind,
    /// A reserved byte of the header isn't 0.
    #[error("a reserved byte isn't zero")]
    Reserved,
    /// The header counts more strings than a frozen table can have.
    #[error("too many strings")]
    TooMany,
    /// The number of the shard isn't below the number of shards.
    #[error("the number of the shard isn't below the number of shards")]
    Shard,
    /// The identity in the header isn't that of the strings, or the only table of a set has another identity
    /// than the set.
    #[error("the identity isn't that of the strings")]
    OtherIdentity,
    /// The bytes end within the header or a section.
    #[error("the file is truncated")]
    Truncated,
    /// There are more bytes than the header requires.
    #[error("there are bytes behind the strings")]
    TooLong,
    /// The strings don't fill the text: an end lies before the one before it, or the last isn't the text's.
    #[error("the strings don't fill the text")]
    Ends,
    /// A place that no string has isn't empty, or has the symbol of a string that has another.
    #[error("a place without a string isn't empty")]
    Unused,
    /// The string of this symbol isn't found at it.
    #[error("string {0} isn't found at its symbol")]
    NotFound(u32),
    /// The string of this symbol isn't UTF-8, and the kind is text.
    #[error("string {0} isn't UTF-8")]
    NotUtf8(u32),
}

/// Why a list of strings wasn't frozen.
#[derive(Debug, Clone, Copy, PartialEq, Eq, Error)]
pub enum FreezeError {
    /// There are more than 2^31 strings.
    #[error("too many strings")]
    TooMany,
    /// The strings have 2^32 bytes or more together.
    #[error("the strings are too long")]
    TooLong,
    /// The strings at these two positions are equal, and no string before the second is equal to an
    /// earlier one.
    #[error("strings {0} and {1} are equal")]
    Equal(u32, u32),
    /// The string at this position isn't UTF-8, and the kind is text.
    #[error("string {0} isn't UTF-8")]
    NotUtf8(u32),
    /// No places were found for the strings under any of the keys that were tried.
    #[error("no places were found for the strings")]
    NoPlaces,
    /// An allocation failed. A check of what was written, or that a group of strings has no places, would
    /// return this too, if it failed. It isn't proved that none ever fails.
    #[error("out of memory")]
    Memory,
}

impl From<AllocError> for FreezeError {
    ghost from_gives = { λ _ error. error ≡ Memory };

    fn from(_error: AllocError) -> FreezeError {
        FreezeError::Memory
    }
}
