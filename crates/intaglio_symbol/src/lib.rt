//! Symbols, and the errors of interning, which all tables share.
//!
//! - [`Symbol`] is the number that a content was given, with its conversions.
//! - [`SymbolOverflowError`], [`InternError`], [`RoomError`] and [`StaleMark`] are the errors.
//! - [`Mark`] is a length to which a table can be rolled back.
//! - [`AllSymbols`] iterates over the symbols of a table, in order.
//! - [`laws`] says what holds of the traits that symbols and marks derive.
#![tactic(auto)]

mod all_symbols;
mod convert;
mod error;
pub mod laws;
mod mark;
mod symbol;

pub use all_symbols::AllSymbols;
pub use error::{InternError, RoomError, StaleMark, SymbolOverflowError};
pub use mark::Mark;
pub use symbol::Symbol;

/// The capacity of a table that `new` or `with_hasher` makes.
pub const DEFAULT_SYMBOL_TABLE_CAPACITY: usize = 4096;
