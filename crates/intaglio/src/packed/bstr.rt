//! The table of the byte strings of the crate `bstr` in one buffer.
use super::Packed;
use crate::{Forms, Pairs, TableOver};
pub use intaglio_bytes::b_str::BStrKind;
use intaglio_hash::FixedState;

/// The byte strings of a table, in the order of their symbols.
pub type BStrings<'a> = Forms<'a, Packed<BStrKind>>;

/// The symbols and byte strings of a table, in order.
pub type Iter<'a> = Pairs<'a, Packed<BStrKind>>;

/// A table of distinct byte strings of the crate `bstr` in one buffer, each with a [`Symbol`](crate::Symbol).
/// Its calls are those of [`TableOver`].
///
/// ```
/// # use bstr::BStr;
/// # use intaglio::packed::bstr::SymbolTable;
/// let mut table = SymbolTable::new(rt.alloc())?;
/// let symbol = table.get_or_intern(BStr::new(b"abc"))?;
/// assert!(rt; table.check_interned(BStr::new(b"abc")) == Some(symbol));
/// ```
pub type SymbolTable<S = FixedState> = TableOver<Packed<BStrKind>, S>;
