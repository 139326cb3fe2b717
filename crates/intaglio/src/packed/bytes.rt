//! The table of byte slices in one buffer.
use super::Packed;
use crate::{Forms, Pairs, TableOver};
pub use intaglio_bytes::bytes::BytesKind;
use intaglio_hash::FixedState;

/// The byte slices of a table, in the order of their symbols.
pub type Bytestrings<'a> = Forms<'a, Packed<BytesKind>>;

/// The symbols and byte slices of a table, in order.
pub type Iter<'a> = Pairs<'a, Packed<BytesKind>>;

/// A table of distinct byte slices in one buffer, each with a [`Symbol`](crate::Symbol).
/// Its calls are those of [`TableOver`].
///
/// ```
/// # use intaglio::packed::bytes::SymbolTable;
/// let mut table = SymbolTable::new(rt.alloc())?;
/// let symbol = table.get_or_intern(b"\x00\xff")?;
/// assert!(rt; table.check_interned(b"\x00\xff") == Some(symbol));
/// ```
pub type SymbolTable<S = FixedState> = TableOver<Packed<BytesKind>, S>;
