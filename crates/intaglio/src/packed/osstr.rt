//! The table of OS strings, which are UTF-8 here, in one buffer.
use super::Packed;
use crate::{Forms, Pairs, TableOver};
use intaglio_hash::FixedState;
pub use intaglio_text::osstr::OsStrKind;

/// The OS strings of a table, in the order of their symbols.
pub type OsStrings<'a> = Forms<'a, Packed<OsStrKind>>;

/// The symbols and OS strings of a table, in order.
pub type Iter<'a> = Pairs<'a, Packed<OsStrKind>>;

/// A table of distinct OS strings in one buffer, each with a [`Symbol`](crate::Symbol).
/// Its calls are those of [`TableOver`].
///
/// ```
/// # use intaglio::packed::osstr::SymbolTable;
/// let mut table = SymbolTable::new(rt.alloc())?;
/// let symbol = table.get_or_intern("abc")?;
/// assert!(rt; table.get(symbol) == Some("abc"));
/// ```
pub type SymbolTable<S = FixedState> = TableOver<Packed<OsStrKind>, S>;
