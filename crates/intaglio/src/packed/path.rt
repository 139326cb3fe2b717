//! The table of paths in one buffer.
use super::Packed;
use crate::{Forms, Pairs, TableOver};
use intaglio_hash::FixedState;
pub use intaglio_path::PathKind;

/// The paths of a table, in the order of their symbols.
pub type Paths<'a> = Forms<'a, Packed<PathKind>>;

/// The symbols and paths of a table, in order.
pub type Iter<'a> = Pairs<'a, Packed<PathKind>>;

/// A table of distinct paths in one buffer, each with a [`Symbol`](crate::Symbol).
/// Its calls are those of [`TableOver`].
///
/// Paths are equal if their components are; the first spelling is stored.
///
/// ```
/// # use intaglio::packed::path::SymbolTable;
/// # use intaglio::path::Path;
/// let mut table = SymbolTable::new(rt.alloc())?;
/// let symbol = table.get_or_intern(Path::new("a//b"))?;
/// assert!(rt; table.check_interned(Path::new("a/./b")) == Some(symbol));
/// assert!(rt; table.get(symbol).map(|path| path.as_str()) == Some("a//b"));
/// ```
pub type SymbolTable<S = FixedState> = TableOver<Packed<PathKind>, S>;
