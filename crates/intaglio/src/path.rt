//! Paths by their components, and the table of paths.
//!
//! - [`Path`] is the text of a path. Two are equal if their components are.
//! - [`Components`] yields each [`Component`] of a path, from the front.
//! - [`PathContent`] is what [`SymbolTable`] stores.
use crate::{Forms, Pairs, Table};
pub use intaglio_path::{Component, Components, Path, PathContent};
pub use intaglio_symbol::AllSymbols;
use std::hash::{BuildHasherDefault, FoldHasher};

/// The paths of a table, in the order of their symbols.
pub type Paths<'a> = Forms<'a, Vec<PathContent>>;

/// The symbols and paths of a table, in order.
pub type Iter<'a> = Pairs<'a, Vec<PathContent>>;

/// A table of distinct paths, each with a [`Symbol`](crate::Symbol).
/// Its calls are those of [`Table`].
///
/// A path is stored as a `&'static str` or a `String`, and looked up by a [`Path`]. Paths are
/// equal if their components are; the first spelling is stored.
///
/// ```
/// # use intaglio::path::{Path, PathContent, SymbolTable};
/// let mut table = SymbolTable::new(rt.alloc())?;
/// let symbol = table.intern(PathContent::from("a//b"))?;
/// assert!(rt; table.check_interned(Path::new("a/./b")) == Some(symbol));
/// assert!(rt; table.get(symbol).map(|path| path.as_str()) == Some("a//b"));
/// ```
pub type SymbolTable<S = BuildHasherDefault<FoldHasher>> = Table<PathContent, S>;
