//! The table of OS strings, which are UTF-8 here.
use crate::{Forms, Pairs, Table};
pub use intaglio_symbol::AllSymbols;
pub use intaglio_text::osstr::OsStrContent;
use std::hash::{BuildHasherDefault, FoldHasher};

/// The OS strings of a table, in the order of their symbols.
pub type OsStrings<'a> = Forms<'a, Vec<OsStrContent>>;

/// The symbols and OS strings of a table, in order.
pub type Iter<'a> = Pairs<'a, Vec<OsStrContent>>;

/// A table of distinct OS strings, each with a [`Symbol`](crate::Symbol).
/// Its calls are those of [`Table`].
///
/// An OS string is UTF-8 here. It is stored as a `&'static str` or a `String`, and looked up by a
/// `&str`. OS strings are equal if their bytes are.
///
/// ```
/// # use intaglio::osstr::{OsStrContent, SymbolTable};
/// let mut table = SymbolTable::new(rt.alloc())?;
/// let symbol = table.intern(OsStrContent::from("abc"))?;
/// assert!(rt; table.get(symbol) == Some("abc"));
/// assert!(rt; table.check_interned("abc") == Some(symbol));
/// ```
pub type SymbolTable<S = BuildHasherDefault<FoldHasher>> = Table<OsStrContent, S>;
