//! The table of texts.
use crate::{Forms, Pairs, Table};
use intaglio_text::StrContent;
use std::hash::{BuildHasherDefault, FoldHasher};

/// The texts of a table, in the order of their symbols.
pub type Strings<'a> = Forms<'a, Vec<StrContent>>;

/// The symbols and texts of a table, in order.
pub type Iter<'a> = Pairs<'a, Vec<StrContent>>;

/// A table of distinct texts, each with a [`Symbol`](crate::Symbol).
/// Its calls are those of [`Table`].
///
/// A text is stored as a `&'static str` or a `String`, and looked up by a `&str`.
/// Texts are equal if their bytes are.
///
/// ```
/// # use intaglio::{StrContent, SymbolTable};
/// let mut table = SymbolTable::new(rt.alloc())?;
/// let symbol = table.intern(StrContent::from("abc"))?;
/// assert!(rt; table.get(symbol) == Some("abc"));
/// assert!(rt; table.check_interned("abc") == Some(symbol));
/// ```
pub type SymbolTable<S = BuildHasherDefault<FoldHasher>> = Table<StrContent, S>;
