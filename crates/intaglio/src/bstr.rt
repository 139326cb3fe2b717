//! The table of the byte strings of the crate `bstr`: bytes that are text by convention.
use crate::{Forms, Pairs, Table};
pub use intaglio_bytes::b_str::BStrContent;
pub use intaglio_symbol::AllSymbols;
use std::hash::{BuildHasherDefault, FoldHasher};

/// The byte strings of a table, in the order of their symbols.
pub type BStrings<'a> = Forms<'a, Vec<BStrContent>>;

/// The symbols and byte strings of a table, in order.
pub type Iter<'a> = Pairs<'a, Vec<BStrContent>>;

/// A table of distinct byte strings of the crate `bstr`, each with a [`Symbol`](crate::Symbol). Its
/// calls are those of [`Table`].
///
/// A byte string is stored as a `BStr<'static>` or a `BString`, and looked up by a `BStr`. Byte strings are
/// equal if their bytes are.
///
/// ```
/// # use bstr::BStr;
/// # use intaglio::bstr::{BStrContent, SymbolTable};
/// let mut table = SymbolTable::new(rt.alloc())?;
/// let symbol = table.intern(BStrContent::from(BStr::new(b"abc")))?;
/// assert!(rt; table.check_interned(BStr::new(b"abc")) == Some(symbol));
/// ```
pub type SymbolTable<S = BuildHasherDefault<FoldHasher>> = Table<BStrContent, S>;
