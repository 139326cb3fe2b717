//! C strings, and the table of C strings.
//!
//! - [`CStr`] is a borrowed C string, [`CString`] an owned one: bytes whose only zero is the last byte.
//! - [`CStrError`] and [`CStringError`] say why bytes are not a C string.
//! - [`CStrContent`] is what [`SymbolTable`] stores. Its spelling is the bytes before the final zero.
use crate::{Forms, Pairs, Table};
pub use intaglio_cstr::{CStr, CStrContent, CStrError, CString, CStringError};
pub use intaglio_symbol::AllSymbols;
use std::hash::{BuildHasherDefault, FoldHasher};

/// The C strings of a table, in the order of their symbols.
pub type CStrings<'a> = Forms<'a, Vec<CStrContent>>;

/// The symbols and C strings of a table, in order.
pub type Iter<'a> = Pairs<'a, Vec<CStrContent>>;

/// A table of distinct C strings, each with a [`Symbol`](crate::Symbol).
/// Its calls are those of [`Table`].
///
/// A C string is stored as a `CStr<'static>` or a [`CString`], and looked up by a
/// [`CStr`]. C strings are equal if their bytes are.
///
/// ```
/// # use intaglio::cstr::{CStr, CStrContent, SymbolTable};
/// let abc = CStr::from_bytes_with_nul(b"abc\x00")?;
/// let mut table = SymbolTable::new(rt.alloc())?;
/// let symbol = table.intern(CStrContent::from(abc))?;
/// assert!(rt; table.check_interned(abc) == Some(symbol));
/// ```
pub type SymbolTable<S = BuildHasherDefault<FoldHasher>> = Table<CStrContent, S>;
