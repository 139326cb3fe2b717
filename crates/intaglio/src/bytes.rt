//! The table of bytes.
use crate::{Forms, Pairs, Table};
pub use intaglio_bytes::bytes::BytesContent;
pub use intaglio_symbol::AllSymbols;
use std::hash::{BuildHasherDefault, FoldHasher};

/// The byte slices of a table, in the order of their symbols.
pub type Bytestrings<'a> = Forms<'a, Vec<BytesContent>>;

/// The symbols and byte slices of a table, in order.
pub type Iter<'a> = Pairs<'a, Vec<BytesContent>>;

/// A table of distinct byte slices, each with a [`Symbol`](crate::Symbol).
/// Its calls are those of [`Table`].
///
/// Bytes are stored as a `&'static [u8]` or a `Vec<u8>`, and looked up by a `&[u8]`.
///
/// ```
/// # use intaglio::bytes::{BytesContent, SymbolTable};
/// let mut table = SymbolTable::new(rt.alloc())?;
/// let symbol = table.intern(BytesContent::from(b"\x00\xff".as_slice()))?;
/// assert!(rt; table.check_interned(b"\x00\xff") == Some(symbol));
/// ```
pub type SymbolTable<S = BuildHasherDefault<FoldHasher>> = Table<BytesContent, S>;
