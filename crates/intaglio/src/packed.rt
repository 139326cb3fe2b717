//! Tables whose contents are in one buffer: of texts here, of the other kinds in [`bytes`],
//! [`bstr`], [`osstr`] and [`path`].
//!
//! They have the calls of the other tables that take or give a borrowed string, with the same contracts, and
//! they take less memory, since a string has no allocation of its own. Each new string is copied. By default
//! they hash with `intaglio_hash::FixedState`, which has the hashes of the other tables' default: hash and
//! comparison together take less time with it in these tables.
use crate::{Forms, Pairs, TableOver};
pub use intaglio_content::{KindOwned, Packable, PackedForm, Spelling, StringKind};
use intaglio_hash::FixedState;
pub use intaglio_packed::Packed;
pub use intaglio_text::StrKind;

pub mod bstr;
pub mod bytes;
pub mod osstr;
pub mod path;

/// The texts of a table, in the order of their symbols.
pub type Strings<'a> = Forms<'a, Packed<StrKind>>;

/// The symbols and texts of a table, in order.
pub type Iter<'a> = Pairs<'a, Packed<StrKind>>;

/// A table of distinct texts in one buffer, each with a [`Symbol`](crate::Symbol).
/// Its calls are those of [`TableOver`].
///
/// Adding a text can move all others: what [`get`](TableOver::get) lends is borrowed from the table.
///
/// ```
/// # use intaglio::packed::SymbolTable;
/// let mut table = SymbolTable::new(rt.alloc())?;
/// let symbol = table.get_or_intern("abc")?;
/// assert!(rt; table.get(symbol) == Some("abc"));
/// assert!(rt; table.check_interned("abc") == Some(symbol));
/// ```
pub type SymbolTable<S = FixedState> = TableOver<Packed<StrKind>, S>;
