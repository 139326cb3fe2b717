//! Symbol tables: each distinct string gets a small stable number, and the number gives the string back.
//!
//! [`SymbolTable`] interns texts. The modules [`bytes`], [`bstr`], [`cstr`], [`osstr`] and [`path`] have
//! a table each, for bytes, byte strings, C strings, OS strings and paths. Each is a [`Table`] of
//! one kind of content. [`packed`] has tables in one buffer, of each kind but C strings. It is proved that a
//! table behaves as a plain list of distinct contents, whose symbols are their positions.
#![tactic(auto)]

pub mod bstr;
pub mod bytes;
pub mod cstr;
mod error;
pub mod laws;
pub mod osstr;
pub mod packed;
pub mod path;
mod table;
mod text;

pub use error::TableError;
pub use intaglio_core::{
    AddedTo, AllSymbols, BaseInterner, ByteStore, Call, Content, ContentOf, Copied, CopiedTo, Core,
    DEFAULT_SYMBOL_TABLE_CAPACITY, Forms, Index, IndexOf, Indexed, IndexedStore, InternError,
    Interner, Keyed, KindForm, KindOwned, Lends, LookedUpIn, Mark, Moved, Packable, PackedForm,
    Pairs, Reply, RoomError, Sought, SoughtIn, Spelled, SpelledStore, Spells, StaleMark, Store,
    StringKind, Symbol, SymbolOverflowError, Work, check_all, get_or_intern_all, intern_all, run,
};
pub use intaglio_text::StrContent;
pub use table::{Table, TableOver};
pub use text::{Iter, Strings, SymbolTable};
