//! The engine of symbol tables: a list of contents with an index over it.
//!
//! [`IndexedStore`] gives each distinct content the next number, and returns the content for its number. The
//! contents may be in any [`Store`]; [`Core`] keeps owned ones, in a `Vec`. Each table of the crate
//! `intaglio` is a thin type over an `IndexedStore`. It does what [`BaseInterner`] says of every table, and
//! `Core` what [`Interner`] says too.
//!
//! What a caller of a `Core` needs is here too: contents of texts and of bytes, and [`run`], which
//! makes a list of [`Call`]s on it.
#![tactic(auto)]

pub mod index_of;
pub mod indexed_store;

pub use index_of::{IndexOf, Indexed};
pub use indexed_store::{Core, IndexedStore, SYMBOLS};
pub use intaglio_bytes::bytes::BytesContent;
pub use intaglio_content::{
    AddedTo, ByteStore, Content, ContentOf, Copied, CopiedTo, Forms, Keyed, KindForm, KindOwned,
    Lends, LookedUpIn, Moved, Packable, PackedForm, Pairs, Sought, SoughtIn, Spelled, SpelledStore,
    Spells, Store, StringKind, Work, feed_item,
};
pub use intaglio_index::Index;
pub use intaglio_interner::{
    AHEAD_FROM, BaseInterner, Call, GROUP, Interner, Reply, check_all, get_or_intern_all,
    intern_all, look_ahead, run,
};
pub use intaglio_symbol::{
    AllSymbols, DEFAULT_SYMBOL_TABLE_CAPACITY, InternError, Mark, RoomError, StaleMark, Symbol,
    SymbolOverflowError,
};
pub use intaglio_text::StrContent;
