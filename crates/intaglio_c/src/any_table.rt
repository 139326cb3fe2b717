//! A table of any of the kinds.
use crate::kind::Rule;
use intaglio::{Table, TableOver};
use intaglio_bytes::bytes::{BytesContent, BytesKind};
use intaglio_hash::KeyedState;
use intaglio_packed::Packed;
use intaglio_path::PathContent;

// The same expression for the table of each kind.
macro_rules! on_table {
    ($any:expr, $table:ident => $call:expr) => {
        match $any {
            AnyTable::Owned(_, $table) => $call,
            AnyTable::Path($table) => $call,
            AnyTable::Packed(_, $table) => $call,
        }
    };
}

mod batches;
mod bytes;
pub(crate) mod freeze;
pub(crate) mod size;

/// A table of one of the kinds. Its strings are bytes that were checked by its rule when they came in.
#[derive(Drop)]
pub enum AnyTable {
    /// Each string is in a place of its own.
    Owned(Rule, Table<BytesContent, KeyedState>),
    /// Paths.
    Path(Table<PathContent, KeyedState>),
    /// All strings are in one buffer.
    Packed(Rule, TableOver<Packed<BytesKind>, KeyedState>),
}
