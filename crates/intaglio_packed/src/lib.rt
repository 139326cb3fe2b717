#![tactic(auto)]
//! Packed tables: many spellings of one kind in one buffer, with an index over them.
//!
//! [`Packed`] is a list of spellings of a kind, each with its hash: the store of a packed table. Its index is a
//! [`RecordIndex`](intaglio_records::RecordIndex).

mod packed;
mod packed_index;
mod packed_store;

pub use packed::Packed;
