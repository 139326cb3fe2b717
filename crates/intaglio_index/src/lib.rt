#![tactic(auto)]
//! Symbols in buckets: the index of a table, which doesn't know the contents.
//!
//! An [`Index`] holds symbols by the hashes of their contents. With B buckets, hash h falls in bucket h mod
//! B. [`Index::first`] and [`Index::after`] walk a bucket: they return each of its symbols once, with its
//! hash, in order of hashes. [`Index::find`] and [`Index::find_next`] return only the symbols of one hash.
//!
//! A contract sees an index as the record `Placed`: the number of buckets, the hash of each placed symbol in
//! the order of their numbers, the room, which is how many symbols can be placed in total, and for how many
//! the buckets were made.
mod index;

pub use index::Index;
