//! Dictionaries, which are frozen tables in files, and columns in files. Makes a dictionary, encodes lines and
//! decodes codes, and answers what is asked: the symbols of the lines of an input, the strings of symbols, all
//! strings, and how large they are.
#![tactic(auto)]

pub mod answer;
pub mod codes;
pub mod columns;
pub mod counting;
pub mod dictionary;
mod encoding;
pub mod error;
mod file;
pub mod freezing;
pub mod interning;
pub mod joining;
pub mod look_up;
pub mod matching;
pub mod merging;
pub mod progress;
pub mod renumbering;
pub mod rows;
pub mod shard_merging;
pub mod sharding;
pub mod size;
pub mod strings;
pub mod translate;

pub use file::{
    CodeList, Column, ColumnError, ColumnHeader, ColumnWriteError, Counts, HEADER, MISSING,
    RowFilter, RowSource, Width, begins_as_column, column_bytes, header_bytes,
    sourced_column_bytes,
};
pub use intaglio_frozen::{DictionaryId, id_of_table};
