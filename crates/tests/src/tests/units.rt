//! Tests of symbols, errors, hashers, indexes, records, the core, and contents.

mod buckets;
mod c_strings;
mod comparisons;
mod components;
mod conversions;
mod core_calls;
mod counting;
mod errors;
mod expected_writes;
mod feeds;
mod forms;
mod hashes;
mod packed_tables;
mod records;
mod searches;
mod slots;
mod symbols_to_come;
