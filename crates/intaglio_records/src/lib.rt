#![tactic(auto)]
//! Many strings in one buffer, each with a hash, and an index that finds them by their hashes: what a packed
//! table is made of.
//!
//! - [`StringBuffer`] is a list of strings: a string takes its bytes and four more ([`StringEnds`]; eight above
//!   2^32 bytes), and no allocation of its own.
//! - [`StringRecords`] is a list of strings, each with a hash. A *record* has the hash, the number of the
//!   string and its length in front of the string, so that all that a search by a hash compares is read in one
//!   place. [`RecordIndex`] is an index over such a list, which finds strings by their hashes ([`Matches`]).
//!   No other crate can read the hash of a record.
//! - [`Lines`] hold numbers of four bytes in lines of 64 bytes. They find the items that may have a hash by
//!   their *tags*, eight bits of their hashes, and the list says which of them have it. An entry takes five
//!   bytes: the tag and its *slot*, a number that says where the item is. A contract sees `Lines` through
//!   `IsFilled`, which says that they have exactly these entries, newest first.

mod end_list;
mod entries;
mod header;
mod index;
mod line;
mod lines;
mod matches;
mod range;
mod records;
mod search;
mod string_buffer;

pub use end_list::StringEnds;
pub use index::RecordIndex;
pub use line::{Line, tag_of};
pub use lines::Lines;
pub use matches::Matches;
pub use range::part;
pub use records::StringRecords;
pub use search::Candidates;
pub use string_buffer::StringBuffer;
