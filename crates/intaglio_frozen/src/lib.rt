//! Frozen tables: a symbol table as one block of bytes, such as a mapped file; their merging, the maps that
//! renumber codes, and dictionaries in shards.
//!
//! A column is a list of strings. It is kept as a dictionary, a frozen table of its distinct strings,
//! and a list of codes, the symbols of its strings. Workers make a dictionary each, of their part of a
//! column; the dictionaries are merged, and the codes of each part are renumbered by a map. [`laws`]
//! says why that keeps the strings.
#![tactic(auto)]

mod absorbing;
pub mod ahead;
mod batch;
mod bitmap;
mod block;
mod checking;
mod drawing;
mod equal;
mod error;
mod freezing;
mod from_string;
mod frozen;
mod grouping;
mod hashing;
mod header;
mod id;
mod identity;
mod iter;
mod kind;
pub mod laws;
mod list;
mod merging;
mod numbers;
mod placing;
mod reader;
mod searching;
mod sections;
mod set_id;
mod sharding;
mod shards;
mod strings;
mod stuck;
mod thawing;
mod trusted;

pub use absorbing::absorb;
pub use block::Block;
pub use error::{FreezeError, FrozenError};
pub use freezing::{freeze, freeze_at, freeze_with_default_keys};
pub use from_string::{FromString, are_texts};
pub use frozen::Frozen;
pub use header::Header;
pub use id::{DictionaryId, kind_number};
pub use identity::id_of_table;
pub use iter::{FrozenPairs, FrozenStrings};
pub use kind::FrozenKind;
pub use list::StringList;
pub use merging::{Merged, merge_tables};
pub use sections::Sections;
pub use set_id::{Place, SetId};
pub use sharding::{shard_of, split_with_map};
pub use shards::{Shards, ShardsError, first_misplaced};
pub use trusted::TrustedFrozen;
