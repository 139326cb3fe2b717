//! What a file says of the dictionary that it is a part of, or that it belongs to, as C gets it.
ghost use Rattle.std.specs.Prelude.{◌≡◌};
ghost use Rattle.intaglio_c.specs.Cited.{map, IfOk, own_id, place_in, set_in};

use intaglio_columns::DictionaryId;
use intaglio_frozen::{Place, SetId};
use std::alloc::{AllocError, Global};

/// A dictionary, or one of its shards.
#[repr(C)]
#[derive(Debug, Clone, Copy, PartialEq, Eq)]
pub struct Reference {
    /// The kind, the number of strings, and the two hashes of the set.
    pub id: DictionaryId,
    /// How many shards the dictionary has.
    pub shards: u32,
    /// The number of the shard.
    pub shard: u32,
}

impl Reference {
    pub(crate) fn of(id: DictionaryId, shards: u32, shard: u32) -> Reference
        ensures { result ≡ record { id = id; shards = shards; shard = shard } }
    {
        Reference { id, shards, shard }
    }

    // The place of the shard.
    pub(crate) fn place(&self) -> Place
        ensures { result ≡ place_in self.now }
    {
        Place {
            set: self.set(),
            shards: self.shards,
            shard: self.shard,
        }
    }

    // The set of which it is a shard.
    pub(crate) fn set(&self) -> SetId
        ensures { result ≡ set_in self.now }
    {
        SetId {
            hash0: self.id.hash0,
            hash1: self.id.hash1,
        }
    }
}

// These two push, since `collect` asks for less memory if its first request is refused, and C is to be told of
// each refusal.

// The set of each of these.
pub(crate) fn sets_of(alloc: Global, all: &[Reference]) -> Result<Vec<SetId>, AllocError>
    ensures { IfOk result (λ sets. sets.items ≡ map set_in all.now) }
{
    let mut sets = Vec::new(alloc);
    for one in all {
        sets.push(one.set())?;
    }
    Ok(sets)
}

// What the strings of each of these are.
pub(crate) fn ids_of(alloc: Global, all: &[Reference]) -> Result<Vec<DictionaryId>, AllocError>
    ensures { IfOk result (λ ids. ids.items ≡ map own_id all.now) }
{
    let mut ids = Vec::new(alloc);
    for one in all {
        ids.push(one.id)?;
    }
    Ok(ids)
}
