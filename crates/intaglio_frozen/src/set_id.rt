//! Sets of shards, and places in them.
ghost use Rattle.std.specs.Prelude.{◌≡◌, ◌++◌};
ghost use Rattle.std.specs.Hash.DefaultHasher.{with_keys, write, finish};
ghost use Rattle.intaglio_frozen.specs.SetId.{first_kind, merge_bytes, number_bytes, set_of_merge, set_of_shards, shards_bytes};

use crate::id::{DictionaryId, kind_number};
use intaglio_hash::KeyedHasher;
use std::hash::Hasher;

/// What a set of shards is, which together are a dictionary: two hashes.
///
/// That two dictionaries whose sets are equal are equal is an assumption. A dictionary of several shards can
/// be made in several ways, and then its sets differ.
#[derive(Debug, Clone, Copy, PartialEq, Eq)]
pub struct SetId {
    /// The first hash.
    pub hash0: u64,
    /// The second one.
    pub hash1: u64,
}

impl SetId {
    /// The set of a dictionary whose shards have these identities, if one process makes them all. If there is
    /// one shard, it has the hashes of this one's identity.
    #[tactic(auto, using(std::proofs::lemmas::Grind::common_steps, crate::proofs::Hashed::set_hashed))]
    pub fn of_shards(ids: &[DictionaryId]) -> SetId
        ensures { result ≡ set_of_shards ids.now }
    {
        if ids.len() == 1 {
            return SetId {
                hash0: ids[0].hash0,
                hash1: ids[0].hash1,
            };
        }
        SetId {
            hash0: hash_shards(0, ids),
            hash1: hash_shards(1, ids),
        }
    }

    /// The set of a dictionary in so many shards, if shard k is merged from the shards k of parts that have
    /// these sets, in this order.
    pub fn of_merge(shards: u32, sets: &[SetId]) -> SetId
        ensures { result ≡ set_of_merge shards sets.now }
    {
        SetId {
            hash0: hash_sets(0, shards, sets),
            hash1: hash_sets(1, shards, sets),
        }
    }
}

// The hash of what shards are, under 2 and another key.
#[tactic(auto, using(std::proofs::lemmas::Grind::common_steps, crate::proofs::Hashed::last_item))]
fn hash_shards(key: u64, ids: &[DictionaryId]) -> u64
    ensures { result ≡ finish (write (with_keys 2 key) (shards_bytes ids.now)) }
{
    let mut hasher = KeyedHasher::with_keys(2, key);
    write_two(&mut hasher, ids.len() as u64, first_kind(ids) as u64);
    for id in ids {
        hasher.write(&id.count.to_le_bytes());
        write_two(&mut hasher, id.hash0, id.hash1);
    }
    hasher.finish()
}

// The number of the kind of the first shard.
fn first_kind(ids: &[DictionaryId]) -> u32
    ensures { result ≡ first_kind ids.now }
{
    match ids.first() {
        Some(id) => kind_number(id.is_text),
        None => 0,
    }
}

// The hash of a merge of parts of these sets under 3 and another key.
#[tactic(auto, using(std::proofs::lemmas::Grind::common_steps, crate::proofs::Hashed::last_item))]
fn hash_sets(key: u64, shards: u32, sets: &[SetId]) -> u64
    ensures { result ≡ finish (write (with_keys 3 key) (merge_bytes shards sets.now)) }
{
    let mut hasher = KeyedHasher::with_keys(3, key);
    write_two(&mut hasher, shards as u64, sets.len() as u64);
    for set in sets {
        write_two(&mut hasher, set.hash0, set.hash1);
    }
    hasher.finish()
}

fn write_two(hasher: &mut KeyedHasher, first: u64, second: u64)
    ensures { hasher.new ≡ write hasher.old (number_bytes first ++ number_bytes second) }
{
    hasher.write(&first.to_le_bytes());
    hasher.write(&second.to_le_bytes());
}

/// Which of the shards of a set a frozen table is.
#[derive(Debug, Clone, Copy, PartialEq, Eq)]
pub struct Place {
    /// The set. If it has one shard, this isn't used: the set is then what the strings are.
    pub set: SetId,
    /// How many shards the set has.
    pub shards: u32,
    /// The number of this one among them, from 0 on.
    pub shard: u32,
}

impl Place {
    /// The place of the only table of a set.
    pub const SINGLE: Place = Place {
        set: SetId { hash0: 0, hash1: 0 },
        shards: 1,
        shard: 0,
    };
}
