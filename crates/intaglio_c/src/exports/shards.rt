//! Dictionaries in shards: which shard a string belongs to, which is known from its bytes alone, and the sets
//! of shards.
ghost use Rattle.std.specs.Prelude.{◌≡◌, ◌<◌};
ghost use Rattle.intaglio_c.specs.Cited.{map, set_of_merge, set_of_shards, shard_of, IsCodeOf, MakesSet, own_id, set_in};

use crate::reference::{Reference, ids_of, sets_of};
use crate::refusal::{Refusal, code, done, failed};
use intaglio_frozen::{SetId, shard_of};
use std::alloc::Global;

/// The shard that a string belongs to, of `shards` ones: from 0 to `shards - 1`. If there are none, it is 0.
#[unsafe(no_mangle)]
pub extern "C" fn intaglio_shard_of(shards: u32, string: &[u8]) -> u32
    ensures value { 0 < shards → result ≡ shard_of shards string.now }
    ensures below { 0 < shards → result < shards }
    ensures none { shards ≡ 0 → result ≡ 0 }
{
    if shards == 0 {
        return 0;
    }
    shard_of(string, shards)
}

/// Writes the two hashes of the set of which these dictionaries, each in one file, are the shards. Fails with
/// `NoMemory`; then nothing is written.
#[unsafe(no_mangle)]
pub extern "C" fn intaglio_set_of_shards(
    alloc: Global,
    shards: &[Reference],
    hash0: &mut u64,
    hash1: &mut u64,
) -> u32
    ensures made { IsCodeOf result (MakesSet (set_of_shards (map own_id shards.now))
        (hash0.old, hash1.old) (hash0.new, hash1.new)) }
{
    let set = SetId::of_shards(&or_code!(ids_of(alloc, shards)));
    *hash0 = set.hash0;
    *hash1 = set.hash1;
    code(done())
}

/// Writes the two hashes of the set of so many shards, each of which is merged from those with its number of
/// these parts, in their order. Fails with `NoMemory`; then nothing is written.
#[unsafe(no_mangle)]
pub extern "C" fn intaglio_set_of_merge(
    alloc: Global,
    shards: u32,
    parts: &[Reference],
    hash0: &mut u64,
    hash1: &mut u64,
) -> u32
    ensures made { IsCodeOf result (MakesSet (set_of_merge shards (map set_in parts.now))
        (hash0.old, hash1.old) (hash0.new, hash1.new)) }
{
    let set = SetId::of_merge(shards, &or_code!(sets_of(alloc, parts)));
    *hash0 = set.hash0;
    *hash1 = set.hash1;
    code(done())
}
