//! The hash of a string, its place, and how many places there are.
ghost use Rattle.std.specs.Prelude.{◌≡◌, ◌+◌, ◌<◌, ◌≤◌, ◌^◌, length};
ghost use Rattle.std.specs.Hash.DefaultHasher.{write, finish};
ghost use Rattle.intaglio_hash.specs.KeyedState.{initial_hasher};
ghost use Rattle.intaglio_frozen.specs.Layout.{places_for, groups_for};
ghost use Rattle.intaglio_frozen.specs.LookUp.{scaled, mixed};

use intaglio_hash::KeyedState;
use std::hash::{BuildHasher, Hasher};

// The symbol of a place that no string has.
pub(crate) const NO_SYMBOL: u32 = u32::MAX;

// A number below `n`, from the upper half of a hash.
#[inline(always)]
pub(crate) fn scaled(n: u64, hash: u64) -> usize
    requires some { 0 < n }
    requires few { n ≤ 2 ^ 32 }
    ensures value { result ≡ scaled n hash }
    ensures below { result < n }
{
    ((hash >> 32) * n >> 32) as usize
}

// A hash, changed by a pilot.
#[inline(always)]
#[tactic(auto, unfolding(crate::specs::LookUp::mixed))]
pub(crate) fn mixed(hash: u64, pilot: u16) -> u64
    ensures { result ≡ mixed hash pilot }
{
    (hash ^ (pilot as u64).wrapping_mul(0x9e37_79b9_7f4a_7c15)).wrapping_mul(0xd6e8_feb8_6659_fd93)
}

// The hash of a string: SipHash-1-3 of its bytes.
#[inline(always)]
pub(crate) fn hash_by(state: &KeyedState, string: &[u8]) -> u64
    ensures { result ≡ finish (write (initial_hasher state.now) string.now) }
{
    let mut hasher = state.build_hasher();
    hasher.write(string);
    hasher.finish()
}

// How many places there are for `count` strings: a twentieth more than strings.
#[inline(always)]
pub(crate) fn places_for(count: u64) -> u64
    requires { count ≤ 2 ^ 31 }
    ensures value { result ≡ places_for count }
    ensures some { 0 < result }
    ensures few { result ≤ 2 ^ 32 }
{
    count + count / 19 + 2
}

// How many groups of hashes there are for `count` strings.
#[inline(always)]
pub(crate) fn groups_for(count: u64) -> u64
    requires { count ≤ 2 ^ 31 }
    ensures value { result ≡ groups_for count }
    ensures some { 0 < result }
    ensures few { result ≤ 2 ^ 32 }
{
    count / 3 + 1
}
