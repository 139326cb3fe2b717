//! Which shard a string belongs to, and the strings of each shard.
ghost use Rattle.std.specs.Prelude.{◌≡◌, ◌+◌, ◌<◌, ◌≤◌, ◌==◌, ◌^◌, ℕ, get_or, length, map, IfOk};
ghost use Rattle.std.specs.List.{filter};
ghost use Rattle.intaglio_frozen.specs.Merging.{IsMap, missing};
ghost use Rattle.intaglio_frozen.specs.Shards.{AreNumbered, joined, first_shards, shard, shards, shard_of};

use crate::StringList;
use intaglio_hash::KeyedState;
use intaglio_symbol::Symbol;
use std::alloc::{AllocError, Global};
use std::hash::{BuildHasher, Hasher};

// The keys of the hash by which strings are shared out: "shards.0" and "shards.1". They are other keys than
// those under which a frozen table is written by default.
const KEY0: u64 = 0x7368_6172_6473_2e30;

const KEY1: u64 = 0x7368_6172_6473_2e31;

/// The shard that a string belongs to, of `count` ones: from 0 to `count - 1`.
///
/// It depends on the string's bytes and on `count` alone, so it is the same in
/// every program and on every machine.
///
/// ```
/// # use intaglio_frozen::shard_of;
/// let shard = shard_of(b"rose", 16);
/// assert!(rt; shard < 16);
/// assert!(rt; shard == shard_of(b"rose", 16));
/// ```
#[tactic(auto, unfolding(crate::specs::Shards::shard_of))]
pub fn shard_of(string: &[u8], count: u32) -> u32
    requires { 0 < count }
    ensures value { result ≡ shard_of count string.now }
    ensures below { result < count }
{
    let mut hasher = KeyedState::with_keys(KEY0, KEY1).build_hasher();
    hasher.write(string);
    ((hasher.finish() >> 32) * count as u64 >> 32) as u32
}

/// The strings of each shard of a list, in the list's order, and the map from the list to its shards, one behind
/// the other: the new symbol of each string. The strings stay where they are.
///
/// Each list can be frozen, or merged with the same shard of other lists: shards of a union are the unions of
/// shards ([`sharding_law`](crate::laws::sharding_law)).
///
/// # Errors
///
/// [`AllocError`] if an allocation fails.
///
/// ```
/// # use intaglio::{StrContent, Symbol, SymbolTable};
/// # use intaglio_frozen::{shard_of, split_with_map};
/// # let alloc = rt.alloc();
/// # let mut table = SymbolTable::new(alloc)?;
/// # let _symbol = table.intern(StrContent::from("rose"))?;
/// let (shards, map) = split_with_map(alloc, &table, 4)?;
/// assert!(rt; shards.len() == 4);
/// let shard = &shards[shard_of(b"rose", 4) as usize];
/// assert!(rt; shard.as_slice() == [b"rose".as_slice()].as_slice());
/// assert!(rt; map.as_slice() == [Symbol::new(0)].as_slice());
/// ```
pub fn split_with_map<'s, L: StringList>(
    alloc: Global,
    list: &'s L,
    count: u32,
) -> Result<(Vec<Vec<&'s [u8]>>, Vec<Symbol>), AllocError>
    requires some { 0 < count }
    requires few { length (L.strings list.now) ≤ missing }
    ensures split { IfOk result (λ made. map (λ ws. map (λ w. w.now) ws.items) made.0.items
        ≡ shards count (L.strings list.now)) }
    ensures map { IfOk result (λ made. IsMap (L.strings list.now)
        (joined (shards count (L.strings list.now))) made.1.items) }
{
    let shards = shards_of(alloc, list, count)?;
    let lists = lists_of(alloc, list, count, &shards)?;
    let numbers = numbers_of(alloc, list, count, &shards)?;
    Ok((lists, numbers))
}

// The strings of each shard, by the shard of each string.
fn lists_of<'s, L: StringList>(
    alloc: Global,
    list: &'s L,
    count: u32,
    shards: &[u32],
) -> Result<Vec<Vec<&'s [u8]>>, AllocError>
    requires { shards.now ≡ map (shard_of count) (L.strings list.now) }
    ensures { IfOk result (λ split. map (λ ws. map (λ w. w.now) ws.items) split.items
        ≡ first_shards count (L.strings list.now) count) }
{
    let mut split = Vec::with_capacity(alloc, count as usize)?;
    for number in 0..count {
        split.push_reserved(strings_of(alloc, list, count, shards, number)?);
    }
    Ok(split)
}

// The map from a list to its shards, by the shard of each string.
fn numbers_of<L: StringList>(
    alloc: Global,
    list: &L,
    count: u32,
    shards: &[u32],
) -> Result<Vec<Symbol>, AllocError>
    requires shards { shards.now ≡ map (shard_of count) (L.strings list.now) }
    requires below { (i : ℕ) → i < length shards.now → get_or shards.now i 0 < count }
    requires few { length (L.strings list.now) ≤ missing }
    ensures { IfOk result (λ numbers. IsMap (L.strings list.now)
        (joined (first_shards count (L.strings list.now) count)) numbers.items) }
{
    let mut numbers = Vec::from_elem(alloc, Symbol::new(0), shards.len())?;
    let mut next = 0;
    for number in 0..count {
        next = number_shard(list, count, shards, number, next, &mut numbers);
    }
    Ok(numbers)
}

// Numbers the strings of one shard from this number on, and returns the next number.
fn number_shard<L: StringList>(
    _list: &L,
    _count: u32,
    shards: &[u32],
    number: u32,
    start: u32,
    numbers: &mut [Symbol],
) -> u32
    requires shards { shards.now ≡ map (shard_of _count) (L.strings _list.now) }
    requires few { length (L.strings _list.now) ≤ missing }
    requires len { length numbers.old ≡ length shards.now }
    requires start { start ≡ length (joined (first_shards _count (L.strings _list.now) number)) }
    requires numbered { let strings = L.strings _list.now in
        AreNumbered strings shards.now (joined (first_shards _count strings number)) number numbers.old }
    ensures next { result ≡ length (joined (first_shards _count (L.strings _list.now) (number + 1))) }
    ensures numbered { let strings = L.strings _list.now in
        AreNumbered strings shards.now (joined (first_shards _count strings (number + 1))) (number + 1)
        numbers.new }
    ensures len { length numbers.new ≡ length numbers.old }
{
    let mut next = start;
    for place in 0..shards.len() {
        if number == shards[place] {
            numbers[place] = Symbol::new(next);
            next += 1;
        }
    }
    next
}

// The shard of each string.
fn shards_of<L: StringList>(alloc: Global, list: &L, count: u32) -> Result<Vec<u32>, AllocError>
    requires { 0 < count }
    ensures shards { IfOk result (λ shards. shards.items ≡ map (shard_of count) (L.strings list.now)) }
    ensures below { IfOk result (λ shards. (i : ℕ) → i < length shards.items →
        get_or shards.items i 0 < count) }
{
    let mut shards = Vec::with_capacity(alloc, list.len())?;
    for i in 0..list.len() {
        shards.push_reserved(shard_of(list.string(i), count));
    }
    Ok(shards)
}

// The strings of one shard.
fn strings_of<'s, L: StringList>(
    alloc: Global,
    list: &'s L,
    count: u32,
    shards: &[u32],
    number: u32,
) -> Result<Vec<&'s [u8]>, AllocError>
    requires { shards.now ≡ map (shard_of count) (L.strings list.now) }
    ensures { IfOk result (λ strings. map (λ w. w.now) strings.items
        ≡ shard count (L.strings list.now) number) }
{
    let mut strings = Vec::new(alloc);
    for i in 0..shards.len() {
        if shards[i] == number {
            strings.push(list.string(i))?;
        }
    }
    Ok(strings)
}
