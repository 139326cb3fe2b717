//! Maps of shards, as one map.
ghost use Rattle.std.specs.Prelude.{◌≡◌, ◌+◌, ◌++◌, ◌≤◌, get_or, map, All, IfOk, OnOk};
ghost use Rattle.intaglio_columns.specs.Layout.{codes, strings};
ghost use Rattle.intaglio_frozen.specs.Merging.{missing, renumber};
ghost use Rattle.intaglio_frozen.specs.Shards.{AreWithin, joined_map, sum_of};
ghost use Rattle.intaglio_columns.specs.Joining.{IsMapColumn};

use crate::Column;
use crate::codes::MISSING;
use intaglio_symbol::Symbol;
use std::alloc::{AllocError, Global};

/// The map from one dictionary in shards to another, by the map of each shard, in order. By
/// [`joining_law`](intaglio_frozen::laws::joining_law) it leads to the same strings.
///
/// # Errors
///
/// [`AllocError`] if an allocation fails.
pub fn join_maps(alloc: Global, maps: &[Column<'_>]) -> Result<Vec<Symbol>, AllocError>
    requires maps { All IsMapColumn maps.now }
    requires few { sum_of (map strings maps.now) ≤ missing }
    ensures joined { IfOk result
        (λ joined. joined.items ≡ joined_map 0 (map strings maps.now) (map codes maps.now)) }
    ensures within { OnOk result (AreWithin (map strings maps.now) (map codes maps.now)) }
{
    let mut joined = Vec::new(alloc);
    let mut start = 0;
    for map in maps {
        add_map(map, start, &mut joined)?;
        start += map.id().count as u32;
    }
    Ok(joined)
}

// Adds the numbers of a map, counted on from a start.
fn add_map(numbers: &Column<'_>, start: u32, joined: &mut Vec<Symbol>) -> Result<(), AllocError>
    requires map { IsMapColumn numbers.now }
    requires few { start + strings numbers.now ≤ missing }
    ensures added { OnOk result
        (joined.new.items ≡ joined.old.items ++ map (λ k. start + k) (codes numbers.now)) }
{
    joined.reserve(numbers.len())?;
    for row in 0..numbers.len() {
        let number = numbers.code(row).unwrap();
        joined.push_reserved(Symbol::new(start + number));
    }
    Ok(())
}

/// The code at each code of a map, or the missing code if the map hasn't that one.
///
/// # Errors
///
/// [`AllocError`] if the allocation of the list fails.
pub fn renumbered(
    alloc: Global,
    map: &[Symbol],
    codes: &[Symbol],
) -> Result<Vec<Symbol>, AllocError>
    ensures { IfOk result (λ new. new.items ≡ renumber map.now codes.now) }
{
    let mut new = Vec::with_capacity(alloc, codes.len())?;
    for i in 0..codes.len() {
        new.push_reserved(at_code(map, codes[i]));
    }
    Ok(new)
}

// The code at a code of a map.
#[inline]
pub(crate) fn at_code(map: &[Symbol], code: Symbol) -> Symbol
    ensures { result ≡ get_or map.now code missing }
{
    let place = code.id() as usize;
    if place < map.len() {
        map[place]
    } else {
        Symbol::new(MISSING)
    }
}
