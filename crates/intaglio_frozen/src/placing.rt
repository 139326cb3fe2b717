//! How the strings of a frozen table get their places.
ghost use Rattle.std.specs.Prelude.{◌≡◌, ◌*◌, ◌<◌, ◌≤◌, ◌^◌, IfOk, IfSome, None, length};
ghost use Rattle.intaglio_frozen.specs.Stuck.{IsStuck};

use crate::bitmap::words_for;
use crate::grouping::{Hashed, by_groups, by_size};
use crate::numbers::{NO_SYMBOL, groups_for, mixed, places_for, scaled};
use crate::searching::find_pilot;
use crate::stuck::is_stuck;
use std::alloc::{AllocError, Global};

/// The sections that a look-up reads before the strings.
#[derive(Drop)]
pub(crate) struct PlacedSections {
    pub(crate) symbols: Vec<u32>,
    pub(crate) pilots: Vec<u16>,
    pub(crate) tags: Vec<u8>,
}

// The sections for these hashes, which are those of the symbols 0, 1, 2 and so on, or nothing if there is no
// place for one.
pub(crate) fn place_all(alloc: Global, hashes: &[u64]) -> Result<Option<PlacedSections>, AllocError>
    requires { length hashes.now ≤ 2 ^ 31 }
    ensures { IfOk result (λ found. found ≡ None → IsStuck hashes.now) }
{
    let places = places_for(hashes.len() as u64);
    let groups = groups_for(hashes.len() as u64);
    let grouped = by_groups(alloc, hashes, groups)?;
    let order = by_size(alloc, &grouped.ends)?;
    let mut taken = Vec::from_elem(alloc, 0u64, words_for(places as usize))?;
    let mut symbols = Vec::from_elem(alloc, NO_SYMBOL, places as usize)?;
    let mut pilots = Vec::from_elem(alloc, 0u16, groups as usize)?;
    let mut tags = Vec::from_elem(alloc, 0u8, places as usize)?;
    let failed = place_groups(
        places,
        &grouped.hashes,
        &grouped.ends,
        &order,
        &mut taken,
        &mut symbols,
        &mut pilots,
        &mut tags,
    );
    match failed {
        None => Ok(Some(PlacedSections {
            symbols,
            pilots,
            tags,
        })),
        Some(group) if is_stuck(alloc, hashes, &pilots, group)? => Ok(None),
        // This is never so, but it isn't proved that it never is.
        Some(_) => Err(AllocError),
    }
}

// Finds the least pilot for each group, in this order, up to the first for which there is none: that one.
fn place_groups(
    places: u64,
    grouped: &[Hashed],
    ends: &[u32],
    order: &[u32],
    taken: &mut [u64],
    symbols: &mut [u32],
    pilots: &mut [u16],
    tags: &mut [u8],
) -> Option<usize>
    requires some { 0 < places }
    requires few { places ≤ 2 ^ 32 }
    requires taken { places < 64 * length taken.old }
    requires symbols { length symbols.old ≡ places }
    requires pilots { length pilots.old ≡ length ends.now }
    requires tags { length tags.old ≡ places }
    ensures { IfSome result (λ group. group < length ends.now) }
{
    for group in order {
        let group = *group as usize;
        if group < ends.len() {
            let members = members_of(grouped, ends, group);
            let Some(pilot) = find_pilot(taken, members, places) else {
                return Some(group);
            };
            pilots[group] = pilot;
            put_members(symbols, tags, members, places, pilot);
        }
    }
    None
}

// The hashes of a group.
#[inline(always)]
fn members_of<'a>(hashes: &'a [Hashed], ends: &[u32], group: usize) -> &'a [Hashed]
    requires { group < length ends.now }
{
    let end = (ends[group] as usize).min(hashes.len());
    let start = if group == 0 { 0 } else { ends[group - 1] };
    &hashes[(start as usize).min(end)..end]
}

// Writes the symbols and the tags of these hashes to their places.
#[inline(always)]
fn put_members(symbols: &mut [u32], tags: &mut [u8], members: &[Hashed], places: u64, pilot: u16)
    requires some { 0 < places }
    requires few { places ≤ 2 ^ 32 }
    requires symbols { length symbols.old ≡ places }
    requires tags { length tags.old ≡ places }
    ensures symbols { length symbols.new ≡ places }
    ensures tags { length tags.new ≡ places }
{
    for member in members {
        let place = scaled(places, mixed(member.hash, pilot));
        symbols[place] = member.symbol;
        tags[place] = (member.hash % 256) as u8;
    }
}
