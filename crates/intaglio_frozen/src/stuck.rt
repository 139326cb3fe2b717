//! A check that a group of strings has no places.
//!
//! It is made only where the search has failed, and it is slower. The search isn't proved, but this check is.
ghost use Rattle.std.specs.Prelude.{◌≡◌, ℕ, List, ◌↔◌, ◌+◌, ◌<◌, ◌≤◌, ◌^◌, IfOk, IsTrue, false, length, get_or};
ghost use Rattle.intaglio_frozen.specs.Layout.{groups_for as count_of_groups, places_for as count_of_places};
ghost use Rattle.intaglio_frozen.specs.Stuck.{HasNoPlace, HaveOwnPlaces, IsBefore, IsStuck, group_at as group_of, place_under as place_of};
ghost use Rattle.intaglio_frozen.specs.Marks.{AreMarked, AreMembers, AreSizes};

use crate::numbers::{groups_for, mixed, places_for, scaled};
use crate::searching::PILOTS;
use std::alloc::{AllocError, Global};

// The mark of a place that a group which is placed before has. The mark of another place is a number that is
// one more than a pilot, or 0.
const TAKEN: u32 = u32::MAX;

// Whether the strings of groups that are placed before this one have places of their own under these pilots,
// and under each pilot a string of this group would get one of these, or that of an earlier one of the group.
pub(crate) fn is_stuck(
    alloc: Global,
    hashes: &[u64],
    pilots: &[u16],
    group: usize,
) -> Result<bool, AllocError>
    requires few { length hashes.now ≤ 2 ^ 31 }
    requires pilots { length pilots.now ≡ count_of_groups (length hashes.now) }
    requires group { group < count_of_groups (length hashes.now) }
    ensures { IfOk result (λ stuck. IsTrue stuck → IsStuck hashes.now) }
{
    let sizes = sizes_of(alloc, hashes)?;
    let members = members_of(alloc, hashes, group)?;
    let places = places_for(hashes.len() as u64);
    let mut marks = Vec::from_elem(alloc, 0u32, places as usize)?;
    Ok(!has_pilot(hashes, pilots, &sizes, group, &members, &mut marks))
}

// How many hashes each group has.
fn sizes_of(alloc: Global, hashes: &[u64]) -> Result<Vec<u32>, AllocError>
    requires { length hashes.now ≤ 2 ^ 31 }
    ensures { IfOk result (λ sizes. AreSizes hashes.now sizes.items) }
{
    let groups = groups_for(hashes.len() as u64);
    let mut sizes = Vec::from_elem(alloc, 0u32, groups as usize)?;
    for i in 0..hashes.len() {
        sizes[group_at(hashes, i)] += 1;
    }
    Ok(sizes)
}

// The symbols of a group, in their order.
fn members_of(alloc: Global, hashes: &[u64], group: usize) -> Result<Vec<u32>, AllocError>
    requires { length hashes.now ≤ 2 ^ 31 }
    ensures { IfOk result (λ members. AreMembers hashes.now group members.items) }
{
    let mut members = Vec::new(alloc);
    for i in 0..hashes.len() {
        if group_at(hashes, i) == group {
            members.push(i as u32)?;
        }
    }
    Ok(members)
}

// Marks the places of the strings of groups that are placed before this one, and returns whether no two of
// these strings have the same.
fn mark_before(
    hashes: &[u64],
    pilots: &[u16],
    sizes: &[u32],
    group: usize,
    marks: &mut [u32],
) -> bool
    requires few { length hashes.now ≤ 2 ^ 31 }
    requires pilots { length pilots.now ≡ count_of_groups (length hashes.now) }
    requires sizes { AreSizes hashes.now sizes.now }
    requires group { group < count_of_groups (length hashes.now) }
    requires marks { length marks.old ≡ count_of_places (length hashes.now) }
    requires none { (p : ℕ) → get_or marks.old p 0 ≡ 0 }
    ensures len { length marks.new ≡ length marks.old }
    ensures marked { AreMarked hashes.now (λ g. get_or pilots.now g 0) group marks.new 0 }
    ensures own { IsTrue result → HaveOwnPlaces hashes.now (λ g. get_or pilots.now g 0) group }
{
    for i in 0..hashes.len() {
        let other = group_at(hashes, i);
        if is_before(sizes, other, group) {
            let place = place_under(hashes, i, pilots[other]);
            if marks[place] == TAKEN {
                return false;
            }
            marks[place] = TAKEN;
        }
    }
    true
}

// Whether a group is placed before another: it is larger, or as large and has the lower number.
fn is_before(sizes: &[u32], first: usize, second: usize) -> bool
    requires first { first < length sizes.now }
    requires second { second < length sizes.now }
    ensures { (hs : List ℕ) → AreSizes hs sizes.now → IsTrue result ↔ IsBefore hs first second }
{
    sizes[second] < sizes[first] || (sizes[second] == sizes[first] && first < second)
}

// Whether there is a pilot under which the strings of a group get places of their own, or two strings of groups
// that are placed before it have the same place. All marks are 0.
fn has_pilot(
    hashes: &[u64],
    pilots: &[u16],
    sizes: &[u32],
    group: usize,
    members: &[u32],
    marks: &mut [u32],
) -> bool
    requires few { length hashes.now ≤ 2 ^ 31 }
    requires pilots { length pilots.now ≡ count_of_groups (length hashes.now) }
    requires sizes { AreSizes hashes.now sizes.now }
    requires group { group < count_of_groups (length hashes.now) }
    requires members { AreMembers hashes.now group members.now }
    requires marks { length marks.old ≡ count_of_places (length hashes.now) }
    requires none { (p : ℕ) → get_or marks.old p 0 ≡ 0 }
    ensures { result ≡ false → IsStuck hashes.now }
{
    if !mark_before(hashes, pilots, sizes, group, marks) {
        return true;
    }
    for pilot in 0..PILOTS {
        if has_places(hashes, members, pilot as u16, marks) {
            return true;
        }
    }
    false
}

// Whether these strings get places of their own under a pilot, none of which is marked as taken.
fn has_places(hashes: &[u64], members: &[u32], pilot: u16, marks: &mut [u32]) -> bool
    requires few { length hashes.now ≤ 2 ^ 31 }
    requires members { (k : ℕ) → k < length members.now → get_or members.now k 0 < length hashes.now }
    requires marks { length marks.old ≡ count_of_places (length hashes.now) }
    ensures len { length marks.new ≡ length marks.old }
    ensures marked { (pilots : ℕ → ℕ) (g : ℕ) → AreMarked hashes.now pilots g marks.old pilot →
        AreMarked hashes.now pilots g marks.new (pilot + 1) }
    ensures none { (pilots : ℕ → ℕ) (g : ℕ) → AreMarked hashes.now pilots g marks.old pilot →
        AreMembers hashes.now g members.now → result ≡ false →
        (j : ℕ) × HasNoPlace hashes.now pilots g pilot j }
{
    let mark = pilot as u32 + 1;
    for member in members {
        let place = place_under(hashes, *member as usize, pilot);
        if marks[place] == TAKEN || marks[place] == mark {
            return false;
        }
        marks[place] = mark;
    }
    true
}

// The group of a string.
fn group_at(hashes: &[u64], i: usize) -> usize
    requires few { length hashes.now ≤ 2 ^ 31 }
    requires there { i < length hashes.now }
    ensures value { result ≡ group_of hashes.now i }
    ensures below { result < count_of_groups (length hashes.now) }
{
    scaled(groups_for(hashes.len() as u64), hashes[i])
}

// The place of a string whose group has this pilot.
fn place_under(hashes: &[u64], i: usize, pilot: u16) -> usize
    requires few { length hashes.now ≤ 2 ^ 31 }
    requires there { i < length hashes.now }
    ensures value { result ≡ place_of hashes.now i pilot }
    ensures below { result < count_of_places (length hashes.now) }
{
    scaled(places_for(hashes.len() as u64), mixed(hashes[i], pilot))
}
