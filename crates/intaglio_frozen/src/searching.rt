//! The search for the least pilot of a group. That it finds the least one is only tested.
ghost use Rattle.std.specs.Prelude.{◌≡◌, ◌+◌, ◌*◌, ◌<◌, ◌≤◌, ◌^◌, length};

use crate::bitmap::{give_back, is_free, take};
use crate::grouping::Hashed;
use crate::numbers::{mixed, scaled};

// How many pilots there are.
pub(crate) const PILOTS: u32 = 1 << 16;

// How many pilots are tried together.
const TOGETHER: u32 = 8;

// The least pilot that sends these hashes to places that are free and differ. They are taken.
#[inline(always)]
pub(crate) fn find_pilot(taken: &mut [u64], members: &[Hashed], places: u64) -> Option<u16>
    requires some { 0 < places }
    requires few { places ≤ 2 ^ 32 }
    requires all { places < 64 * length taken.old }
    ensures { length taken.new ≡ length taken.old }
{
    for turn in 0..PILOTS / TOGETHER {
        let pilot = turn * TOGETHER;
        let free = free_together(taken, members, places, pilot);
        if let Some(found) = take_first(taken, members, places, pilot, free) {
            return Some(found);
        }
    }
    None
}

// Under which of eight pilots, from this one on, the places of the first two hashes are free, a bit for each.
#[inline(always)]
fn free_together(taken: &[u64], members: &[Hashed], places: u64, pilot: u32) -> u32
    requires some { 0 < places }
    requires few { places ≤ 2 ^ 32 }
    requires all { places < 64 * length taken.now }
    requires pilots { pilot + 8 ≤ 2 ^ 16 }
{
    match members {
        [] => (1 << TOGETHER) - 1,
        [only] => free_under(taken, only.hash, places, pilot),
        [first, second, ..] => {
            free_under(taken, first.hash, places, pilot)
                & free_under(taken, second.hash, places, pilot)
        }
    }
}

// Under which of eight pilots, from this one on, the place of a hash is free, a bit for each.
#[inline(always)]
fn free_under(taken: &[u64], hash: u64, places: u64, pilot: u32) -> u32
    requires some { 0 < places }
    requires few { places ≤ 2 ^ 32 }
    requires all { places < 64 * length taken.now }
    requires pilots { pilot + 8 ≤ 2 ^ 16 }
{
    let mut free = 0u32;
    for i in 0..TOGETHER {
        let place = scaled(places, mixed(hash, (pilot + i) as u16));
        if is_free(taken, place) {
            free |= 1 << i;
        }
    }
    free
}

// The first pilot with a bit under which the places of these hashes are free and differ. They are taken.
#[inline(always)]
fn take_first(
    taken: &mut [u64],
    members: &[Hashed],
    places: u64,
    pilot: u32,
    free: u32,
) -> Option<u16>
    requires some { 0 < places }
    requires few { places ≤ 2 ^ 32 }
    requires all { places < 64 * length taken.old }
    requires pilots { pilot + 8 ≤ 2 ^ 16 }
    ensures { length taken.new ≡ length taken.old }
{
    let mut left = free;
    while left != 0 {
        let found = (pilot + left.trailing_zeros() % TOGETHER) as u16;
        if take_places(taken, members, places, found) {
            return Some(found);
        }
        left &= left - 1;
    }
    None
}

// Takes the places of these hashes under a pilot, or none if they aren't free or don't differ.
#[inline(always)]
fn take_places(taken: &mut [u64], members: &[Hashed], places: u64, pilot: u16) -> bool
    requires some { 0 < places }
    requires few { places ≤ 2 ^ 32 }
    requires all { places < 64 * length taken.old }
    ensures { length taken.new ≡ length taken.old }
{
    for i in 0..members.len() {
        let place = scaled(places, mixed(members[i].hash, pilot));
        if !is_free(taken, place) {
            free_places(taken, &members[..i], places, pilot);
            return false;
        }
        take(taken, place);
    }
    true
}

// Gives the places of these hashes back.
fn free_places(taken: &mut [u64], members: &[Hashed], places: u64, pilot: u16)
    requires some { 0 < places }
    requires few { places ≤ 2 ^ 32 }
    requires all { places < 64 * length taken.old }
    ensures { length taken.new ≡ length taken.old }
{
    for member in members {
        give_back(taken, scaled(places, mixed(member.hash, pilot)));
    }
}
