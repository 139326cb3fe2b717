//! Which slots a search gives, after places, removals and a clear.
ghost use Rattle.std.specs.Prelude.{◌≡◌, ◌<◌, ◌≤◌, [], List, length};
ghost use Rattle.intaglio_records.specs.Line.{Entry};
ghost use Rattle.intaglio_records.specs.Chains.{AreLines, HaveRoom, IsFilled, places_of};

use crate::tests::assertions::same;
use intaglio_records::Lines;
use std::process::Abort;

// Places the numbers below `count`, each under the hash that is so many times the number.
fn place_all(lines: &mut Lines, count: u32, times: u64)
    requires empty { IsFilled lines.old [] }
    requires room { count ≤ places_of lines.old }
    ensures placed { (es : List Entry) × IsFilled lines.new es × (length es ≡ count) }
    ensures room { places_of lines.new ≡ places_of lines.old }
{
    for number in 0..count {
        lines.place((number as u64).wrapping_mul(times), number);
    }
}

// How many slots a search by the hash gives, and their sum.
fn found(lines: &Lines, hash: u64) -> (u32, u64)
    requires { AreLines lines.now }
{
    let mut search = lines.find(hash);
    let mut count: u32 = 0;
    let mut sum: u64 = 0;
    for _i in 0..1000 {
        let Some(slot) = search.next() else {
            break;
        };
        count = count.wrapping_add(1);
        sum = sum.wrapping_add(slot as u64);
    }
    (count, sum)
}

// What a search gives after one more entry, which is then removed again.
fn found_with_one_more(lines: &mut Lines, hash: u64, slot: u32) -> (u32, u64)
    requires { HaveRoom lines.old }
    ensures { AreLines lines.new }
{
    lines.place(hash, slot);
    let between = found(lines, hash);
    lines.remove_newest(hash);
    between
}

// Asserts how many slots a search by the hash gives, and their sum.
fn gives(rt: &impl Abort, lines: &Lines, hash: u64, wanted: (u32, u64))
    requires { AreLines lines.now }
{
    same(rt, found(lines, hash), wanted);
}

#[test]
fn entries_are_found_under_their_hashes(rt: HostRuntime) {
    let mut lines = Lines::with_places(rt.alloc(), 100).expect(&rt, "lines");
    place_all(&mut lines, 100, 0x9E37_79B9_7F4A_7C15);
    gives(&rt, &lines, 0, (1, 0));
    gives(&rt, &lines, 0x9E37_79B9_7F4A_7C15, (1, 1));
}

// Places so many entries of one hash, and one that is removed again.
fn place_under_one_hash(rt: &impl Abort, mut lines: Lines, count: u32)
    requires empty { IsFilled lines [] }
    requires room { count < places_of lines }
{
    let sum = (count as u64).wrapping_mul((count as u64).wrapping_sub(1)) / 2;
    place_all(&mut lines, count, 0);
    gives(rt, &lines, 0, (count, sum));
    let more = (count.wrapping_add(1), sum.wrapping_add(100));
    same(rt, found_with_one_more(&mut lines, 0, 100), more);
    gives(rt, &lines, 0, (count, sum));
    // Of the same class, with another tag.
    gives(rt, &lines, 1 << 63, (0, 0));
    lines.clear();
    gives(rt, &lines, 0, (0, 0));
}

// 11 entries fill a first line, 22 that and an overflow line. The sum of the
// numbers below n is n * (n - 1) / 2.
#[test]
fn entries_of_one_hash_are_found_and_removed(rt: HostRuntime) {
    for count in 0..41 {
        let lines = Lines::with_places(rt.alloc(), 64).expect(&rt, "lines");
        place_under_one_hash(&rt, lines, count);
    }
}
