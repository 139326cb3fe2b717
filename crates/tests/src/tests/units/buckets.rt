//! Which symbols a bucket of an index contains, and in which order, after places,
//! rollbacks, shrinks and growth.
ghost use Rattle.std.specs.Prelude.{◌≡◌, ◌≤◌, length};

use crate::tests::assertions::same;
use intaglio::{Index, Symbol, Work};
use std::process::Abort;

// Asserts that a walk of the hash's bucket meets these symbols in this order, and no others.
fn meets(rt: &impl Abort, index: &Index, count: u32, hash: u64, wanted: &[u32])
    requires { count ≤ length index.now.hashes }
{
    let mut work = Work::new();
    let mut next = index.first(hash, &mut work);
    for number in wanted {
        let symbol = next.expect(rt, "a symbol is missing").0;
        assert!(rt; symbol.id() == *number && symbol.id() < count);
        next = index.after(symbol, &mut work);
    }
    assert!(rt; next.is_none());
}

// Asserts that a search for the hash finds these symbols in this order, and no others.
fn finds(rt: &impl Abort, index: &Index, count: u32, hash: u64, wanted: &[u32])
    requires { count ≤ length index.now.hashes }
{
    let mut work = Work::new();
    let mut next = index.find(hash, &mut work);
    for number in wanted {
        let symbol = next.expect(rt, "a symbol is missing");
        assert!(rt; symbol.id() == *number && symbol.id() < count);
        next = index.find_next(symbol, &mut work);
    }
    assert!(rt; next.is_none());
}

// A hash for each number, spread over the buckets.
fn spread(number: u32) -> u64 {
    (number as u64).wrapping_mul(0x9E37_79B9_7F4A_7C15) >> 7
}

// How many symbols are in the hash's bucket, and whether that of the number is one of them.
fn walk(rt: &impl Abort, index: &Index, count: u32, hash: u64, number: u32) -> (u32, bool)
    requires { count ≤ length index.now.hashes }
{
    let mut work = Work::new();
    let mut found = false;
    let mut next = index.first(hash, &mut work);
    for met in 0..count {
        let Some((symbol, _)) = next else {
            return (met, found);
        };
        assert!(rt; symbol.id() < count);
        found |= symbol.is(number);
        next = index.after(symbol, &mut work);
    }
    assert!(rt; next.is_none());
    (count, found)
}

// Asserts that each symbol is in its own bucket, and in no other one.
fn stands(rt: &impl Abort, index: &Index, count: u32)
    requires { count ≤ length index.now.hashes }
{
    for number in 0..count {
        let (_, found) = walk(rt, index, count, spread(number), number);
        assert!(rt; found, "symbol {number} of {count}");
    }
    let mut placed = 0u32;
    for bucket in 0..index.bucket_count() {
        let (met, _) = walk(rt, index, count, bucket as u64, 0);
        placed = placed.wrapping_add(met);
    }
    same(rt, placed, count);
}

// Makes room for more symbols, and places them.
fn grow<Rt: Abort>(rt: &Rt, index: &mut Index, from: u32, to: u32)
    requires from { length index.old.hashes ≡ from }
    requires more { from ≤ to }
    ensures { length index.new.hashes ≡ to }
{
    let mut work = Work::new();
    index
        .reserve(to as usize, &mut work)
        .expect(rt, "no memory");
    for number in from..to {
        index.place(spread(number), Symbol::new(number), &mut work);
    }
    stands(rt, index, to);
}

// A step on an index, or what is seen of it.
#[derive(Clone, Copy)]
enum Step {
    // Places the next symbols by these hashes.
    Place(&'static [u64]),
    // Leaves so many symbols.
    Cut(u32),
    Clear,
    // Makes as many buckets as symbols.
    Rebuild(u32),
    Reserve(usize),
    // Makes room for so many symbols, and places them.
    Grow(u32),
    // The buckets, and the room.
    Counts(usize, usize),
    // The symbols that a walk of the hash's bucket meets.
    Meets(u64, &'static [u32]),
    // Those that a search for the hash finds.
    Finds(u64, &'static [u32]),
}

// Makes the step on an index of so many symbols, and returns how many there are then.
fn make_step<Rt: Abort>(rt: &Rt, index: &mut Index, count: u32, step: Step) -> u32
    requires { length index.old.hashes ≡ count }
    ensures { length index.new.hashes ≡ result }
{
    match step {
        Step::Place(hashes) => place_all(rt, index, count, hashes),
        Step::Cut(left) => cut(rt, index, count, left),
        Step::Clear => {
            index.clear();
            0
        }
        Step::Grow(to) => {
            assert!(rt; count <= to);
            grow(rt, index, count, to);
            to
        }
        Step::Counts(buckets, room) => {
            same(rt, (index.bucket_count(), index.room()), (buckets, room));
            count
        }
        Step::Meets(hash, wanted) => {
            meets(rt, index, count, hash, wanted);
            count
        }
        Step::Finds(hash, wanted) => {
            finds(rt, index, count, hash, wanted);
            count
        }
        _ => {
            make_buckets(rt, index, count, step);
            count
        }
    }
}

fn place<Rt: Abort>(rt: &Rt, index: &mut Index, count: u32, hash: u64) -> u32
    requires { length index.old.hashes ≡ count }
    ensures { length index.new.hashes ≡ result }
{
    assert!(rt; (count as usize) < index.room());
    index.place(hash, Symbol::new(count), &mut Work::new());
    count.checked_add(1).expect(rt, "too many")
}

fn place_all<Rt: Abort>(rt: &Rt, index: &mut Index, count: u32, hashes: &[u64]) -> u32
    requires { length index.old.hashes ≡ count }
    ensures { length index.new.hashes ≡ result }
{
    let mut count = count;
    for hash in hashes {
        count = place(rt, index, count, *hash);
    }
    count
}

fn cut<Rt: Abort>(rt: &Rt, index: &mut Index, count: u32, left: u32) -> u32
    requires { length index.old.hashes ≡ count }
    ensures { length index.new.hashes ≡ result }
{
    assert!(rt; left <= count);
    index.cut(left as usize);
    left
}

// Makes a step that changes the buckets alone.
fn make_buckets<Rt: Abort>(rt: &Rt, index: &mut Index, count: u32, step: Step)
    requires { length index.old.hashes ≡ count }
    ensures { length index.new.hashes ≡ count }
{
    let mut work = Work::new();
    let made = match step {
        Step::Rebuild(buckets) => {
            assert!(rt; count <= buckets);
            index.rebuild(buckets as usize, &mut work)
        }
        Step::Reserve(count) => index.reserve(count, &mut work),
        _ => Ok(()),
    };
    made.expect(rt, "no memory");
}

fn plays<Rt: Abort>(rt: &Rt, index: &mut Index, steps: &[Step])
    requires { length index.old.hashes ≡ 0 }
{
    let mut count = 0;
    for step in steps {
        count = make_step(rt, index, count, *step);
    }
}

// Makes the steps on an index with so many buckets, for as many symbols.
fn plays_on<Rt: Abort + AllocGlobal>(rt: &Rt, buckets: usize, steps: &[Step]) {
    let mut index = Index::with_buckets(rt.alloc(), buckets).expect(rt, "no memory");
    plays(rt, &mut index, steps);
}

static ORDERED: [Step; 9] = [
    Step::Place(&[3, 8, 13, 18, 23]),
    Step::Meets(28, &[0, 1, 2, 3, 4]),
    Step::Clear,
    Step::Place(&[23, 18, 13, 8, 3]),
    Step::Meets(28, &[4, 3, 2, 1, 0]),
    Step::Clear,
    Step::Place(&[13, 3, 23, 8, 13]),
    Step::Meets(28, &[1, 3, 4, 0, 2]),
    Step::Meets(2, &[]),
];

#[test]
fn one_bucket_is_in_order(rt: HostRuntime) {
    plays_on(&rt, 5, &ORDERED);
}

static SEARCHED: [Step; 5] = [
    Step::Place(&[13, 3, 23, 8, 13]),
    Step::Finds(3, &[1]),
    Step::Finds(13, &[4, 0]),
    Step::Finds(23, &[2]),
    Step::Finds(18, &[]),
];

static SEARCHED_BY_MASK: [Step; 5] = [
    Step::Place(&[32, 16, 48, 16]),
    Step::Finds(16, &[3, 1]),
    Step::Finds(48, &[2]),
    Step::Finds(64, &[]),
    Step::Finds(17, &[]),
];

#[test]
fn a_search_finds_the_symbols_of_its_hash(rt: HostRuntime) {
    plays_on(&rt, 5, &SEARCHED);
    plays_on(&rt, 4, &SEARCHED_BY_MASK);
}

static CUT: [Step; 8] = [
    Step::Place(&[13, 3, 23, 8, 13]),
    Step::Cut(5),
    Step::Meets(3, &[1, 3, 4, 0, 2]),
    Step::Cut(3),
    Step::Meets(3, &[1, 0, 2]),
    Step::Cut(0),
    Step::Meets(3, &[]),
    Step::Counts(5, 5),
];

#[test]
fn a_cut_leaves_the_first_symbols(rt: HostRuntime) {
    plays_on(&rt, 5, &CUT);
}

static CLEARED: [Step; 6] = [
    Step::Place(&[13, 3, 23]),
    Step::Clear,
    Step::Meets(1, &[]),
    Step::Place(&[7, 4]),
    Step::Meets(1, &[1, 0]),
    Step::Meets(3, &[]),
];

#[test]
fn a_cleared_index_takes_symbols_again(rt: HostRuntime) {
    plays_on(&rt, 3, &CLEARED);
}

static SHRUNK: [Step; 7] = [
    Step::Place(&[13, 3, 23, 8, 14]),
    Step::Cut(3),
    Step::Rebuild(3),
    Step::Counts(3, 3),
    Step::Meets(0, &[1]),
    Step::Meets(1, &[0]),
    Step::Meets(2, &[2]),
];

#[test]
fn a_shrink_keeps_symbols(rt: HostRuntime) {
    plays_on(&rt, 5, &SHRUNK);
}

static RESERVED: [Step; 9] = [
    Step::Place(&[7, 4]),
    Step::Reserve(1),
    Step::Counts(6, 6),
    Step::Reserve(6),
    Step::Counts(6, 6),
    Step::Meets(1, &[0]),
    Step::Reserve(7),
    Step::Counts(7, 7),
    Step::Meets(0, &[0]),
];

#[test]
fn a_reservation_makes_buckets_only_if_there_are_fewer(rt: HostRuntime) {
    plays_on(&rt, 6, &RESERVED);
}

static GROWN: [Step; 9] = [
    Step::Counts(0, 0),
    Step::Meets(3, &[]),
    Step::Grow(4),
    Step::Grow(8),
    Step::Grow(16),
    Step::Grow(32),
    Step::Grow(64),
    Step::Grow(128),
    Step::Counts(128, 128),
];

#[test]
fn growth_keeps_symbols_in_their_buckets(rt: HostRuntime) {
    plays_on(&rt, 0, &GROWN);
}
