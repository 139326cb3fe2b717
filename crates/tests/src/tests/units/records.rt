//! Records of strings and their index: what a search by a hash finds, after strings were added and dropped.
ghost use Rattle.std.specs.Prelude.{ℕ, ◌^◌, ◌<◌, List, length};
ghost use Rattle.intaglio_records.specs.Index.{IsOver, made_for};
ghost use Rattle.intaglio_records.specs.Records.{record_room_of};

use crate::tests::assertions::{holds, same};
use intaglio_records::{RecordIndex, StringRecords};
use std::alloc::Global;
use std::process::Abort;

// Makes the index long.
fn lengthen(rt: &impl Abort, records: &StringRecords, index: &mut RecordIndex)
    requires { (room : ℕ) × IsOver records.now.list room index.old }
    ensures { IsOver records.now.list (record_room_of records.now) index.new }
{
    index.lengthen(records).expect(rt, "memory");
}

// Makes the index long if the records have more room than four bytes reach.
fn follow(rt: &impl Abort, records: &StringRecords, index: &mut RecordIndex)
    requires { (room : ℕ) × IsOver records.now.list room index.old }
    ensures { IsOver records.now.list (record_room_of records.now) index.new }
{
    if records.is_short() {
        return;
    }
    lengthen(rt, records, index);
}

// Makes the index anew if it has no place for one more string.
fn make_place(rt: &impl Abort, records: &StringRecords, index: &mut RecordIndex)
    requires over { IsOver records.now.list (record_room_of records.now) index.old }
    requires room { length records.now.list < records.now.most }
    requires few { records.now.most < 2 ^ 32 }
    ensures over { IsOver records.now.list (record_room_of records.now) index.new }
    ensures free { length records.now.list < made_for index.new }
{
    if records.len() < index.places() {
        return;
    }
    *index = RecordIndex::over(records, records.capacity()).expect(rt, "memory");
}

fn add(
    rt: &impl Abort,
    records: &mut StringRecords,
    index: &mut RecordIndex,
    hash: u64,
    string: &[u8],
)
    requires { IsOver records.old.list (record_room_of records.old) index.old }
    ensures { IsOver records.new.list (record_room_of records.new) index.new }
{
    records.reserve_strings(1).expect(rt, "memory");
    records.reserve_bytes(string.len()).expect(rt, "memory");
    assert!(rt; records.capacity() < 1 << 32);
    follow(rt, records, index);
    make_place(rt, records, index);
    index.place(records, hash);
    records.push_hashed(hash, string);
}

// An index with a place for each string that is there.
fn over(rt: &impl Abort, records: &StringRecords) -> RecordIndex
    ensures { IsOver records.now.list (record_room_of records.now) result }
{
    assert!(rt; records.len() < 1 << 32);
    RecordIndex::over(records, records.len()).expect(rt, "memory")
}

fn clear(records: &mut StringRecords, index: &mut RecordIndex)
    requires { IsOver records.old.list (record_room_of records.old) index.old }
    ensures { IsOver records.new.list (record_room_of records.new) index.new }
{
    index.clear();
    records.clear();
}

// Keeps the first strings.
fn keep(records: &mut StringRecords, index: &mut RecordIndex, count: usize)
    requires { IsOver records.old.list (record_room_of records.old) index.old }
    ensures { IsOver records.new.list (record_room_of records.new) index.new }
{
    index.truncate(records, count);
    records.truncate(count);
}

// Adds each string under its hash.
fn add_all(
    rt: &impl Abort,
    records: &mut StringRecords,
    index: &mut RecordIndex,
    strings: &[(u64, &'static [u8])],
)
    requires { IsOver records.old.list (record_room_of records.old) index.old }
    ensures { IsOver records.new.list (record_room_of records.new) index.new }
{
    for (hash, string) in strings {
        add(rt, records, index, *hash, string);
    }
}

// Adds numbers under one hash. 11 entries fill a line, so many of them take several.
fn add_numbers(rt: &impl Abort, records: &mut StringRecords, index: &mut RecordIndex, count: u32)
    requires { IsOver records.old.list (record_room_of records.old) index.old }
    ensures { IsOver records.new.list (record_room_of records.new) index.new }
{
    for number in 0..count {
        add(rt, records, index, 5, &number.to_le_bytes());
    }
}

static ZEROS: [u8; 260] = [0; 260];

// Adds long strings. A record says lengths up to 254.
fn add_long(
    rt: &impl Abort,
    records: &mut StringRecords,
    index: &mut RecordIndex,
    zeros: &[u8; 260],
)
    requires { IsOver records.old.list (record_room_of records.old) index.old }
    ensures { IsOver records.new.list (record_room_of records.new) index.new }
{
    for length in 250..260 {
        add(rt, records, index, 1, &zeros[..length]);
    }
}

// A string, its hash, and its number, if it is there.
type Wanted = (u64, &'static [u8], Option<u32>);

// The number of a string, if it was added with this hash.
fn number_of(records: &StringRecords, index: &RecordIndex, hash: u64, string: &[u8]) -> Option<u32>
    requires { IsOver records.now.list (record_room_of records.now) index.now }
{
    let mut matches = index.matches(records, hash);
    while let Some(found) = matches.next() {
        if found.1 == string {
            return Some(found.0);
        }
    }
    None
}

// Asserts which number each string has under its hash.
fn finds(rt: &impl Abort, records: &StringRecords, index: &RecordIndex, wanted: &[Wanted])
    requires { IsOver records.now.list (record_room_of records.now) index.now }
{
    for (hash, string, number) in wanted {
        same(rt, number_of(records, index, *hash, string), *number);
    }
}

// Asserts that each of the long strings is found, and has its number.
fn finds_long(rt: &impl Abort, records: &StringRecords, index: &RecordIndex, zeros: &[u8; 260])
    requires { IsOver records.now.list (record_room_of records.now) index.now }
{
    let mut number = 0;
    for length in 250..260 {
        let found = number_of(records, index, 1, &zeros[..length]);
        same(rt, found, Some(number));
        same(rt, records.get(number as usize), Some(&zeros[..length]));
        number = number.wrapping_add(1);
    }
    same(rt, number_of(records, index, 1, &zeros[..249]), None);
}

// Asserts which strings a search gives, with their numbers.
fn gives(
    rt: &impl Abort,
    records: &StringRecords,
    index: &RecordIndex,
    hash: u64,
    wanted: &[(u32, &'static [u8])],
)
    requires { IsOver records.now.list (record_room_of records.now) index.now }
{
    let mut matches = index.matches(records, hash);
    for given in wanted {
        same(rt, matches.next(), Some(*given));
    }
    same(rt, matches.next(), None);
    same(rt, matches.next(), None);
}

// For how many strings there is room, and how many bytes are spare and held.
fn room(records: &StringRecords) -> (usize, usize, usize) {
    (
        records.capacity(),
        records.spare_bytes(),
        records.held_bytes(),
    )
}

// A step on records and their index, or what is seen of them.
#[derive(Clone, Copy)]
enum Step {
    // Adds each string under its hash.
    Add(&'static [(u64, &'static [u8])]),
    AddNumbers(u32),
    AddLong,
    // Keeps the first strings.
    Keep(usize),
    Clear,
    // Shrinks the records to this many strings.
    Shrink(usize),
    // Makes the index anew, with a place for each string.
    Anew,
    Lengthen,
    // How many strings and bytes of them there are, and for how many strings the index has places.
    Counts(usize, usize, usize),
    // For how many strings there is room, and how many bytes are spare and held.
    Room(usize, usize, usize),
    // The string of a number.
    Get(usize, Option<&'static [u8]>),
    Finds(&'static [Wanted]),
    FindsLong,
    // The strings of a hash, with their numbers.
    Gives(u64, &'static [(u32, &'static [u8])]),
    // The byte that a touch for a hash reads.
    Touches(u64, u8),
}

// Makes a step that changes the records or their index.
fn change(rt: &impl Abort, records: &mut StringRecords, index: &mut RecordIndex, step: Step)
    requires { IsOver records.old.list (record_room_of records.old) index.old }
    ensures { IsOver records.new.list (record_room_of records.new) index.new }
{
    match step {
        Step::Add(strings) => add_all(rt, records, index, strings),
        Step::AddNumbers(count) => add_numbers(rt, records, index, count),
        Step::AddLong => add_long(rt, records, index, &ZEROS),
        Step::Keep(count) => keep(records, index, count),
        Step::Clear => clear(records, index),
        Step::Shrink(count) => shrink(rt, records, index, count),
        Step::Anew => *index = over(rt, records),
        Step::Lengthen => lengthen(rt, records, index),
        _ => {}
    }
}

fn shrink(rt: &impl Abort, records: &mut StringRecords, index: &RecordIndex, count: usize)
    requires { IsOver records.old.list (record_room_of records.old) index.now }
    ensures { IsOver records.new.list (record_room_of records.new) index.now }
{
    same(rt, records.shrink_to(count), Ok(()));
}

// Asserts what a step says that is seen.
fn see(rt: &impl Abort, records: &StringRecords, index: &RecordIndex, step: Step)
    requires { IsOver records.now.list (record_room_of records.now) index.now }
{
    match step {
        Step::Counts(strings, bytes, places) => {
            let counts = (records.len(), records.byte_count(), index.places());
            same(rt, counts, (strings, bytes, places));
        }
        Step::Room(strings, spare, held) => same(rt, room(records), (strings, spare, held)),
        Step::Get(number, string) => same(rt, records.get(number), string),
        Step::Finds(wanted) => finds(rt, records, index, wanted),
        Step::FindsLong => finds_long(rt, records, index, &ZEROS),
        Step::Gives(hash, wanted) => gives(rt, records, index, hash, wanted),
        Step::Touches(hash, byte) => same(rt, index.touch(records, hash), byte),
        _ => {}
    }
}

// Makes the steps on records with this room for strings and for bytes.
fn plays(rt: &impl Abort, mut records: StringRecords, steps: &[Step]) {
    let mut index = over(rt, &records);
    for step in steps {
        change(rt, &mut records, &mut index, *step);
        see(rt, &records, &index, *step);
    }
}

static THREE: [Step; 5] = [
    Step::Add(&[(7, b"one"), (7, b"two"), (7 + (1 << 60), b"one")]),
    Step::Counts(3, 9, 4),
    Step::Get(1, Some(b"two")),
    Step::Get(3, None),
    Step::Finds(&[
        (7, b"one", Some(0)),
        (7, b"two", Some(1)),
        (7 + (1 << 60), b"one", Some(2)),
        (7, b"three", None),
        (8, b"one", None),
    ]),
];

#[test]
fn records_are_found_by_hash_and_string(rt: HostRuntime) {
    plays(&rt, StringRecords::new(rt.alloc()), &THREE);
}

static TWO_OF_A_HASH: [Step; 2] = [
    Step::Add(&[(7, b"one"), (6, b"two"), (7, b"")]),
    Step::Gives(7, &[(0, b"one"), (2, b"")]),
];

#[test]
fn a_search_gives_each_string_of_a_hash(rt: HostRuntime) {
    plays(&rt, StringRecords::new(rt.alloc()), &TWO_OF_A_HASH);
}

static TOUCHED: [Step; 4] = [
    Step::Add(&[(6, b"one"), (7 + (2 << 56), b"two")]),
    Step::Touches(6, 6),
    Step::Touches(7 + (2 << 56), 7),
    Step::Touches(3 << 56, 0),
];

// A record begins with its hash.
#[test]
fn a_touch_reads_the_record_of_a_hash(rt: HostRuntime) {
    plays(&rt, StringRecords::new(rt.alloc()), &TOUCHED);
}

// 20 numbers of four bytes take 13 bytes more each.
static DROPPED: [Step; 10] = [
    Step::AddNumbers(41),
    Step::Finds(&[(5, b"\x28\0\0\0", Some(40))]),
    Step::Keep(20),
    Step::Finds(&[(5, b"\x14\0\0\0", None), (5, b"\x13\0\0\0", Some(19))]),
    Step::Shrink(2),
    Step::Finds(&[(5, b"\x13\0\0\0", Some(19))]),
    Step::Room(20, 0, 340),
    Step::Anew,
    Step::Counts(20, 80, 20),
    Step::Finds(&[(5, b"\x14\0\0\0", None), (5, b"\x13\0\0\0", Some(19))]),
];

#[test]
fn dropped_strings_are_not_found(rt: HostRuntime) {
    let records = StringRecords::with_capacity(rt.alloc(), 3, 10).expect(&rt, "memory");
    plays(&rt, records, &DROPPED);
}

static CLEARED: [Step; 5] = [
    Step::AddNumbers(41),
    Step::Counts(41, 164, 64),
    Step::Clear,
    Step::Finds(&[(5, b"\x13\0\0\0", None)]),
    Step::Counts(0, 0, 64),
];

#[test]
fn cleared_records_are_not_found(rt: HostRuntime) {
    plays(&rt, StringRecords::new(rt.alloc()), &CLEARED);
}

static LONG_STRINGS: [Step; 4] = [
    Step::AddLong,
    Step::FindsLong,
    Step::Lengthen,
    Step::FindsLong,
];

#[test]
fn long_strings_are_found(rt: HostRuntime) {
    plays(&rt, StringRecords::new(rt.alloc()), &LONG_STRINGS);
}

static LENGTHENED: [Step; 11] = [
    Step::Lengthen,
    Step::Finds(&[(7, b"one", None)]),
    Step::Add(&[(7, b"one"), (6 + (2 << 56), b"two")]),
    Step::Lengthen,
    Step::Lengthen,
    Step::Counts(2, 6, 4),
    Step::Add(&[(7, b"")]),
    Step::Finds(&[(6 + (2 << 56), b"two", Some(1)), (7, b"two", None)]),
    Step::Touches(6 + (2 << 56), 6),
    Step::Touches(3 << 56, 0),
    Step::Gives(7, &[(0, b"one"), (2, b"")]),
];

#[test]
fn a_long_index_finds_what_a_short_one_does(rt: HostRuntime) {
    plays(&rt, StringRecords::new(rt.alloc()), &LENGTHENED);
}

// All hashes are equal, so the strings take several lines.
static CHANGED: [Step; 14] = [
    Step::AddNumbers(30),
    Step::Lengthen,
    Step::AddNumbers(41),
    Step::Finds(&[(5, b"\x28\0\0\0", Some(70))]),
    Step::Keep(20),
    Step::Finds(&[(5, b"\x14\0\0\0", None), (5, b"\x13\0\0\0", Some(19))]),
    Step::AddNumbers(1),
    Step::Anew,
    Step::Counts(21, 84, 21),
    Step::Finds(&[(5, b"\x13\0\0\0", Some(19))]),
    Step::Lengthen,
    Step::Clear,
    Step::Finds(&[(5, b"\x13\0\0\0", None)]),
    Step::Counts(0, 0, 21),
];

#[test]
fn a_long_index_changes_with_its_records(rt: HostRuntime) {
    let records = StringRecords::with_capacity(rt.alloc(), 100, 400).expect(&rt, "memory");
    plays(&rt, records, &CHANGED);
}

// Records with room for 3 strings and 10 bytes, of one string.
fn of_one(rt: &impl Abort, alloc: Global) -> StringRecords {
    let mut records = StringRecords::with_capacity(alloc, 3, 10).expect(rt, "memory");
    same(rt, room(&records), (3, 10, 49));
    records.push_hashed(1, b"one");
    records
}

// The room after reservations for so many strings and bytes: with the 13 bytes in front of each of 3 strings,
// and of 6.
static GROWN: [(usize, usize, (usize, usize, usize)); 4] = [
    (2, 0, (3, 7, 49)),
    (3, 0, (6, 7, 88)),
    (0, 7, (6, 7, 88)),
    (0, 8, (6, 17, 98)),
];

#[test]
fn room_for_strings_and_for_their_bytes_grow_apart(rt: HostRuntime) {
    let mut records = of_one(&rt, rt.alloc());
    for (strings, bytes, wanted) in GROWN {
        same(&rt, records.reserve_strings(strings), Ok(()));
        same(&rt, records.reserve_bytes(bytes), Ok(()));
        same(&rt, room(&records), wanted);
    }
}

// Whether reservations for so many strings, and for so many bytes, fail.
fn refuses(records: &mut StringRecords, strings: usize, bytes: usize) -> bool {
    records.reserve_strings(strings).is_err() && records.reserve_bytes(bytes).is_err()
}

#[test]
fn room_that_no_number_counts_is_refused(rt: HostRuntime) {
    let mut records = of_one(&rt, rt.alloc());
    holds(&rt, refuses(&mut records, usize::MAX, usize::MAX));
    holds(&rt, refuses(&mut records, usize::MAX / 13, usize::MAX - 49));
    same(&rt, room(&records), (3, 7, 49));
    let made = StringRecords::with_capacity(rt.alloc(), usize::MAX, 0);
    holds(&rt, made.is_err());
}

// With 13 bytes in front of each string, 330,382,098 strings and 10 bytes of them take at most 2^32 - 1 bytes.
static SHORT: [(usize, bool); 4] = [
    (3, true),
    (330_382_098, true),
    (330_382_099, false),
    (usize::MAX, false),
];

#[test]
fn records_stay_short_within_four_bytes(rt: HostRuntime) {
    let records = StringRecords::with_capacity(rt.alloc(), 3, 10).expect(&rt, "memory");
    holds(&rt, records.is_short());
    for (count, is_short) in SHORT {
        same(&rt, records.stays_short(count), is_short);
    }
}

#[test]
fn spare_bytes_are_given_back(rt: HostRuntime) {
    let mut records = of_one(&rt, rt.alloc());
    same(&rt, records.reserve_bytes(100), Ok(()));
    for (spare, wanted) in [(100, 100), (7, 7), (8, 7)] {
        records.shrink_spare(spare);
        same(&rt, records.spare_bytes(), wanted);
    }
    same(&rt, records.capacity(), 3);
    same(&rt, records.get(0), Some(b"one".as_slice()));
}
