//! How many contents a search compares, and how often it hashes, if many hashes are equal or share a bucket.
use super::counting::{Counting, CountsComparisons};
use super::expected_writes::ExpectedWrites;
use crate::support::builders::{Counted, HasherCount};
use crate::support::kinds::Host;
use crate::tests::assertions::same;
use intaglio::{BaseInterner, Interner, Symbol, Table, Work};
use std::fmt::Write;

// Texts, many of which share a bucket, and what their searches do.
#[derive(Clone, Copy)]
struct Row<'a> {
    capacity: usize,
    // The texts to intern, separated by spaces.
    texts: &'a str,
    count: u32,
    // The most comparisons that interning one of them makes.
    most: usize,
    // Missing texts whose hash is that of a stored one, one per line: compared at most once with each.
    equal: &'a str,
    // Missing texts of other hashes, one per line: compared with none.
    other: &'a str,
    // How many hashers have been made by then, if they are counted.
    hashers: Option<usize>,
}

fn enters<C: CountsComparisons>(
    rt: &impl Host,
    table: &mut Table<C, impl HasherCount>,
    text: &str,
    wanted: u32,
    most: usize,
) {
    let content = C::of_text(rt.alloc(), text).expect(rt, "memory");
    let symbol = table.intern(content).expect(rt, "a symbol");
    let stored = table.content(symbol).expect(rt, "a content");
    same(rt, (symbol.id(), stored.compared() <= most), (wanted, true));
}

fn seeks<C: CountsComparisons>(
    rt: &impl Host,
    table: &Table<C, impl HasherCount>,
    text: &str,
    wanted: Option<Symbol>,
    most: usize,
) {
    let sought = C::of_text(rt.alloc(), text).expect(rt, "memory");
    let symbol = table.search_counted(&sought, &mut Work::new());
    same(rt, (symbol, sought.compared() <= most), (wanted, true));
}

// Interns the texts, which get the numbers from 0 on.
fn interns<C: CountsComparisons>(
    rt: &impl Host,
    table: &mut Table<C, impl HasherCount>,
    row: &Row,
) {
    for (text, number) in row.texts.split(' ').zip(0..row.count) {
        enters(rt, table, text, number, row.most);
    }
}

// Finds the texts, from the last to the first.
fn finds<C: CountsComparisons>(rt: &impl Host, table: &Table<C, impl HasherCount>, row: &Row) {
    for (text, number) in row.texts.rsplit(' ').zip((0..row.count).rev()) {
        let symbol = Symbol::new(number);
        seeks(rt, table, text, Some(symbol), row.count as usize);
    }
}

fn misses<C: CountsComparisons>(
    rt: &impl Host,
    table: &Table<C, impl HasherCount>,
    texts: &str,
    most: usize,
) {
    for text in texts.lines() {
        seeks(rt, table, text, None, most);
    }
}

fn tells_apart<C: CountsComparisons, S: HasherCount>(rt: &impl Host, builder: S, row: &Row) {
    let made = Table::<C, S>::with_capacity_and_hasher(rt.alloc(), row.capacity, builder);
    let mut table = made.expect(rt, "a table");
    interns(rt, &mut table, row);
    misses(rt, &table, row.equal, row.count as usize);
    misses(rt, &table, row.other, 0);
    same(rt, table.hasher().made(), row.hashers);
    finds(rt, &table, row);
}

#[test]
fn equal_hashes_alone_are_compared(rt: HostRuntime) {
    // The hash of each text, or none, the capacity, the texts, their count, the most comparisons that interning one
    // makes, missing texts of equal hashes and of others, and how many hashers have been made by then.
    let rows = [
        (Some(7), 4096, "e0 e1 e2 e3 e4", 5, 4, "zz", "", 6),
        (None, 8, "a b i", 3, 0, "", "q", 4),
        (None, 8, "a i q y", 4, 0, "", "b", 5),
        (None, 8, "aa ab ac", 3, 2, "ad", "i\nY", 6),
    ];
    for (hash, capacity, texts, count, most, equal, other, hashers) in rows {
        let row = Row {
            capacity,
            texts,
            count,
            most,
            equal,
            other,
            hashers: Some(hashers),
        };
        tells_apart::<Counting, _>(&rt, Counted::new(hash), &row);
    }
}

#[test]
fn a_text_feeds_its_bytes_and_an_end(rt: HostRuntime) {
    let row = Row {
        capacity: 1,
        texts: "abc xyz",
        count: 2,
        most: 0,
        equal: "ab",
        other: "",
        hashers: None,
    };
    let builder = ExpectedWrites::of(&[b"abc", b"\xff"]);
    tells_apart::<Counting, _>(&rt, builder, &row);
}

// `./intaglio test` makes 200 of these.
const MANY: u32 = 2000;

// Interns the decimal texts of the numbers below two thousand, and finds them.
fn tells_two_thousand_apart(rt: &impl Host, hash: Option<u64>) {
    let mut texts = "0".to_string(rt.alloc()).expect(rt, "memory");
    for number in 1..MANY {
        write!(texts, " {number}").expect(rt, "memory");
    }
    let row = Row {
        capacity: 0,
        texts: texts.as_str(),
        count: MANY,
        most: MANY as usize - 1,
        equal: "2000",
        other: "",
        hashers: Some(MANY as usize + 1),
    };
    tells_apart::<Counting, _>(rt, Counted::new(hash), &row);
}

#[test]
fn two_thousand_equal_hashes_are_told_apart(rt: HostRuntime) {
    tells_two_thousand_apart(&rt, Some(7));
}

#[test]
fn two_thousand_first_bytes_are_told_apart(rt: HostRuntime) {
    tells_two_thousand_apart(&rt, None);
}
