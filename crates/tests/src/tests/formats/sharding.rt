//! What `split_with_map` and `Shards` do with strings of a list: each is in its shard,
//! and is found at its number in all.
use super::words::words_of;
use crate::support::kinds::Host;
use crate::tests::assertions::{holds, same};
use intaglio_core::Symbol;
use intaglio_frozen::{
    Frozen, FrozenKind, Shards, ShardsError, StringList, freeze, shard_of, split_with_map,
};

const COUNT: u32 = 3;

// The numbers below 50.
const NUMBERS: &str = "
    0 1 2 3 4 5 6 7 8 9 10 11 12 13 14 15 16 17 18 19 20 21 22 23 24 25 26 27
    28 29 30 31 32 33 34 35 36 37 38 39 40 41 42 43 44 45 46 47 48 49
";

// The frozen tables of the shards of a list.
fn frozen_shards<L: StringList>(rt: &impl Host, list: &L) -> Vec<Vec<u8>> {
    let mut blocks = Vec::new(rt.alloc());
    assert!(rt; list.len() == 50);
    let (shards, _map) = split_with_map(rt.alloc(), list, COUNT).expect(rt, "memory");
    for shard in shards {
        let block = freeze(rt.alloc(), &shard, FrozenKind::Bytes, 1, 2).expect(
            rt,
            "a frozen table",
        );
        blocks.push(block).expect(rt, "memory");
    }
    blocks
}

// Tables of these blocks, without the first ones.
fn tables_from<'a>(rt: &impl Host, blocks: &'a [Vec<u8>], first: usize) -> Vec<Frozen<'a>> {
    let mut tables = Vec::new(rt.alloc());
    for block in blocks.iter().skip(first) {
        let table = Frozen::open(block).expect(rt, "a frozen table");
        tables.push(table).expect(rt, "memory");
    }
    tables
}

#[test]
fn strings_are_found_in_their_shards(rt: HostRuntime) {
    let list = words_of(&rt, NUMBERS);
    let blocks = frozen_shards(&rt, &list);
    let shards = Shards::open(rt.alloc(), tables_from(&rt, &blocks, 0)).expect(&rt, "shards");
    same(&rt, shards.count(), 3);
    same(&rt, shards.len(), 50);
    finds_each(&rt, &shards, &list);
    same(&rt, shards.check_interned(b"50"), None);
    same(&rt, shards.get(Symbol::new(50)), None);
}

// Asserts that each string of a list is found.
fn finds_each<L: StringList>(rt: &impl Host, shards: &Shards<'_>, list: &L) {
    for i in 0..list.len() {
        let symbol = shards.check_interned(list.string(i)).expect(rt, "a symbol");
        same(rt, shards.get(symbol), Some(list.string(i)));
    }
}

#[test]
fn the_map_of_a_split_leads_to_the_strings(rt: HostRuntime) {
    let list = words_of(&rt, NUMBERS);
    let blocks = frozen_shards(&rt, &list);
    let shards = Shards::open(rt.alloc(), tables_from(&rt, &blocks, 0)).expect(&rt, "shards");
    leads_to_each(&rt, &shards, &list);
}

// Asserts that the map leads to each of the 50 strings of a list.
fn leads_to_each<L: StringList>(rt: &impl Host, shards: &Shards<'_>, list: &L) {
    assert!(rt; list.len() == 50);
    let (_shards, map) = split_with_map(rt.alloc(), list, COUNT).expect(rt, "memory");
    same(rt, map.len(), 50);
    for i in 0..list.len() {
        let symbol = map.get(i).copied().expect(rt, "a symbol");
        same(rt, shards.get(symbol), Some(list.string(i)));
    }
    begins_as_elsewhere(rt, &map);
}

// Asserts which symbols come first. These were computed by another program.
fn begins_as_elsewhere(rt: &impl Host, map: &[Symbol]) {
    for (place, number) in [28, 29, 0, 15, 30, 1, 2, 3, 31, 4].iter().enumerate() {
        same(rt, map.get(place).copied(), Some(Symbol::new(*number)));
    }
}

#[test]
fn a_batch_of_strings_is_found_in_its_shards(rt: HostRuntime) {
    let list = words_of(&rt, NUMBERS);
    let blocks = frozen_shards(&rt, &list);
    let shards = Shards::open(rt.alloc(), tables_from(&rt, &blocks, 0)).expect(&rt, "shards");
    let batch: [&[u8]; 5] = [b"0", b"50", b"3", b"2", b"0"];
    let found = shards.check_all(rt.alloc(), &batch).expect(&rt, "memory");
    let numbers = [Some(28), None, Some(15), Some(0), Some(28)];
    same(&rt, found.len(), 5);
    for (symbol, number) in found.iter().zip(numbers.iter()) {
        same(&rt, *symbol, number.map(|it| Symbol::new(it)));
    }
}

#[test]
fn tables_in_another_order_are_no_shards(rt: HostRuntime) {
    let list = words_of(&rt, NUMBERS);
    let blocks = frozen_shards(&rt, &list);
    let refused = Shards::open(rt.alloc(), tables_from(&rt, &blocks, 1)).err();
    holds(&rt, matches!(refused, Some(ShardsError::Misplaced(_, _))));
    let refused = Shards::open(rt.alloc(), tables_from(&rt, &blocks, 3)).err();
    holds(&rt, matches!(refused, Some(ShardsError::Empty)));
}

#[test]
fn the_shard_of_a_string_is_that_of_every_version(rt: HostRuntime) {
    same(&rt, shard_of(b"", 1000), 881);
    same(&rt, shard_of(b"a", 1000), 812);
    same(&rt, shard_of(b"rose", 1000), 861);
    same(&rt, shard_of(b"lily", 1000), 16);
}
