//! Frozen tables: what their iterators yield, and what is found in trusted bytes, also in damaged ones.
use crate::support::kinds::Host;
use crate::tests::assertions::{copy_of, holds, same};
use intaglio::packed::bytes::SymbolTable;
use intaglio::packed::{Packed, PackedForm};
use intaglio::{Symbol, TableOver};
use intaglio_frozen::{
    DictionaryId, Frozen, FrozenError, FrozenKind, Header, Place, SetId, StringList, TrustedFrozen,
    freeze, freeze_at,
};
use intaglio_hash::FixedState;
use std::hash::BuildHasher;
use std::process::Abort;

// The table of `abc`, the empty string and `xy` under the keys 1 and 2, as
// `checks/formats.py` writes it.
const TABLE: [u8; 174] = [
    73, 78, 84, 65, 71, 76, 73, 79, 2, 0, 0, 0, 0, 0, 0, 0, 1, 0, 0, 0, 0, 0, 0, 0, 2, 0, 0, 0, 0,
    0, 0, 0, 3, 0, 0, 0, 0, 0, 0, 0, 5, 0, 0, 0, 0, 0, 0, 0, 248, 104, 127, 193, 74, 28, 227, 176,
    246, 76, 199, 177, 197, 138, 104, 50, 248, 104, 127, 193, 74, 28, 227, 176, 246, 76, 199, 177,
    197, 138, 104, 50, 1, 0, 0, 0, 0, 0, 0, 0, 0, 0, 0, 0, 0, 0, 0, 0, 0, 0, 0, 0, 0, 0, 0, 0, 0,
    0, 0, 0, 0, 0, 0, 0, 0, 0, 0, 0, 0, 0, 0, 0, 0, 0, 0, 0, 0, 0, 0, 0, 0, 0, 0, 0, 2, 0, 0, 0, 1,
    0, 0, 0, 255, 255, 255, 255, 255, 255, 255, 255, 3, 0, 0, 0, 3, 0, 0, 0, 5, 0, 0, 0, 1, 0, 0,
    0, 26, 25, 160, 0, 0, 97, 98, 99, 120, 121,
];
// Where the end of the first string is.
const FIRST_END: usize = 148;
// Where a byte of the identity is.
const IDENTITY: usize = 50;

fn trusted<'a>(rt: &impl Abort, bytes: &'a [u8]) -> TrustedFrozen<'a> {
    TrustedFrozen::open(bytes).expect(rt, "no table")
}

#[test]
fn a_frozen_table_yields_its_strings(rt: HostRuntime) {
    let table = Frozen::open(&TABLE).expect(&rt, "no table");
    let mut strings = table.strings();
    same(&rt, strings.size_hint(), (3, Some(3)));
    same(&rt, strings.next(), Some(b"abc".as_slice()));
    let mut copy = copy_of(&rt, &strings);
    same(&rt, strings.next(), Some(b"".as_slice()));
    same(&rt, strings.next(), Some(b"xy".as_slice()));
    same(&rt, strings.size_hint(), (0, Some(0)));
    same(&rt, strings.next(), None);
    same(&rt, copy.next(), Some(b"".as_slice()));
}

#[test]
fn the_same_strings_are_frozen_to_the_same_bytes(rt: HostRuntime) {
    let strings = [b"abc".as_slice(), b"".as_slice(), b"xy".as_slice()];
    freezes(&rt, &strings.as_slice());
    freezes(&rt, &strings.as_slice());
    let table = Frozen::open(&TABLE).expect(&rt, "no table");
    freezes(&rt, &table);
}

// Asserts that a list is frozen to the bytes of the table.
fn freezes<L: StringList>(rt: &impl Host, list: &L) {
    let bytes = freeze(rt.alloc(), list, FrozenKind::Bytes, 1, 2).expect(rt, "not frozen");
    same(rt, bytes.as_slice(), TABLE.as_slice());
}

#[test]
fn a_frozen_table_yields_its_symbols_with_their_strings(rt: HostRuntime) {
    let table = Frozen::open(&TABLE).expect(&rt, "no table");
    let mut pairs = table.iter();
    same(&rt, pairs.size_hint(), (3, Some(3)));
    assert_eq!(&rt; pairs.next(), Some((Symbol::new(0), b"abc".as_slice())));
    let mut copy = copy_of(&rt, &pairs);
    assert_eq!(&rt; copy.next(), Some((Symbol::new(1), b"".as_slice())));
    same(&rt, pairs.size_hint(), (2, Some(2)));
    finds_each(&rt, &table);
}

// Asserts that each pair is found by its symbol and by its string.
fn finds_each(rt: &impl Abort, table: &Frozen<'_>) {
    for (symbol, string) in table {
        same(rt, table.get(symbol), Some(string));
        same(rt, table.check_interned(string), Some(symbol));
    }
}

#[test]
fn a_batch_is_looked_up_in_a_frozen_table(rt: HostRuntime) {
    let table = Frozen::open(&TABLE).expect(&rt, "no table");
    let strings = [b"xy".as_slice(), b"x".as_slice(), b"".as_slice()];
    let found = table.check_all(rt.alloc(), &strings).expect(&rt, "memory");
    let symbols = [Some(Symbol::new(2)), None, Some(Symbol::new(1))];
    same(&rt, found.as_slice(), symbols.as_slice());
    holds(&rt, table.is_interned(b"xy"));
    holds(&rt, !table.is_interned(b"x"));
}

#[test]
fn a_frozen_table_is_thawed(rt: HostRuntime) {
    let frozen = Frozen::open(&TABLE).expect(&rt, "no table");
    let mut thawed: SymbolTable = frozen.thaw(rt.alloc(), FixedState).expect(&rt, "memory");
    gets_each(&rt, &thawed, &frozen);
    interns(&rt, &mut thawed, b"xy", 2);
    interns(&rt, &mut thawed, b"new", 3);
}

// Asserts that a table has the three strings of a frozen one under their symbols.
fn gets_each<'a, K: PackedForm<'a, Form = &'a [u8]>, S: BuildHasher>(
    rt: &impl Abort,
    table: &'a TableOver<Packed<K>, S>,
    frozen: &Frozen<'_>,
) {
    same(rt, table.len(), 3);
    for (symbol, string) in frozen {
        same(rt, table.get(symbol), Some(string));
    }
}

// Asserts which symbol a form gets.
fn interns<'q, K: PackedForm<'q>, S: BuildHasher>(
    rt: &impl Abort,
    table: &mut TableOver<Packed<K>, S>,
    form: K::Form,
    number: u32,
) {
    same(rt, table.get_or_intern(form), Ok(Symbol::new(number)));
}

// Asserts which strings the first symbols have.
fn gets(rt: &impl Abort, table: &TrustedFrozen<'_>, wanted: &[Option<&'static [u8]>]) {
    for (number, string) in (0..u32::MAX).zip(wanted.iter()) {
        same(rt, table.get(Symbol::new(number)), *string);
    }
}

// Asserts by which symbols strings are found.
fn finds(rt: &impl Abort, table: &TrustedFrozen<'_>, wanted: &[(&'static [u8], Option<u32>)]) {
    for (string, number) in wanted {
        let found = table.check_interned(string);
        same(rt, found.map(|symbol| symbol.id()), *number);
    }
}

static STRINGS: [Option<&[u8]>; 4] = [Some(b"abc"), Some(b""), Some(b"xy"), None];

static SYMBOLS: [(&[u8], Option<u32>); 4] = [
    (b"abc", Some(0)),
    (b"", Some(1)),
    (b"xy", Some(2)),
    (b"x", None),
];

#[test]
fn trusted_bytes_are_looked_up(rt: HostRuntime) {
    let table = trusted(&rt, &TABLE);
    same(&rt, table.len(), 3);
    gets(&rt, &table, &STRINGS);
    finds(&rt, &table, &SYMBOLS);
}

static STRINGS_LEFT: [Option<&[u8]>; 3] = [None, None, Some(b"xy")];

static SYMBOLS_LEFT: [(&[u8], Option<u32>); 3] = [(b"abc", None), (b"", None), (b"xy", Some(2))];

#[test]
fn trusted_bytes_with_wrong_ends_are_read_within_the_text(rt: HostRuntime) {
    let mut bytes = TABLE;
    bytes[FIRST_END] = 9;
    same(&rt, Frozen::open(&bytes).err(), Some(FrozenError::Ends));
    let table = trusted(&rt, &bytes);
    gets(&rt, &table, &STRINGS_LEFT);
    finds(&rt, &table, &SYMBOLS_LEFT);
}

// The fault of the first bytes of the table, if they are trusted.
fn trusted_fault(count: usize) -> Option<FrozenError> {
    TrustedFrozen::open(&TABLE[..count.min(TABLE.len())]).err()
}

#[test]
fn trusted_bytes_have_a_header_and_their_sections(rt: HostRuntime) {
    same(&rt, trusted_fault(0), Some(FrozenError::Magic));
    same(&rt, trusted_fault(127), Some(FrozenError::Truncated));
    let shorter = trusted_fault(TABLE.len() - 1);
    same(&rt, shorter, Some(FrozenError::Truncated));
    same(&rt, trusted_fault(TABLE.len()), None);
    let mut longer = Vec::with_capacity(rt.alloc(), TABLE.len() + 1).expect(&rt, "memory");
    longer.extend_from_slice(&TABLE).expect(&rt, "memory");
    longer.push(0).expect(&rt, "memory");
    let refused = TrustedFrozen::open(&longer).err();
    same(&rt, refused, Some(FrozenError::TooLong));
}

#[test]
fn another_identity_is_found_by_a_full_opening_alone(rt: HostRuntime) {
    let mut bytes = TABLE;
    bytes[IDENTITY] ^= 1;
    // The set of a single table has the same.
    bytes[IDENTITY + 16] ^= 1;
    let refused = Frozen::open(&bytes).err();
    same(&rt, refused, Some(FrozenError::OtherIdentity));
    finds(&rt, &trusted(&rt, &bytes), &SYMBOLS);
    bytes[IDENTITY] ^= 1;
    let refused = TrustedFrozen::open(&bytes).err();
    same(&rt, refused, Some(FrozenError::OtherIdentity));
}

// The table of the three strings at a place.
fn table_at(rt: &impl Host, set: SetId, shards: u32, shard: u32) -> Vec<u8> {
    let strings = [b"abc".as_slice(), b"".as_slice(), b"xy".as_slice()];
    let place = Place { set, shards, shard };
    let keys = Some((1, 2));
    assert!(rt; shard < shards);
    let bytes = freeze_at(
        rt.alloc(),
        &strings.as_slice(),
        FrozenKind::Bytes,
        keys,
        place,
    );
    bytes.expect(rt, "not frozen")
}

#[test]
fn a_table_is_frozen_at_its_place(rt: HostRuntime) {
    let set = SetId { hash0: 3, hash1: 4 };
    let bytes = table_at(&rt, set, 3, 2);
    let header = Header::read(&bytes).expect(&rt, "no header");
    let place = Place {
        set,
        shards: 3,
        shard: 2,
    };
    holds(&rt, header.place == place);
    holds(&rt, Frozen::open(&bytes).is_ok());
    let other = table_at(&rt, SetId { hash0: 5, hash1: 6 }, 3, 2);
    holds(&rt, bytes.get(64..80) != other.get(64..80));
    same(&rt, bytes.get(..64), other.get(..64));
    same(&rt, bytes.get(80..), other.get(80..));
    // The set of a single table is what its strings are.
    let single = table_at(&rt, set, 1, 0);
    same(&rt, single.as_slice(), TABLE.as_slice());
}

// Of texts: `abc` and the empty string, and `xy`.
const IDS: [DictionaryId; 2] = [
    DictionaryId {
        is_text: true,
        count: 2,
        hash0: 0x9846_1d62_f14c_51c1,
        hash1: 0x6c07_1142_5dbf_cd12,
    },
    DictionaryId {
        is_text: true,
        count: 1,
        hash0: 0x69db_d8cb_a994_3bcb,
        hash1: 0xc7a0_97aa_a459_b7db,
    },
];

// As the SipHash of `checks/formats.py` computes them.
#[test]
fn the_set_of_shards_is_what_the_format_says(rt: HostRuntime) {
    let shards = SetId {
        hash0: 0x89b1_f894_1f42_7dbc,
        hash1: 0xbf3e_b348_2575_0069,
    };
    holds(&rt, SetId::of_shards(&IDS) == shards);
    let sets = [shards, SetId { hash0: 1, hash1: 2 }];
    let merged = SetId {
        hash0: 0xe96c_2137_3ccd_54a7,
        hash1: 0xc89e_62c8_42a8_f927,
    };
    holds(&rt, SetId::of_merge(2, &sets) == merged);
}
