//! Column files of each width, whole and damaged.
use crate::support::kinds::Host;
use crate::tests::assertions::{holds, same};
use intaglio_columns::{
    Column, ColumnError, ColumnHeader, ColumnWriteError, DictionaryId, MISSING, RowFilter,
    RowSource, Width, begins_as_column, column_bytes, header_bytes, sourced_column_bytes,
};
use intaglio_symbol::Symbol;
use std::alloc::AllocError;
use std::process::Abort;

// The column of the codes 0, 2, 2, missing, 1 under the dictionary of `abc`, the empty string and `xy`, as
// `checks/formats.py` writes it.
const COLUMN: [u8; 133] = [
    73, 78, 84, 137, 67, 79, 76, 10, 2, 0, 0, 0, 0, 0, 0, 0, 248, 104, 127, 193, 74, 28, 227, 176,
    246, 76, 199, 177, 197, 138, 104, 50, 3, 0, 0, 0, 0, 0, 0, 0, 5, 0, 0, 0, 0, 0, 0, 0, 1, 0, 0,
    0, 1, 0, 0, 0, 107, 73, 211, 189, 29, 53, 107, 150, 0, 0, 0, 0, 0, 0, 0, 0, 0, 0, 0, 0, 0, 0,
    0, 0, 0, 0, 0, 0, 0, 0, 0, 0, 0, 0, 0, 0, 0, 0, 0, 0, 0, 0, 0, 0, 0, 0, 0, 0, 0, 0, 0, 0, 0, 0,
    0, 0, 0, 0, 0, 0, 0, 0, 0, 0, 0, 0, 0, 0, 0, 0, 0, 0, 0, 2, 2, 255, 1,
];

const ID: DictionaryId = DictionaryId {
    is_text: false,
    count: 3,
    hash0: 12_746_062_477_788_145_912,
    hash1: 3_632_305_681_170_124_022,
};

// As it writes columns under dictionaries of 256 and of 65,536 texts, whose hashes are given as 5 and 6.
const TWO: [u8; 134] = [
    73, 78, 84, 137, 67, 79, 76, 10, 2, 0, 0, 0, 1, 0, 0, 0, 5, 0, 0, 0, 0, 0, 0, 0, 6, 0, 0, 0, 0,
    0, 0, 0, 0, 1, 0, 0, 0, 0, 0, 0, 3, 0, 0, 0, 0, 0, 0, 0, 2, 0, 0, 0, 1, 0, 0, 0, 49, 212, 84,
    30, 224, 78, 56, 227, 0, 0, 0, 0, 0, 0, 0, 0, 0, 0, 0, 0, 0, 0, 0, 0, 0, 0, 0, 0, 0, 0, 0, 0,
    0, 0, 0, 0, 0, 0, 0, 0, 0, 0, 0, 0, 0, 0, 0, 0, 0, 0, 0, 0, 0, 0, 0, 0, 0, 0, 0, 0, 0, 0, 0, 0,
    0, 0, 0, 0, 0, 0, 0, 0, 255, 0, 255, 255, 1, 0,
];

const FOUR: [u8; 136] = [
    73, 78, 84, 137, 67, 79, 76, 10, 2, 0, 0, 0, 1, 0, 0, 0, 5, 0, 0, 0, 0, 0, 0, 0, 6, 0, 0, 0, 0,
    0, 0, 0, 0, 0, 1, 0, 0, 0, 0, 0, 2, 0, 0, 0, 0, 0, 0, 0, 4, 0, 0, 0, 1, 0, 0, 0, 236, 141, 151,
    98, 9, 56, 9, 115, 0, 0, 0, 0, 0, 0, 0, 0, 0, 0, 0, 0, 0, 0, 0, 0, 0, 0, 0, 0, 0, 0, 0, 0, 0,
    0, 0, 0, 0, 0, 0, 0, 0, 0, 0, 0, 0, 0, 0, 0, 0, 0, 0, 0, 0, 0, 0, 0, 0, 0, 0, 0, 0, 0, 0, 0, 0,
    0, 0, 0, 0, 0, 0, 0, 255, 255, 0, 0, 255, 255, 255, 255,
];

// As it writes the map from a dictionary of texts in one file, and that of the last of three shards, whose hashes are
// given as 7 and 8.
const MAP: [u8; 130] = [
    73, 78, 84, 137, 67, 79, 76, 10, 2, 0, 0, 0, 0, 0, 0, 0, 248, 104, 127, 193, 74, 28, 227, 176,
    246, 76, 199, 177, 197, 138, 104, 50, 3, 0, 0, 0, 0, 0, 0, 0, 2, 0, 0, 0, 0, 0, 0, 0, 1, 0, 0,
    0, 1, 0, 0, 0, 103, 38, 79, 212, 56, 1, 190, 7, 1, 0, 0, 0, 1, 0, 0, 0, 7, 0, 0, 0, 0, 0, 0, 0,
    8, 0, 0, 0, 0, 0, 0, 0, 0, 0, 0, 0, 0, 0, 0, 0, 0, 0, 0, 0, 0, 0, 0, 0, 0, 0, 0, 0, 0, 0, 0, 0,
    0, 0, 0, 0, 0, 0, 0, 0, 0, 0, 0, 0, 0, 0, 0, 0, 2, 0,
];

const SHARD: [u8; 130] = [
    73, 78, 84, 137, 67, 79, 76, 10, 2, 0, 0, 0, 0, 0, 0, 0, 248, 104, 127, 193, 74, 28, 227, 176,
    246, 76, 199, 177, 197, 138, 104, 50, 3, 0, 0, 0, 0, 0, 0, 0, 2, 0, 0, 0, 0, 0, 0, 0, 1, 0, 0,
    0, 3, 0, 0, 0, 107, 119, 184, 107, 239, 124, 16, 226, 3, 0, 0, 0, 1, 0, 0, 0, 7, 0, 0, 0, 0, 0,
    0, 0, 8, 0, 0, 0, 0, 0, 0, 0, 2, 0, 0, 0, 0, 0, 0, 0, 0, 0, 0, 0, 0, 0, 0, 0, 0, 0, 0, 0, 0, 0,
    0, 0, 0, 0, 0, 0, 0, 0, 0, 0, 0, 0, 0, 0, 0, 0, 0, 0, 2, 0,
];

// As it writes a column with a code that is no symbol, and a map with a missing code.
const NO_STRING: [u8; 131] = [
    73, 78, 84, 137, 67, 79, 76, 10, 2, 0, 0, 0, 0, 0, 0, 0, 248, 104, 127, 193, 74, 28, 227, 176,
    246, 76, 199, 177, 197, 138, 104, 50, 3, 0, 0, 0, 0, 0, 0, 0, 3, 0, 0, 0, 0, 0, 0, 0, 1, 0, 0,
    0, 1, 0, 0, 0, 197, 10, 12, 167, 237, 253, 106, 207, 0, 0, 0, 0, 0, 0, 0, 0, 0, 0, 0, 0, 0, 0,
    0, 0, 0, 0, 0, 0, 0, 0, 0, 0, 0, 0, 0, 0, 0, 0, 0, 0, 0, 0, 0, 0, 0, 0, 0, 0, 0, 0, 0, 0, 0, 0,
    0, 0, 0, 0, 0, 0, 0, 0, 0, 0, 0, 0, 0, 0, 0, 0, 0, 0, 0, 1, 3,
];

const MISSING_ROW: [u8; 130] = [
    73, 78, 84, 137, 67, 79, 76, 10, 2, 0, 0, 0, 0, 0, 0, 0, 248, 104, 127, 193, 74, 28, 227, 176,
    246, 76, 199, 177, 197, 138, 104, 50, 3, 0, 0, 0, 0, 0, 0, 0, 2, 0, 0, 0, 0, 0, 0, 0, 1, 0, 0,
    0, 1, 0, 0, 0, 54, 201, 222, 236, 61, 174, 250, 173, 1, 0, 0, 0, 1, 0, 0, 0, 7, 0, 0, 0, 0, 0,
    0, 0, 8, 0, 0, 0, 0, 0, 0, 0, 0, 0, 0, 0, 0, 0, 0, 0, 0, 0, 0, 0, 0, 0, 0, 0, 0, 0, 0, 0, 0, 0,
    0, 0, 0, 0, 0, 0, 0, 0, 0, 0, 0, 0, 0, 0, 0, 0, 0, 0, 0, 255,
];

const SOURCE: RowSource = RowSource {
    shards: 1,
    is_text: true,
    hash0: 7,
    hash1: 8,
    shard: 0,
};

fn opened<'a>(rt: &impl Abort, bytes: &'a [u8]) -> Column<'a> {
    Column::open(bytes).expect(rt, "no column")
}

// The column with one byte changed.
fn changed(at: usize, byte: u8) -> [u8; 133] {
    let mut bytes = COLUMN;
    if at < bytes.len() {
        bytes[at] = byte;
    }
    bytes
}

fn fault(bytes: &[u8]) -> Option<ColumnError> {
    Column::open(bytes).err()
}

// Asserts which codes a column has, and of which width.
fn has_codes(rt: &impl Abort, bytes: &[u8], width: Width, codes: &[u32]) {
    let column = opened(rt, bytes);
    holds(rt, column.width() == width && column.len() == codes.len());
    for row in 0..=codes.len() {
        same(rt, column.code(row), codes.get(row).copied());
    }
}

#[test]
fn a_column_has_the_codes_that_another_writer_wrote(rt: HostRuntime) {
    has_codes(&rt, &COLUMN, Width::One, &[0, 2, 2, MISSING, 1]);
    holds(&rt, opened(&rt, &COLUMN).id() == ID);
}

#[test]
fn a_column_is_written_as_another_writer_does(rt: HostRuntime) {
    let codes = [0, 2, 2, MISSING, 1].map(Symbol::new);
    let bytes = column_bytes(rt.alloc(), ID, &codes.as_slice()).expect(&rt, "memory");
    holds(&rt, bytes.as_slice() == COLUMN.as_slice());
}

#[test]
fn wider_codes_are_widened(rt: HostRuntime) {
    has_codes(&rt, &TWO, Width::Two, &[255, MISSING, 1]);
    has_codes(&rt, &FOUR, Width::Four, &[65_535, MISSING]);
}

#[test]
fn wider_columns_are_written_as_another_writer_does(rt: HostRuntime) {
    let mut id = ColumnHeader::read(&TWO).expect(&rt, "no header").id;
    let codes = [255, MISSING, 1].map(Symbol::new);
    let bytes = column_bytes(rt.alloc(), id, &codes.as_slice()).expect(&rt, "memory");
    holds(&rt, bytes.as_slice() == TWO.as_slice());
    id.count = 65_536;
    let codes = [65_535, MISSING].map(Symbol::new);
    let bytes = column_bytes(rt.alloc(), id, &codes.as_slice()).expect(&rt, "memory");
    holds(&rt, bytes.as_slice() == FOUR.as_slice());
}

// A byte of the column by its place, what it becomes, how many bytes are left, and the fault. The first byte is
// 73, so that rows which begin with `(0, 73` only cut the column.
type Damage = (usize, u8, usize, ColumnError);

static DAMAGES: [Damage; 21] = [
    (0, 73, 11, ColumnError::Magic),
    (3, 0, 133, ColumnError::Magic),
    (8, 1, 133, ColumnError::OldVersion),
    (11, 1, 12, ColumnError::Version),
    (0, 73, 12, ColumnError::Header),
    (0, 73, 127, ColumnError::Header),
    (12, 2, 133, ColumnError::Kind),
    (36, 1, 133, ColumnError::TooMany),
    (48, 2, 133, ColumnError::Width),
    (33, 1, 133, ColumnError::Width),
    (52, 0, 133, ColumnError::Source),
    (72, 1, 133, ColumnError::Source),
    (92, 1, 133, ColumnError::Reserved),
    (127, 1, 133, ColumnError::Reserved),
    (0, 73, 132, ColumnError::Truncated),
    (40, 6, 133, ColumnError::Truncated),
    (47, 128, 133, ColumnError::Truncated),
    (40, 4, 133, ColumnError::TooLong),
    (16, 0, 133, ColumnError::Damaged),
    (63, 0, 133, ColumnError::Damaged),
    (132, 2, 133, ColumnError::Damaged),
];

fn names_each(rt: &impl Abort, damages: &[Damage]) {
    for (at, byte, length, wanted) in damages {
        let bytes = changed(*at, *byte);
        let left = bytes.get(..*length).unwrap_or(&[]);
        same(rt, fault(left), Some(*wanted));
    }
}

#[test]
fn each_fault_of_a_column_is_named(rt: HostRuntime) {
    names_each(&rt, &DAMAGES);
    same(&rt, fault(&COLUMN), None);
}

#[test]
fn rows_and_codes_that_are_wrong_are_named(rt: HostRuntime) {
    same(&rt, fault(&TWO[..133]), Some(ColumnError::Truncated));
    same(&rt, fault(&NO_STRING), Some(ColumnError::NoString(2)));
    same(&rt, fault(&MISSING_ROW), Some(ColumnError::Missing(1)));
}

#[test]
fn a_source_fits_the_shards_of_a_dictionary(rt: HostRuntime) {
    let mut source = SOURCE;
    assert!(&rt; source.fits(1) && source.fits(3) && !source.fits(0));
    assert!(&rt; RowSource::LINES.fits(1) && RowSource::LINES.fits(3) && !RowSource::LINES.fits(0));
    source.shard = 1;
    assert!(&rt; !source.fits(1));
    source.shards = 3;
    assert!(&rt; source.fits(3) && !source.fits(1) && !source.fits(2));
    source.shards = 0;
    assert!(&rt; !source.fits(3));
}

#[test]
fn maps_are_columns(rt: HostRuntime) {
    let codes = [2u32, 0];
    let bytes = sourced_column_bytes(rt.alloc(), ID, 1, SOURCE, &codes.as_slice());
    assert!(&rt; bytes.expect(&rt, "no map").as_slice() == MAP.as_slice());
    let map = opened(&rt, &MAP).header();
    assert!(&rt; map.source == SOURCE && map.shards == 1 && map.rows == 2);
    let shard = opened(&rt, &SHARD).header();
    assert!(&rt; shard.source.shards == 3 && shard.source.shard == 2 && shard.shards == 3);
    assert!(&rt; opened(&rt, &COLUMN).header().source == RowSource::LINES);
    let codes = [0, MISSING];
    let refused = sourced_column_bytes(rt.alloc(), ID, 1, SOURCE, &codes.as_slice()).err();
    assert!(&rt; refused == Some(ColumnWriteError::Missing(1)));
}

#[test]
fn trusted_codes_are_read_as_they_are(rt: HostRuntime) {
    let bytes = changed(130, 3);
    let column = Column::open_trusted(&bytes).expect(&rt, "no column");
    same(&rt, column.code(2), Some(3));
    has_counts(&rt, &column, &[1, 1, 1], 1);
    holds(&rt, Column::open_trusted(&COLUMN[..132]).is_err());
}

// Asserts which rows of a column have a code, as they are found together and one after the other.
fn has_rows(rt: &impl Host, bytes: &[u8], code: u32, rows: &[usize]) {
    let column = opened(rt, bytes);
    let found = column.rows_of(rt.alloc(), code).expect(rt, "memory");
    same(rt, found.len(), rows.len());
    let mut from = 0;
    for (row, number) in rows.iter().zip(found.iter()) {
        same(rt, *number, *row as u64);
        same(rt, column.next_row_of(code, from), Some(*row));
        same(rt, column.next_row_of(code, *row), Some(*row));
        from = row.saturating_add(1);
    }
    same(rt, column.next_row_of(code, from), None);
}

// Asserts how often each string occurs in a column, and how many rows are missing.
fn has_counts(rt: &impl Host, column: &Column<'_>, strings: &[u64], missing: u64) {
    let counts = column.counts(rt.alloc()).expect(rt, "memory");
    same(rt, counts.of.as_slice(), strings);
    same(rt, counts.missing, missing);
}

#[test]
fn rows_of_a_column_are_found_and_counted(rt: HostRuntime) {
    has_rows(&rt, &COLUMN, 2, &[1, 2]);
    has_rows(&rt, &COLUMN, MISSING, &[3]);
    has_rows(&rt, &COLUMN, 3, &[]);
    has_counts(&rt, &opened(&rt, &COLUMN), &[1, 1, 2], 1);
}

// Asserts how many rows a filter selects, if it inverts or not, with the missing ones or without.
fn selects(rt: &impl Abort, filter: &mut RowFilter, inverts: bool, missing: bool, count: u64) {
    (filter.inverts, filter.missing) = (inverts, missing);
    same(rt, opened(rt, &COLUMN).count_rows(filter), count);
}

#[test]
fn a_filter_selects_rows(rt: HostRuntime) {
    let made = opened(&rt, &COLUMN).no_rows(rt.alloc());
    let mut filter = made.expect(&rt, "memory");
    selects(&rt, &mut filter, false, false, 0);
    selects(&rt, &mut filter, true, false, 5);
    selects(&rt, &mut filter, true, true, 4);
    selects(&rt, &mut filter, false, true, 1);
    filter.strings = Vec::from_elem(rt.alloc(), true, 3).expect(&rt, "memory");
    selects(&rt, &mut filter, false, false, 4);
    assert!(&rt; filter.selects(2) && !filter.selects(3) && !filter.selects(MISSING));
}

#[test]
fn rows_are_found_one_after_the_other(rt: HostRuntime) {
    has_rows(&rt, &COLUMN, 255, &[]);
    has_rows(&rt, &COLUMN, 1, &[4]);
    has_rows(&rt, &TWO, 1, &[2]);
    has_rows(&rt, &TWO, MISSING, &[1]);
    has_rows(&rt, &FOUR, 65_535, &[0]);
}

#[test]
fn rows_behind_a_block_are_found(rt: HostRuntime) {
    let mut codes = Vec::from_elem(rt.alloc(), 0u32, 70).expect(&rt, "memory");
    codes.push(1).expect(&rt, "memory");
    codes.extend_from_slice(&[0; 28]).expect(&rt, "memory");
    codes.push(1).expect(&rt, "memory");
    let bytes = column_bytes(rt.alloc(), ID, &codes.as_slice()).expect(&rt, "no column");
    has_rows(&rt, &bytes, 1, &[70, 99]);
}

#[test]
fn a_filter_of_one_string_has_its_code(rt: HostRuntime) {
    let column = opened(&rt, &COLUMN);
    let mut filter = column.no_rows(rt.alloc()).expect(&rt, "memory");
    same(&rt, filter.only_code(), None);
    same(&rt, column.next_selected(&filter, 0), None);
    filter.strings = vec![in rt.alloc(); false, false, true].expect(&rt, "memory");
    same(&rt, filter.only_code(), Some(2));
    same(&rt, column.count_rows(&filter), 2);
    same(&rt, column.next_selected(&filter, 2), Some(2));
    filter.missing = true;
    same(&rt, filter.only_code(), None);
    same(&rt, column.next_selected(&filter, 3), Some(3));
}

#[test]
fn a_header_has_the_bytes_that_were_read(rt: HostRuntime) {
    let header = ColumnHeader::read(&TWO).expect(&rt, "no header");
    let bytes = header_bytes(rt.alloc(), header).expect(&rt, "memory");
    holds(&rt, &bytes[..56] == &TWO[..56]);
    holds(&rt, &bytes[64..] == &TWO[64..128]);
}

#[test]
fn four_bytes_begin_a_column(rt: HostRuntime) {
    holds(&rt, begins_as_column(&COLUMN));
    holds(&rt, begins_as_column(&COLUMN[..4]));
    holds(&rt, !begins_as_column(&COLUMN[..3]));
    holds(&rt, !begins_as_column(&changed(3, 0)));
    holds(&rt, begins_as_column(&changed(4, 0)));
}

// Writes codes from a row on over places, and asserts how many there were, and what the places have then.
fn writes_codes(rt: &impl Abort, from: usize, places: &mut [u32], count: usize, wanted: &[u32]) {
    same(rt, opened(rt, &COLUMN).codes_into(from, places), count);
    same(rt, &*places, wanted);
}

// The same of the two rows that have the code 2.
fn writes_rows(rt: &impl Abort, places: &mut [u64], wanted: &[u64]) {
    same(rt, opened(rt, &COLUMN).rows_into(2, places), 2);
    same(rt, &*places, wanted);
}

#[test]
fn codes_rows_and_counts_are_written_over_places(rt: HostRuntime) {
    let mut codes = [7u32; 4];
    writes_codes(&rt, 2, &mut codes, 3, &[2, MISSING, 1, 7]);
    writes_codes(&rt, 1, &mut codes[..1], 1, &[2]);
    writes_codes(&rt, 6, &mut codes, 0, &[2, MISSING, 1, 7]);
    let mut rows = [7u64; 3];
    writes_rows(&rt, &mut rows[..1], &[1]);
    writes_rows(&rt, &mut rows, &[1, 2, 7]);
    let (column, mut counts) = (opened(&rt, &COLUMN), [7u64; 3]);
    assert!(&rt; column.id().count == 3);
    same(&rt, column.counts_into(&mut counts), 1);
    same(&rt, counts.as_slice(), [1, 1, 2].as_slice());
}

#[test]
fn numbers_are_made_the_column_of_these_symbols(rt: HostRuntime) {
    let codes = [0, 2, 2, MISSING, 1];
    let bytes = column_bytes(rt.alloc(), ID, &codes.as_slice()).expect(&rt, "memory");
    holds(&rt, bytes.as_slice() == COLUMN.as_slice());
}

#[test]
fn codes_without_a_string_make_no_column(rt: HostRuntime) {
    let codes = [0, 3].map(Symbol::new);
    let refused = column_bytes(rt.alloc(), ID, &codes.as_slice()).err();
    holds(&rt, refused == Some(ColumnWriteError::NoString(1)));
    let mut many = ID;
    many.count = 1 << 32;
    let refused = column_bytes(rt.alloc(), many, &codes.as_slice()).err();
    holds(&rt, refused == Some(ColumnWriteError::TooMany));
}

#[test]
fn a_dictionary_has_the_hashes_that_another_writer_has(rt: HostRuntime) {
    let ends = [3, 0, 0, 0, 3, 0, 0, 0, 5, 0, 0, 0];
    holds(&rt, DictionaryId::of(false, 3, &ends, b"abcxy") == ID);
    let text = DictionaryId::of(true, 3, &ends, b"abcxy");
    same(&rt, text.hash0, 14_495_310_751_434_826_559);
    same(&rt, text.hash1, 2_988_094_485_908_791_214);
}

#[test]
fn a_list_has_the_id_of_its_dictionary(rt: HostRuntime) -> Result<(), AllocError> {
    let mut strings = Vec::new(rt.alloc());
    for string in &["abc", "", "xy"] {
        strings.push(string.as_bytes())?;
    }
    holds(&rt, DictionaryId::of_list(false, &strings) == ID);
    Ok(())
}
