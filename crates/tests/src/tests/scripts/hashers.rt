//! How many hashers a table makes, and tables whose hashes are equal, share buckets or are random.
use super::asks::OwnedTable;
use super::each::{Script, try_on_each, try_on_owned, try_on_packed};
use super::script::{lines_of, makes_calls};
use super::table::Table;
use crate::support::builders::{Counted, HasherCount};
use crate::support::kinds::{Host, StrKind, TestKind};
use crate::tests::assertions::same;
use intaglio::packed::Packed;
use intaglio::path::{Path, PathContent};
use intaglio::{
    AddedTo, BaseInterner, Content, ContentOf, Copied, Indexed, Keyed, LookedUpIn, Sought,
    SoughtIn, StrContent, TableOver, Work, check_all,
};
use intaglio_core::look_ahead;
use std::hash::RandomState;

const COUNTED: &str = "
a_call_hashes_once_and_a_growth_never:
    with_first_bytes 0 > done; intern_numbers 100 > done; hashers > 100; find_numbers 100 > done
    hashers > 400; reserve 1000 > done; hashers > 400; take_back 50 > done; shrink_to_fit > done
    hashers > 400
each_call_hashes_once_whether_it_finds_or_adds:
    with_first_bytes 0 > done; intern a > 0; hashers > 1; intern a > 0; hashers > 2
    get_or_intern b > 1; hashers > 3; get_or_intern b > 1; hashers > 4
    insert_full c > Symbol(2) true; hashers > 5; insert_full c > Symbol(2) false; hashers > 6
    check a > 0; hashers > 7; check d > none; hashers > 8; is_interned a > true; hashers > 9
    is_interned d > false; hashers > 10; get_interned a > 0 a; hashers > 11; get_interned d > none
    hashers > 12
each_batch_hashes_each_content_once:
    with_first_bytes 0 > done; intern_all b a b c > [Symbol(0), Symbol(1), Symbol(0), Symbol(2)]
    hashers > 4; intern_all a b > [Symbol(1), Symbol(0)]; hashers > 6; intern_all > []
    hashers > 6; check_all a d c > [Some(Symbol(1)), None, Some(Symbol(2))]; hashers > 9
    check_all > []; hashers > 9; get_or_intern_all d a d > [Symbol(3), Symbol(1), Symbol(3)]
    hashers > 12; get_or_intern_all > []; hashers > 12
    intaglio::intern_all e a > [Symbol(4), Symbol(1)]; hashers > 14
a_cut_unlinks_each_symbol_of_a_bucket:
    with_equal_hashes 4096 > done
    intern e0, e1, e2, e3, e4, e5, e6, e7, e8, e9 > 0, 1, 2, 3, 4, 5, 6, 7, 8, 9
    take_back 4 > done; capacity > 4096
    check e0, e1, e2, e3, e4, e5, e6, e7, e8 > 0, 1, 2, 3, none, none, none, none, none
    check e9 > none
";

#[test]
fn a_call_hashes_each_content_once(rt: HostRuntime) {
    try_on_each(&rt, &Script(COUNTED));
}

#[test]
fn a_table_made_of_forms_hashes_each_once(rt: HostRuntime) {
    let words = ["b", "a", "b"].as_slice();
    hashes_forms::<Vec<StrContent>>(&rt, words, 3);
    hashes_forms::<Packed<StrKind>>(&rt, words, 3);
}

// Asserts how many hashers a table makes that is made of forms.
fn hashes_forms<'q, L: LookedUpIn<'q> + Indexed + Drop>(
    rt: &impl Host,
    forms: &[L::By],
    wanted: usize,
)
where
    L::Content: Content + SoughtIn<L> + Drop,
    L::Prepared: Drop,
{
    let made = TableOver::<L, Counted>::from_slice(rt.alloc(), Counted::new(None), forms);
    same(rt, made.expect(rt, "memory").hasher().made(), Some(wanted));
}

// Makes the calls with a `Work` for the first of these values: two hashings, calls by these hashes, and then
// three that hash each value once.
fn makes_counted_calls<H, T: BaseInterner, Q: AddedTo<T::Store, H> + Copy>(
    rt: &impl Host,
    table: &mut T,
    values: &[Q],
) {
    let work = &mut Work::new();
    let value = values.first().expect(rt, "no value");
    let hash = table.hash_counted(value, work);
    same(rt, table.search_hashed(hash, value, work), None);
    let symbol = table
        .intern_hashed(hash, *value, work)
        .expect(rt, "no symbol");
    let hash = table.hash_counted(value, work);
    same(rt, table.search_hashed(hash, value, work), Some(symbol));
    let _byte = table.touch_hashed(hash);
    let again = table.intern_hashed(hash, *value, work).ok();
    same(rt, again, Some(symbol));
    same(rt, table.search_counted(value, work), Some(symbol));
    let found = check_all(rt.alloc(), table, values, work).expect(rt, "memory");
    same(rt, found.first().copied(), Some(Some(symbol)));
    look_ahead(table, values, &mut [0; 2], work);
}

#[test]
fn a_call_by_a_hash_makes_no_hasher(rt: HostRuntime) {
    hashes_counted_calls::<Copied, Vec<StrContent>, &str>(&rt, &["a"], 5);
    hashes_counted_calls::<Copied, Packed<StrKind>, &str>(&rt, &["a"], 5);
}

// Asserts how many hashers a table makes for these calls.
fn hashes_counted_calls<H, L: Indexed + Drop, Q: AddedTo<L, H> + Copy>(
    rt: &impl Host,
    values: &[Q],
    wanted: usize,
)
where
    L::Content: Content + SoughtIn<L> + Drop,
    L::Prepared: Drop,
{
    let made = TableOver::<L, Counted>::with_hasher(rt.alloc(), Counted::new(None));
    let mut table = made.expect(rt, "no table");
    makes_counted_calls::<H, _, _>(rt, &mut table, values);
    same(rt, table.hasher().made(), Some(wanted));
}

// `./intaglio test` makes 200 of these.
const EQUAL: &str = "
two_thousand_equal_hashes_on_each_table:
    with_equal_hashes 0 > done; intern_numbers 2000 > done; check_numbers 2000 > done
    check 2000 > none
    with_first_bytes 0 > done; intern_numbers 2000 > done; check_numbers 2000 > done
    check 2000 > none
";

#[test]
fn two_thousand_equal_hashes_on_each_table(rt: HostRuntime) {
    try_on_owned(&rt, &Script(EQUAL));
}

const FEWER: &str = "
two_hundred_equal_hashes_on_each_packed_table:
    with_equal_hashes 0 > done; intern_numbers 200 > done; check_numbers 200 > done; check 200 > none
    with_first_bytes 0 > done; intern_numbers 200 > done; check_numbers 200 > done; check 200 > none
";

#[test]
fn two_hundred_equal_hashes_on_each_packed_table(rt: HostRuntime) {
    try_on_packed(&rt, &Script(FEWER));
}

const RANDOM: &str = "
random_hashes_serve_too:
    capacity > 4096; intern a, b, a > 0, 1, 0; get_interned b > 1 b; reserve 10000 > done
    fits 10002 > true; shrink_to 3 > done; capacity > 3; take_back 1 > done; shrink_to_fit > done
    capacity > 1; check a, b > 0, none; clear > done; len > 0
";

#[test]
fn random_hashes_serve_too(rt: HostRuntime) {
    let hasher = RandomState::new(&rt).expect(&rt, "a seed");
    plays_under::<StrKind>(&rt, hasher);
}

fn plays_under<K: TestKind>(rt: &impl Host, hasher: RandomState)
where
    OwnedTable<K, RandomState>: Table<Item = ContentOf<K>>,
{
    let made = OwnedTable::<K, RandomState>::with_hasher(rt.alloc(), hasher);
    makes_calls(rt, &mut made.expect(rt, "no table"), &lines_of(rt, RANDOM));
}

fn hash<C: Keyed, Q: Sought<C>>(sought: &Q) -> u64 {
    sought.hash_with(&Counted::new(None), &mut Work::new())
}

#[test]
fn hashes_are_first_bytes(rt: HostRuntime) {
    same(&rt, hash::<StrContent, &str>(&"abc"), 97);
    same(&rt, hash::<StrContent, &str>(&""), 255);
    same(&rt, hash::<PathContent, Path>(&Path::new("/")), 47);
    same(&rt, hash::<PathContent, Path>(&Path::new("")), 0);
}
