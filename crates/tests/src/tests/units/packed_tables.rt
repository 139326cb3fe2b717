//! Room in one buffer, and the ends of strings. The other calls of packed tables are made by the scripts.
use crate::support::builders::Fold;
use crate::support::kinds::Host;
use crate::tests::assertions::same;
use intaglio::packed::{Packed, PackedForm, StrKind};
use intaglio::{BaseInterner, Content, Indexed, LookedUpIn, TableOver};
use intaglio_core::Store;
use intaglio_records::{StringBuffer, StringEnds};
use std::hash::BuildHasher;
use std::process::Abort;

// An empty table, without room.
fn empty<'q, K: PackedForm<'q>>(rt: &impl Host) -> TableOver<Packed<K>, Fold> {
    TableOver::with_capacity_and_hasher(rt.alloc(), 0, Fold::new()).expect(rt, "a table")
}

fn adds<'q, L: LookedUpIn<'q> + Indexed, S: BuildHasher>(
    rt: &impl Abort,
    table: &mut TableOver<L, S>,
    forms: &[L::By],
)
where
    L::Content: Content,
    L::Prepared: Drop,
{
    for form in forms {
        table.get_or_intern(*form).expect(rt, "a symbol");
    }
}

// For how many strings, and for how many bytes of them, the store holds memory.
fn held<'q, K: PackedForm<'q>>(table: &TableOver<Packed<K>, Fold>) -> (usize, usize) {
    let store = BaseInterner::store(table);
    (store.capacity(), store.records().held_bytes())
}

// Asserts that 4 and 5 strings of 10 and 15 bytes, each with 13 bytes in front, make each room grow to twice
// what it was, and a shrink leaves none that isn't used.
fn doubles<'q, K: PackedForm<'q>>(rt: &impl Host, four: &[K::Form], fifth: &[K::Form]) {
    let mut table = empty::<K>(rt);
    adds(rt, &mut table, four);
    same(rt, held(&table), (4, 4 * 13 + 16));
    adds(rt, &mut table, fifth);
    same(rt, held(&table), (8, 8 * 13 + 16));
    same(rt, table.shrink_to_fit(), Ok(()));
    same(rt, held(&table), (5, 5 * 13 + 15));
    same(rt, table.byte_count(), 15);
}

#[test]
fn a_packed_table_doubles_its_memory_and_gives_it_back(rt: HostRuntime) {
    doubles::<StrKind>(&rt, &["a", "bc", "def", "ghij"], &["klmno"]);
}

#[test]
fn a_packed_list_gives_up_its_room(rt: HostRuntime) {
    let mut list = StringBuffer::with_capacity(rt.alloc(), 5, 100).expect(&rt, "memory");
    list.push_parts(b"a", b"bc");
    list.shrink_strings(2);
    same(&rt, list.shrink_bytes(0), Ok(()));
    same(&rt, list.capacity(), 2);
    same(&rt, list.held_bytes(), 3);
    same(&rt, list.string(0), b"abc".as_slice());
}

#[test]
fn long_ends_are_the_short_ones(rt: HostRuntime) {
    let mut short = StringEnds::with_capacity(rt.alloc(), 4, false).expect(&rt, "memory");
    short.push_reserved(3);
    short.push_reserved(4294967295);
    let mut long = short.to_long(rt.alloc()).expect(&rt, "memory");
    long.push_reserved(4294967296);
    same(&rt, short.largest(), 4294967295);
    same(&rt, long.len(), 3);
    same(&rt, long.capacity(), 4);
    same(&rt, long.start(0), 0);
    same(&rt, long.end(0), 3);
    same(&rt, long.start(2), 4294967295);
    same(&rt, long.end(2), 4294967296);
}
