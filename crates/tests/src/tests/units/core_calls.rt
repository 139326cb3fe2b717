//! Each public call of `Core`, made once on a table with random keys. All names are from `intaglio_core`,
//! except the kind of texts.
//!
//! Functions over any store make the calls, and functions over any kind call those, since the prover takes
//! seconds wherever a table of one kind is passed to a function over any store.
use crate::support::builders::Fold;
use crate::support::kinds::Host;
use crate::tests::assertions::same;
use intaglio_core::{
    BaseInterner, BytesContent, Call, Content, ContentOf, Core, Indexed, IndexedStore, InternError,
    Interner, KindForm, KindOwned, Lends, LookedUpIn, Mark, Reply, RoomError, SoughtIn, StrContent,
    Symbol, Work, run,
};
use intaglio_text::StrKind;
use std::alloc::Global;
use std::fmt::Debug;
use std::hash::{BuildHasher, RandomState};
use std::process::Abort;

fn rounded<K: KindOwned>(alloc: Global, capacity: usize) -> Result<usize, RoomError> {
    let table: Core<ContentOf<K>, Fold> = Core::with_capacity(alloc, capacity)?;
    Ok(table.capacity())
}

fn limited<K: KindOwned, S: BuildHasher + Drop>(
    alloc: Global,
    limit: usize,
    hasher: S,
) -> Result<usize, RoomError> {
    let table: Core<ContentOf<K>, S> = Core::with_limit(alloc, limit, hasher)?;
    Ok(table.limit())
}

#[test]
fn each_constructor_makes_a_table(rt: HostRuntime) {
    same(&rt, rounded::<StrKind>(rt.alloc(), 10), Ok(16));
    let hasher = RandomState::new(&rt).expect(&rt, "a seed");
    same(&rt, limited::<StrKind, _>(rt.alloc(), 2, hasher), Ok(2));
}

// The symbol of a content in an empty table.
fn interned<K: KindOwned>(rt: &impl Host, content: ContentOf<K>) -> Result<Symbol, InternError> {
    let made = Core::<ContentOf<K>, Fold>::with_capacity(rt.alloc(), 0);
    let mut table = made.expect(rt, "memory");
    table.intern_counted(content, &mut Work::new())
}

#[test]
fn a_counted_interning_gives_the_symbol(rt: HostRuntime) {
    let symbol = interned(&rt, StrContent::from("abc"));
    same(&rt, symbol, Ok(Symbol::new(0)));
}

// A table of the texts of a line, which are separated by spaces.
fn table_of<S: BuildHasher + Drop>(
    rt: &impl Host,
    hasher: S,
    line: &'static str,
) -> Core<StrContent, S> {
    let mut texts = Vec::new(rt.alloc());
    for text in line.split(' ') {
        texts.push(StrContent::from(text)).expect(rt, "memory");
    }
    filled(rt, hasher, texts)
}

// A table of these contents.
fn filled<K: KindOwned, S: BuildHasher + Drop>(
    rt: &impl Host,
    hasher: S,
    contents: Vec<ContentOf<K>>,
) -> Core<ContentOf<K>, S> {
    let mut table = Core::with_capacity_and_hasher(rt.alloc(), 0, hasher).expect(rt, "a table");
    for content in contents {
        table
            .intern(content, &mut Work::new())
            .expect(rt, "a symbol");
    }
    table
}

// Reads a table of `abc`, `xyz`, `123` and `789`, whose forms are given, and borrows from it.
fn reads<'a, K: KindForm<'a>, S: BuildHasher>(
    rt: &impl Abort,
    table: &'a Core<ContentOf<K>, S>,
    forms: &[K::Form],
)
where
    K::Form: PartialEq + Debug,
{
    same(rt, table.contents().len(), 4);
    counts(rt, table);
    lends(rt, table, forms, forms);
}

fn counts<L: Indexed, S: BuildHasher>(rt: &impl Abort, table: &IndexedStore<L, S>) {
    same(rt, table.is_empty(), false);
    same(rt, table.contains(Symbol::new(3)), true);
    same(rt, table.contains(Symbol::new(4)), false);
    same(rt, table.all_symbols().nth(3), Some(Symbol::new(3)));
}

fn lends<'a, L: Lends<'a> + LookedUpIn<'a> + Indexed, S: BuildHasher>(
    rt: &impl Abort,
    table: &'a IndexedStore<L, S>,
    sought: &[L::By],
    wanted: &[L::Form],
)
where
    L::Content: Content,
    L::Form: PartialEq + Debug + Copy,
{
    same(rt, table.form(Symbol::new(2)), wanted.get(2).copied());
    same(rt, table.forms().nth(3), wanted.get(3).copied());
    let sought = sought.get(1).expect(rt, "a form");
    let found = table.search_form(sought, &mut Work::new());
    let second = wanted.get(1).copied().expect(rt, "a form");
    assert_eq!(rt; found, Some((Symbol::new(1), second)));
    let first = wanted.first().copied().expect(rt, "a form");
    assert_eq!(rt; table.pairs().nth(0), Some((Symbol::new(0), first)));
}

// Changes the capacity of a table of four contents, and removes contents.
fn changes<K: KindOwned, S: BuildHasher>(rt: &impl Abort, table: &mut Core<ContentOf<K>, S>) {
    reserves(rt, table);
    shrinks(rt, table);
    cuts(rt, table);
}

fn reserves<L: Indexed, S: BuildHasher>(rt: &impl Abort, table: &mut IndexedStore<L, S>) {
    same(rt, table.reserve(100), Ok(()));
    same(rt, table.capacity() >= 104, true);
    same(rt, table.try_reserve(1000), Ok(()));
    same(rt, table.capacity() >= 1004, true);
    same(rt, table.reserve_counted(10_000, &mut Work::new()), Ok(()));
    same(rt, table.capacity() >= 10_004, true);
}

fn shrinks<L: Indexed, S: BuildHasher>(rt: &impl Abort, table: &mut IndexedStore<L, S>) {
    let shrunk = table.shrink_to(5000);
    same(rt, (shrunk, table.capacity()), (Ok(()), 5000));
    let shrunk = table.shrink_counted(50, &mut Work::new());
    same(rt, (shrunk, table.capacity()), (Ok(()), 50));
    same(rt, (table.shrink_to_fit(), table.capacity()), (Ok(()), 4));
}

fn cuts<L: Indexed, S: BuildHasher>(rt: &impl Abort, table: &mut IndexedStore<L, S>)
where
    L::Content: Content + SoughtIn<L> + Drop,
    L::Prepared: Drop,
{
    same(rt, table.mark(), Mark::new(4));
    same(rt, BaseInterner::mark(table), Mark::new(4));
    same(rt, table.take_back(Mark::new(3)), Ok(()));
    same(rt, table.len(), 3);
    table.clear();
    same(rt, (table.len(), table.capacity()), (0, 4));
}

// Asserts that the list of five contents grew from 4 to twice as many, and gives its memory back.
fn gives_back<K: KindOwned, S: BuildHasher>(rt: &impl Abort, table: &mut Core<ContentOf<K>, S>) {
    same(rt, table.store().capacity(), 8);
    same(rt, table.shrink_to_fit(), Ok(()));
    same(rt, table.store().capacity(), 5);
}

#[test]
fn a_shrink_gives_the_memory_of_the_list_back(rt: HostRuntime) {
    let hasher = RandomState::new(&rt).expect(&rt, "a seed");
    let mut table = table_of(&rt, hasher, "a b c d e");
    gives_back(&rt, &mut table);
}

#[test]
fn each_call_is_made_at_random_hashes(rt: HostRuntime) {
    let hasher = RandomState::new(&rt).expect(&rt, "a seed");
    let mut table = table_of(&rt, hasher, "abc xyz 123 789");
    reads(&rt, &table, &["abc", "xyz", "123", "789"]);
    changes(&rt, &mut table);
}

// The replies of calls on an empty table.
fn replies<K: KindOwned>(rt: &impl Host, calls: Vec<Call<ContentOf<K>>>) -> Vec<Reply> {
    let made = Core::<ContentOf<K>, Fold>::with_capacity(rt.alloc(), 0);
    let mut table = made.expect(rt, "memory");
    run(rt.alloc(), &mut table, calls, &mut Work::new()).expect(rt, "replies")
}

#[test]
fn a_run_on_a_core_of_bytes_replies_to_each_call(rt: HostRuntime) {
    let first = Call::Intern(BytesContent::from(b"\xffa".as_slice()));
    let again = Call::Check(BytesContent::from(b"\xffa".as_slice()));
    let calls = vec![in rt.alloc(); first, again, Call::Len].expect(&rt, "calls");
    let replies = replies(&rt, calls);
    let wanted = [
        Reply::Symbol(Some(Symbol::new(0))),
        Reply::Symbol(Some(Symbol::new(0))),
        Reply::Count(1),
    ];
    assert_eq!(rt; replies.as_slice(), wanted.as_slice());
}
