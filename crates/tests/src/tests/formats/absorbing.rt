//! What `absorb` does to tables of each kind: the symbols of a list's strings, or
//! nothing if the table can't hold them.
ghost use Rattle.intaglio_frozen.specs.IsFrozen.{AreTexts};
ghost use Rattle.intaglio_frozen.specs.Merging.{AreAccepted};

use crate::support::kinds::{BStrKind, BytesKind, Host, OsStrKind, PathKind, StrKind};
use crate::tests::assertions::{holds, same};
use intaglio::packed::{Packed, PackedForm};
use intaglio::{ContentOf, Table, TableOver};
use intaglio_core::{BaseInterner, InternError, Symbol, Work};
use intaglio_frozen::{FromString, StringList, absorb, are_texts};
use intaglio_hash::FixedState;

// Asserts that an empty table that holds two contents takes in two strings, and not a third one.
fn absorbs<'s, L: StringList, T: BaseInterner>(
    rt: &impl Host,
    mut table: T,
    two: &'s L,
    three: &'s L,
)
where
    T: Drop,
    T::Content: FromString<'s, T::Store>,
    requires two { AreAccepted T.Content.accepts (L.strings two.now) }
    requires three { AreAccepted T.Content.accepts (L.strings three.now) }
{
    refuses(rt, &mut table, three, 0);
    for _ in 0..2 {
        let symbols = absorb(rt.alloc(), &mut table, two, &mut Work::new()).expect(rt, "memory");
        let wanted = [Symbol::new(0), Symbol::new(1)];
        same(rt, symbols.as_slice(), wanted.as_slice());
        refuses(rt, &mut table, three, 2);
    }
}

// Asserts that a table can't hold the strings of a list, and is left with so many contents.
fn refuses<'s, L: StringList, T: BaseInterner>(
    rt: &impl Host,
    table: &mut T,
    list: &'s L,
    count: usize,
)
where
    T::Content: FromString<'s, T::Store>,
    requires { AreAccepted T.Content.accepts (L.strings list.now) }
{
    let refused = absorb(rt.alloc(), table, list, &mut Work::new()).err();
    holds(rt, matches!(refused, Some(InternError::Overflow(_))));
    same(rt, table.count(), count);
}

// The same of a table in one buffer. The prover takes seconds wherever a table of one kind is passed to a
// function over any store, so this is over any kind.
fn absorbs_packed<'s, K: PackedForm<'s>, L: StringList>(rt: &impl Host, two: &'s L, three: &'s L)
    requires two { AreAccepted K.is_spelling (L.strings two.now) }
    requires three { AreAccepted K.is_spelling (L.strings three.now) }
{
    let table = TableOver::<Packed<K>, FixedState>::with_limit(rt.alloc(), 2, FixedState);
    absorbs(rt, table.expect(rt, "a table"), two, three);
}

// The same of a table of owned contents.
fn absorbs_owned<'s, K: PackedForm<'s>, L: StringList>(rt: &impl Host, two: &'s L, three: &'s L)
    requires two { AreAccepted K.is_spelling (L.strings two.now) }
    requires three { AreAccepted K.is_spelling (L.strings three.now) }
{
    let table = Table::<ContentOf<K>, FixedState>::with_limit(rt.alloc(), 2, FixedState);
    absorbs(rt, table.expect(rt, "a table"), two, three);
}

fn absorb_bytes<L: StringList>(rt: &impl Host, two: &L, three: &L) {
    absorbs_packed::<BytesKind, _>(rt, two, three);
    absorbs_packed::<BStrKind, _>(rt, two, three);
    absorbs_owned::<BytesKind, _>(rt, two, three);
}

#[test]
fn tables_of_bytes_absorb_all_strings_or_none(rt: HostRuntime) {
    let two: [&[u8]; 2] = [b"a/b", b""];
    let three: [&[u8]; 3] = [b"\xff", b"", b"a/b"];
    absorb_bytes(&rt, &two.as_slice(), &three.as_slice());
}

fn absorb_texts<L: StringList>(rt: &impl Host, two: &L, three: &L)
    requires two { AreTexts (L.strings two.now) }
    requires three { AreTexts (L.strings three.now) }
{
    absorbs_packed::<StrKind, _>(rt, two, three);
    absorbs_packed::<OsStrKind, _>(rt, two, three);
    absorbs_packed::<PathKind, _>(rt, two, three);
    absorbs_owned::<StrKind, _>(rt, two, three);
}

// Absorbs the strings of lists of texts.
fn absorb_if_texts<L: StringList>(rt: &impl Host, two: &L, three: &L) {
    holds(rt, are_texts(two));
    holds(rt, are_texts(three));
    if are_texts(two) && are_texts(three) {
        absorb_texts(rt, two, three);
    }
}

#[test]
fn tables_of_texts_absorb_all_strings_or_none(rt: HostRuntime) {
    let two: [&[u8]; 2] = [b"a/b", b""];
    let three: [&[u8]; 3] = [b"\xc3\xa9", b"", b"a/b"];
    absorb_if_texts(&rt, &two.as_slice(), &three.as_slice());
}
