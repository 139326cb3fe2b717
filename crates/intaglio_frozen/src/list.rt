//! Lists of strings that can be frozen.
ghost use Rattle.std.specs.Prelude.{◌≡◌, ◌<◌, ◌≤◌, ◌^◌, ℕ, List, length, map, slice_get, MatchOption, None, Some, IfSome};
ghost use Rattle.intaglio_records.specs.Records.{strings_of};
ghost use Rattle.intaglio_frozen.specs.IsFrozen.{AreTexts};
ghost use Rattle.intaglio_frozen.specs.Fault.{IsNoText};
ghost use Rattle.intaglio_frozen.specs.declared.kind.FrozenKind.TheVariants.{Text};

use crate::kind::FrozenKind;
use intaglio::{Table, TableOver};
use intaglio_content::{Spelled, StringKind};
use intaglio_core::BaseInterner;
use intaglio_packed::Packed;
use intaglio_symbol::Symbol;
use std::hash::BuildHasher;
use std::str;

/// A list of strings that can be frozen, such as a table's contents.
pub trait StringList {
    ghost strings: { Self → List (List ℕ) };

    /// The number of strings.
    fn len(&self) -> usize
        ensures { result ≡ length (strings self.now) };

    /// The bytes of the string at a position.
    fn string(&self, i: usize) -> &[u8]
        requires { i < length (strings self.now) }
        ensures { slice_get (strings self.now) i ≡ Some result.now };
}

impl<K: StringKind> StringList for Packed<K> {
    ghost strings = { λ list. strings_of list };

    #[inline(always)]
    fn len(&self) -> usize {
        self.records().len()
    }

    #[inline(always)]
    fn string(&self, i: usize) -> &[u8] {
        Packed::string(self, i)
    }
}

impl StringList for Vec<&[u8]> {
    ghost strings = { λ list. map (λ w. w.now) list.items };

    #[inline(always)]
    fn len(&self) -> usize {
        Vec::len(self)
    }

    #[inline(always)]
    fn string(&self, i: usize) -> &[u8] {
        self[i]
    }
}

impl StringList for &[&[u8]] {
    ghost strings = { λ list. map (λ w. w.now) list.now };

    #[inline(always)]
    fn len(&self) -> usize {
        <[_]>::len(self)
    }

    #[inline(always)]
    fn string(&self, i: usize) -> &[u8] {
        self[i]
    }
}

impl<C: Spelled, S: BuildHasher> StringList for Table<C, S> {
    ghost strings = { λ table. map C.spelling table.state.contents };

    #[inline(always)]
    fn len(&self) -> usize {
        count_of(self)
    }

    #[inline(always)]
    fn string(&self, i: usize) -> &[u8] {
        // The number of contents is at most 2^32.
        let _count = count_of(self);
        self[Symbol::new(i as u32)].spelling()
    }
}

impl<K: StringKind, S: BuildHasher> StringList for TableOver<Packed<K>, S> {
    ghost strings = { λ table. table.state.contents };

    #[inline(always)]
    fn len(&self) -> usize {
        store_of(self).records().len()
    }

    #[inline(always)]
    fn string(&self, i: usize) -> &[u8] {
        store_of(self).string(i)
    }
}

// The number of contents.
#[inline(always)]
fn count_of<C: Spelled, S: BuildHasher>(table: &Table<C, S>) -> usize
    ensures count { result ≡ length table.now.state.contents }
    ensures few { result ≤ 2 ^ 32 }
{
    Table::len(table)
}

// The strings of a table.
#[inline(always)]
fn store_of<K: StringKind, S: BuildHasher>(table: &TableOver<Packed<K>, S>) -> &Packed<K>
    ensures { strings_of result.now ≡ table.now.state.contents }
{
    BaseInterner::store(table)
}

// The first string that can't be one of a table of this kind.
pub(crate) fn first_fault<L: StringList>(kind: FrozenKind, list: &L) -> Option<u32>
    requires { length (L.strings list.now) ≤ 2 ^ 32 }
    ensures texts { kind ≡ Text → result ≡ None → AreTexts (L.strings list.now) }
    ensures fault { IfSome result (λ i. (kind ≡ Text) × IsNoText (L.strings list.now) i) }
{
    match kind {
        FrozenKind::Bytes => None,
        FrozenKind::Text => first_not_utf8(list),
    }
}

// The first string that isn't UTF-8.
fn first_not_utf8<L: StringList>(list: &L) -> Option<u32>
    requires { length (L.strings list.now) ≤ 2 ^ 32 }
    ensures { MatchOption result (AreTexts (L.strings list.now)) (IsNoText (L.strings list.now)) }
{
    for i in 0..list.len() {
        if let Err(_) = str::from_utf8(list.string(i)) {
            return Some(i as u32);
        }
    }
    None
}
