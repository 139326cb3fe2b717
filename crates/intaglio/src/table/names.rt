//! The iterator over contents, by the name that each kind gives it.
ghost use Rattle.std.specs.Prelude.{◌≡◌, ◌≤◌, ◌^◌, map, length};

use super::TableOver;
use intaglio_bytes::b_str::BStrKind;
use intaglio_bytes::bytes::BytesKind;
use intaglio_content::OfKind;
use intaglio_core::{Content, Forms, Indexed, Lends};
use intaglio_cstr::CStrKind;
use intaglio_path::PathKind;
use intaglio_text::StrKind;
use intaglio_text::osstr::OsStrKind;
use std::hash::BuildHasher;

impl<'a, L: Lends<'a> + Indexed, S: BuildHasher> TableOver<L, S>
where
    L::Content: Content + OfKind<Kind = StrKind>,
{
    /// All texts, in the order of their symbols.
    pub fn strings(&'a self) -> Forms<'a, L>
        ensures all { result ≡ map L.Content.spelling self.now.state.contents }
        ensures bound { length result ≤ 2 ^ 32 }
    {
        self.core.forms()
    }
}

impl<'a, L: Lends<'a> + Indexed, S: BuildHasher> TableOver<L, S>
where
    L::Content: Content + OfKind<Kind = BytesKind>,
{
    /// All bytes, in the order of their symbols.
    pub fn bytestrings(&'a self) -> Forms<'a, L>
        ensures all { result ≡ map L.Content.spelling self.now.state.contents }
        ensures bound { length result ≤ 2 ^ 32 }
    {
        self.core.forms()
    }
}

impl<'a, L: Lends<'a> + Indexed, S: BuildHasher> TableOver<L, S>
where
    L::Content: Content + OfKind<Kind = BStrKind>,
{
    /// All byte strings, in the order of their symbols.
    pub fn bstrings(&'a self) -> Forms<'a, L>
        ensures all { result ≡ map L.Content.spelling self.now.state.contents }
        ensures bound { length result ≤ 2 ^ 32 }
    {
        self.core.forms()
    }
}

impl<'a, L: Lends<'a> + Indexed, S: BuildHasher> TableOver<L, S>
where
    L::Content: Content + OfKind<Kind = CStrKind>,
{
    /// All C strings, in the order of their symbols.
    pub fn c_strings(&'a self) -> Forms<'a, L>
        ensures all { result ≡ map L.Content.spelling self.now.state.contents }
        ensures bound { length result ≤ 2 ^ 32 }
    {
        self.core.forms()
    }
}

impl<'a, L: Lends<'a> + Indexed, S: BuildHasher> TableOver<L, S>
where
    L::Content: Content + OfKind<Kind = OsStrKind>,
{
    /// All OS strings, in the order of their symbols.
    pub fn os_strings(&'a self) -> Forms<'a, L>
        ensures all { result ≡ map L.Content.spelling self.now.state.contents }
        ensures bound { length result ≤ 2 ^ 32 }
    {
        self.core.forms()
    }
}

impl<'a, L: Lends<'a> + Indexed, S: BuildHasher> TableOver<L, S>
where
    L::Content: Content + OfKind<Kind = PathKind>,
{
    /// All paths, in the order of their symbols.
    pub fn paths(&'a self) -> Forms<'a, L>
        ensures all { result ≡ map L.Content.spelling self.now.state.contents }
        ensures bound { length result ≤ 2 ^ 32 }
    {
        self.core.forms()
    }
}
