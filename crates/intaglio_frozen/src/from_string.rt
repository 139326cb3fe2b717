//! Strings of a list as forms that are interned.
ghost use Rattle.std.specs.Prelude.{◌≡◌, ◌↔◌, ◌≤◌, List, ℕ, length, IsTrue};
ghost use Rattle.intaglio_frozen.specs.IsFrozen.{AreTexts};

use crate::StringList;
use intaglio_content::{Content, ContentOf, CopiedTo, PackedForm, Spelling, Store};
use intaglio_packed::Packed;
use std::str;

/// A content that is interned by a form of a string, into a store of type `L`.
pub trait FromString<'s, L: Store>: Content
where
    L::Content: Content,
{
    /// The form of a string.
    type Form: CopiedTo<L>;

    // which strings have a form
    ghost accepts: { List ℕ → Type 0 };

    /// The form whose spelling is the string. Nothing is copied.
    fn from_string(string: &'s [u8]) -> Self::Form
        requires { accepts string.now }
        ensures spelling { Self.Form.form_spelling result ≡ string.now }
        ensures needs { Self.Form.needs result ≤ length string.now };
}

impl<'s, K: PackedForm<'s>> FromString<'s, Packed<K>> for Spelling<K> {
    type Form = K::Form;

    ghost accepts = { λ string. K.is_spelling string };

    fn from_string(string: &'s [u8]) -> K::Form {
        K::form_of(string)
    }
}

impl<'s, K: PackedForm<'s>> FromString<'s, Vec<ContentOf<K>>> for ContentOf<K> {
    type Form = K::Form;

    ghost accepts = { λ string. K.is_spelling string };

    fn from_string(string: &'s [u8]) -> K::Form {
        K::form_of(string)
    }
}

/// Whether each string of a list is UTF-8, so that a table of texts can [`absorb`](crate::absorb) them.
pub fn are_texts<L: StringList>(list: &L) -> bool
    ensures { IsTrue result ↔ AreTexts (L.strings list.now) }
{
    for i in 0..list.len() {
        if let Err(_) = str::from_utf8(list.string(i)) {
            return false;
        }
    }
    true
}
