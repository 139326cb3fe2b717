//! UTF-8 texts as contents.
ghost use Rattle.std.specs.Prelude.{[], ◌∷◌, refl, IsUtf8, string_bytes};

use intaglio_content::{
    ContentOf, KindForm, KindOwned, Packable, PackedForm, Spells, StringKind, feed_item, same_bytes,
};
use std::alloc::{AllocError, Global};
use std::hash::Hasher;
use std::marker::PhantomData;
use std::str;

/// The kinds of UTF-8 texts that are compared by their bytes, one for each marker type.
pub struct Utf8<M> {
    marker: PhantomData<M>,
}

/// The marker of texts.
pub struct AsText;

/// The marker of OS strings.
pub struct AsOsStr;

/// The kind of texts.
pub type StrKind = Utf8<AsText>;

/// The kind of OS strings.
pub type OsStrKind = Utf8<AsOsStr>;

/// A text that a table stores: a `&'static str` or a `String`. Its spelling is its UTF-8
/// bytes, and its key is that one item.
pub type StrContent = ContentOf<StrKind>;

/// An OS string that a table stores: a `&'static str` or a `String`.
pub type OsStrContent = ContentOf<OsStrKind>;

impl<M> StringKind for Utf8<M> {
    ghost key_of = { λ bytes. bytes ∷ [] };

    ghost is_spelling = { IsUtf8 };

    #[inline(always)]
    fn feed_spelling<H: Hasher>(spelling: &[u8], hasher: &mut H) {
        feed_item(spelling, hasher);
    }

    #[inline(always)]
    fn same_spellings(a: &[u8], b: &[u8]) -> bool {
        same_bytes(a, b)
    }
}

impl<M> Spells<Utf8<M>> for &str {
    ghost spelled = { λ text. text.now };

    #[inline(always)]
    fn spelled_bytes(&self) -> &[u8] {
        self.as_bytes()
    }
}

impl<M> Packable<Utf8<M>> for &str {
    ghost key_of_spelled = { λ _. refl };
}

impl<M> Spells<Utf8<M>> for String {
    ghost spelled = { string_bytes };

    #[inline(always)]
    fn spelled_bytes(&self) -> &[u8] {
        self.as_str().as_bytes()
    }
}

impl<M> KindOwned for Utf8<M> {
    type Static = &'static str;

    type Owned = String;

    fn copy(alloc: Global, spelling: &[u8]) -> Result<String, AllocError> {
        String::from_str(alloc, unsafe { str::from_utf8_unchecked(spelling) })
    }
}

impl<'a, M> KindForm<'a> for Utf8<M> {
    type Form = &'a str;

    #[inline(always)]
    fn lend(content: &'a ContentOf<Utf8<M>>) -> &'a str {
        unsafe { str::from_utf8_unchecked(content.spelling()) }
    }
}

impl<'a, M> PackedForm<'a> for Utf8<M> {
    #[inline(always)]
    fn form_of(spelling: &'a [u8]) -> &'a str {
        unsafe { str::from_utf8_unchecked(spelling) }
    }
}
