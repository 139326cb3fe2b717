//! Byte strings of the crate `bstr` as contents.
ghost use Rattle.std.specs.Prelude.{[], ◌∷◌, refl, ⊤};
ghost use Rattle.bstr.specs.BStr.{bstr_bytes};
ghost use Rattle.bstr.specs.Owned.{bstring_bytes};

use bstr::{BStr, BString};
use intaglio_content::{
    ContentOf, KindForm, KindOwned, Packable, PackedForm, Spells, StringKind, feed_item, same_bytes,
};
use std::alloc::{AllocError, Global};
use std::hash::Hasher;

/// The kind of byte strings that are text by convention.
pub struct BStrKind;

/// A byte string that a table stores: a `BStr<'static>` or a `BString`.
pub type BStrContent = ContentOf<BStrKind>;

impl StringKind for BStrKind {
    ghost key_of = { λ bytes. bytes ∷ [] };

    ghost is_spelling = { λ _. ⊤ };

    #[inline(always)]
    fn feed_spelling<H: Hasher>(spelling: &[u8], hasher: &mut H) {
        feed_item(spelling, hasher);
    }

    #[inline(always)]
    fn same_spellings(a: &[u8], b: &[u8]) -> bool {
        same_bytes(a, b)
    }
}

impl<'a> Spells<BStrKind> for BStr<'a> {
    ghost spelled = { bstr_bytes };

    #[inline(always)]
    fn spelled_bytes(&self) -> &[u8] {
        self.as_bytes()
    }
}

impl<'a> Packable<BStrKind> for BStr<'a> {
    ghost key_of_spelled = { λ _. refl };
}

impl Spells<BStrKind> for BString {
    ghost spelled = { bstring_bytes };

    #[inline(always)]
    fn spelled_bytes(&self) -> &[u8] {
        self.as_bstr().as_bytes()
    }
}

impl KindOwned for BStrKind {
    type Static = BStr<'static>;

    type Owned = BString;

    fn copy(alloc: Global, spelling: &[u8]) -> Result<BString, AllocError> {
        Ok(BString::new(Vec::from_slice(alloc, spelling)?))
    }
}

impl<'a> KindForm<'a> for BStrKind {
    type Form = BStr<'a>;

    #[inline(always)]
    fn lend(content: &'a BStrContent) -> BStr<'a> {
        BStr::new(content.spelling())
    }
}

impl<'a> PackedForm<'a> for BStrKind {
    #[inline(always)]
    fn form_of(spelling: &'a [u8]) -> BStr<'a> {
        BStr::new(spelling)
    }
}
