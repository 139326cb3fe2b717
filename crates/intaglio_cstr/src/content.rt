//! C strings as contents.
ghost use Rattle.std.specs.Prelude.{◌≡◌, [], ◌∷◌, refl, None};
ghost use Rattle.intaglio_cstr.specs.CStr.{c_str_spelling};
ghost use Rattle.intaglio_cstr.specs.Zeros.{first_zero};

use crate::c_str::CStr;
use crate::c_string::CString;
use intaglio_content::{
    ContentOf, Keyed, KindForm, KindOwned, Packable, Spells, StringKind, feed_item, same_bytes,
};
use std::alloc::{AllocError, Global};
use std::hash::Hasher;

/// The kind of C strings. Their spellings are the bytes before the final zero.
pub struct CStrKind;

/// A C string that a table stores: a `CStr<'static>` or a `CString`.
pub type CStrContent = ContentOf<CStrKind>;

impl StringKind for CStrKind {
    ghost key_of = { λ bytes. bytes ∷ [] };

    ghost is_spelling = { λ bytes. first_zero bytes ≡ None };

    #[inline(always)]
    fn feed_spelling<H: Hasher>(spelling: &[u8], hasher: &mut H) {
        feed_item(spelling, hasher);
    }

    #[inline(always)]
    fn same_spellings(a: &[u8], b: &[u8]) -> bool {
        same_bytes(a, b)
    }
}

impl<'a> Spells<CStrKind> for CStr<'a> {
    ghost spelled = { c_str_spelling };

    #[inline(always)]
    fn spelled_bytes(&self) -> &[u8] {
        self.to_bytes()
    }
}

impl<'a> Keyed for CStr<'a> {
    ghost key = { λ text. c_str_spelling text ∷ [] };
}

impl<'a> Packable<CStrKind> for CStr<'a> {
    ghost key_of_spelled = { λ _. refl };
}

impl Spells<CStrKind> for CString {
    ghost spelled = { λ text. text };

    #[inline(always)]
    fn spelled_bytes(&self) -> &[u8] {
        self.as_c_str().to_bytes()
    }
}

impl KindOwned for CStrKind {
    type Static = CStr<'static>;

    type Owned = CString;

    fn copy(alloc: Global, spelling: &[u8]) -> Result<CString, AllocError> {
        let mut bytes = Vec::with_capacity(alloc, spelling.len() + 1)?;
        bytes.extend_from_slice(spelling)?;
        Ok(CString::new(alloc, bytes).unwrap())
    }
}

impl<'a> KindForm<'a> for CStrKind {
    type Form = CStr<'a>;

    #[inline(always)]
    fn lend(content: &'a CStrContent) -> CStr<'a> {
        match content {
            ContentOf::Borrowed(text) => *text,
            ContentOf::Owned(text) => text.as_c_str(),
        }
    }
}

impl From<CStr<'static>> for CStrContent {
    ghost use Rattle.intaglio_content.specs.declared.content_of.ContentOf.TheVariants.{Borrowed};

    ghost from_gives = { λ text content. content ≡ Borrowed text };

    fn from(text: CStr<'static>) -> CStrContent {
        ContentOf::Borrowed(text)
    }
}

impl From<CString> for CStrContent {
    ghost use Rattle.intaglio_content.specs.declared.content_of.ContentOf.TheVariants.{Owned};

    ghost from_gives = { λ text content. content ≡ Owned text };

    fn from(text: CString) -> CStrContent {
        ContentOf::Owned(text)
    }
}
