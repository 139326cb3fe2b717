//! Byte strings as contents.
ghost use Rattle.std.specs.Prelude.{[], ◌∷◌, refl, ⊤};

use intaglio_content::{
    ContentOf, KindForm, KindOwned, Packable, PackedForm, Spells, StringKind, feed_item, same_bytes,
};
use std::alloc::{AllocError, Global};
use std::hash::Hasher;

/// The kind of byte strings.
pub struct BytesKind;

/// A byte string that a table stores: a `&'static [u8]` or a `Vec<u8>`.
pub type BytesContent = ContentOf<BytesKind>;

impl StringKind for BytesKind {
    ghost key_of = { λ bytes. bytes ∷ [] };

    ghost is_spelling = { λ _. ⊤ };

    #[inline(always)]
    fn feed_spelling<H: Hasher>(spelling: &[u8], hasher: &mut H) {
        feed_item(spelling, hasher);
    }

    #[inline(always)]
    fn same_spellings(a: &[u8], b: &[u8]) -> bool {
        same_bytes(a, b)
    }
}

impl Spells<BytesKind> for &[u8] {
    ghost spelled = { λ bytes. bytes.now };

    #[inline(always)]
    fn spelled_bytes(&self) -> &[u8] {
        *self
    }
}

impl Packable<BytesKind> for &[u8] {
    ghost key_of_spelled = { λ _. refl };
}

impl Spells<BytesKind> for Vec<u8> {
    ghost spelled = { λ bytes. bytes.items };

    #[inline(always)]
    fn spelled_bytes(&self) -> &[u8] {
        self.as_slice()
    }
}

impl KindOwned for BytesKind {
    type Static = &'static [u8];

    type Owned = Vec<u8>;

    fn copy(alloc: Global, spelling: &[u8]) -> Result<Vec<u8>, AllocError> {
        Vec::from_slice(alloc, spelling)
    }
}

impl<'a> KindForm<'a> for BytesKind {
    type Form = &'a [u8];

    #[inline(always)]
    fn lend(content: &'a BytesContent) -> &'a [u8] {
        content.spelling()
    }
}

impl<'a> PackedForm<'a> for BytesKind {
    #[inline(always)]
    fn form_of(spelling: &'a [u8]) -> &'a [u8] {
        spelling
    }
}
