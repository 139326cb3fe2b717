//! Contents of a kind.
ghost use Rattle.std.specs.Prelude.{◌≡◌, refl};
ghost use Rattle.intaglio_content.specs.ContentOf.{content_bytes};
ghost use Rattle.intaglio_content.specs.declared.content_of.ContentOf.TheVariants.{Borrowed, Owned};

use crate::content::{Content, Keyed, Sought, Spelled};
use crate::kind::{KindForm, KindOwned, Packable, Spells};
use crate::work::Work;
use bstr::{BStr, BString};
use std::hash::{BuildHasher, Hasher};

/// A string of the kind `K` that a table stores, as it was passed in.
#[derive(Drop)]
pub enum ContentOf<K: KindOwned> {
    /// A string with the lifetime `'static`.
    Borrowed(K::Static),
    /// An owned string.
    Owned(K::Owned),
}

impl<K: KindOwned> ContentOf<K> {
    /// The bytes of the spelling.
    #[inline(always)]
    pub fn spelling(&self) -> &[u8]
        ensures spelling { result.now ≡ content_bytes K.Static.spelled K.Owned.spelled self.now }
        ensures kind { K.is_spelling result.now }
    {
        match self {
            ContentOf::Borrowed(text) => text.spelled_bytes(),
            ContentOf::Owned(text) => text.spelled_bytes(),
        }
    }
}

impl<'a, K: KindForm<'a>> ContentOf<K> {
    /// The string, borrowed.
    #[inline(always)]
    pub fn form(&'a self) -> K::Form
        ensures { K.Form.spelled result ≡ content_bytes K.Static.spelled K.Owned.spelled self.now }
    {
        K::lend(self)
    }
}

impl<K: KindOwned> Keyed for ContentOf<K> {
    ghost key = { λ content. K.key_of (content_bytes K.Static.spelled K.Owned.spelled content) };

    #[inline(always)]
    fn touch(&self) -> u8 {
        ContentOf::spelling(self).first().copied().unwrap_or(0)
    }
}

impl<K: KindOwned> Content for ContentOf<K> {
    ghost spelling = { content_bytes K.Static.spelled K.Owned.spelled };

    ghost key_of = { λ bytes. K.key_of bytes };

    ghost key_of_spelling = { λ _. refl };
}

impl<K: KindOwned> Spelled for ContentOf<K> {
    #[inline(always)]
    fn spelling(&self) -> &[u8] {
        ContentOf::spelling(self)
    }
}

impl<K: KindOwned, Q: Packable<K>> Sought<ContentOf<K>> for Q {
    // Inlined, so that the hasher's state stays in registers.
    #[inline(always)]
    fn hash_with<S: BuildHasher>(&self, builder: &S, work: &mut Work) -> u64 {
        work.hashed(self);
        let mut hasher = builder.build_hasher();
        K::feed_spelling(self.spelled_bytes(), &mut hasher);
        hasher.finish()
    }

    #[inline(always)]
    fn same_as(&self, stored: &ContentOf<K>, work: &mut Work) -> bool {
        work.compared(self, stored);
        K::same_spellings(self.spelled_bytes(), ContentOf::spelling(stored))
    }
}

impl<K: KindOwned> Spells<K> for ContentOf<K> {
    ghost spelled = { content_bytes K.Static.spelled K.Owned.spelled };

    #[inline(always)]
    fn spelled_bytes(&self) -> &[u8] {
        ContentOf::spelling(self)
    }
}

impl<K: KindOwned> Packable<K> for ContentOf<K> {
    ghost key_of_spelled = { λ _. refl };
}

impl<K: KindOwned<Static = &'static str>> From<&'static str> for ContentOf<K> {
    ghost from_gives = { λ text content. content ≡ Borrowed text };

    fn from(text: &'static str) -> ContentOf<K> {
        ContentOf::Borrowed(text)
    }
}

impl<K: KindOwned<Owned = String>> From<String> for ContentOf<K> {
    ghost from_gives = { λ text content. content ≡ Owned text };

    fn from(text: String) -> ContentOf<K> {
        ContentOf::Owned(text)
    }
}

impl<K: KindOwned<Static = &'static [u8]>> From<&'static [u8]> for ContentOf<K> {
    ghost from_gives = { λ text content. content ≡ Borrowed text };

    fn from(text: &'static [u8]) -> ContentOf<K> {
        ContentOf::Borrowed(text)
    }
}

impl<K: KindOwned<Owned = Vec<u8>>> From<Vec<u8>> for ContentOf<K> {
    ghost from_gives = { λ text content. content ≡ Owned text };

    fn from(text: Vec<u8>) -> ContentOf<K> {
        ContentOf::Owned(text)
    }
}

impl<K: KindOwned<Static = BStr<'static>>> From<BStr<'static>> for ContentOf<K> {
    ghost from_gives = { λ text content. content ≡ Borrowed text };

    fn from(text: BStr<'static>) -> ContentOf<K> {
        ContentOf::Borrowed(text)
    }
}

impl<K: KindOwned<Owned = BString>> From<BString> for ContentOf<K> {
    ghost from_gives = { λ text content. content ≡ Owned text };

    fn from(text: BString) -> ContentOf<K> {
        ContentOf::Owned(text)
    }
}
