//! What a table stores, and its key.
ghost use Rattle.std.specs.Prelude.{◌≡◌, ℕ, List, [], ◌∷◌, ◌++◌, ◌↔◌, IsTrue};
ghost use Rattle.intaglio_content.specs.Key.{Key, hash_of};
ghost use Rattle.intaglio_content.specs.Work.{hashed, compared};
ghost use Rattle.bstr.specs.BStr.{bstr_bytes};

use crate::work::Work;
use bstr::BStr;
use std::hash::BuildHasher;

/// A value with a key, a list of byte lists. Values are equal if their keys are.
pub trait Keyed {
    ghost key: { Self → Key };

    /// Reads a byte that a comparison of this value will read, so that it is in the cache then. The byte
    /// itself means nothing. A type need not have this: by default nothing is read.
    #[inline(always)]
    fn touch(&self) -> u8 {
        0
    }
}

/// A value that a table stores. Its spelling is the bytes that it was made from, and
/// its key is computed from them.
pub trait Content: Keyed {
    ghost spelling: { Self → List ℕ };

    ghost key_of: { List ℕ → Key };

    ghost key_of_spelling: { (c : Self) → Self.key c ≡ key_of (spelling c) };
}

/// A content whose spelling can be read.
pub trait Spelled: Content {
    /// The bytes of the spelling.
    fn spelling(&self) -> &[u8]
        ensures { result.now ≡ Self.spelling self.now };
}

/// A value that can be looked up among contents of type `C`.
pub trait Sought<C: Keyed>: Keyed {
    /// Hashes the key with a new hasher of the builder, and returns the result.
    fn hash_with<S: BuildHasher>(&self, builder: &S, work: &mut Work) -> u64
        ensures hash { result ≡ hash_of S.BuildHasher S.Hasher.Hasher builder.now (Self.key self.now) }
        ensures event { work.new.events ≡ work.old.events ++ hashed (Self.key self.now) ∷ [] };

    /// Whether the keys of `self` and of the stored content are equal.
    fn same_as(&self, stored: &C, work: &mut Work) -> bool
        ensures same { IsTrue result ↔ (Self.key self.now ≡ C.key stored.now) }
        ensures event { work.new.events
            ≡ work.old.events ++ compared (Self.key self.now) (C.key stored.now) ∷ [] };
}

impl Keyed for &str {
    ghost key = { λ text. text.now ∷ [] };
}

impl Keyed for &[u8] {
    ghost key = { λ bytes. bytes.now ∷ [] };
}

impl<'a> Keyed for BStr<'a> {
    ghost key = { λ string. bstr_bytes string ∷ [] };
}
