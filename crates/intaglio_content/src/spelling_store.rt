//! Lists of spellings as the stores of tables: values are looked up in them, and added to them, by their
//! spellings.
ghost use Rattle.std.specs.Prelude.{◌≡◌, ◌+◌, ◌<◌, ◌≤◌, ℕ, List, [], ◌∷◌, ◌++◌, length, slice_get, true, IfSome, ⊤};
ghost use Rattle.std.proofs.lemmas.Bool.{true≢false};
ghost use Rattle.intaglio_content.specs.Store.{byte_room, IsPushed};

use crate::content::Keyed;
use crate::kind::{Packable, Spells, StringKind};
use crate::spelling::Spelling;
use crate::store::{AddedTo, ByteStore, Copied, CopiedTo, SoughtIn, Store};
use crate::work::Work;
use std::alloc::AllocError;
use std::hash::{BuildHasher, Hasher};
use std::marker::PhantomData;

/// A list of spellings of one kind, such as strings in one buffer.
pub trait SpellingStore: ByteStore<Content = Spelling<Self::SpellingKind>, Prepared = ()> {
    /// The kind of the spellings.
    type SpellingKind: StringKind;

    /// For contracts alone: what is kept at a position is a spelling.
    fn is_spelling_at(&self, i: usize)
        requires { i < length (Self.contents self.now) }
        ensures { IfSome (slice_get (Self.contents self.now) i) Self.SpellingKind.is_spelling };

    /// Adds a spelling of a content whose key has this hash. Nothing is allocated.
    fn push_spelling(&mut self, hash: u64, spelling: &[u8])
        requires kind { Self.SpellingKind.is_spelling spelling.now }
        requires room { length (Self.contents self.old) < Self.most self.old }
        requires bytes { length spelling.now ≤ Self.spare_bytes self.old }
        ensures contents { Self.contents self.new ≡ Self.contents self.old ++ spelling.now ∷ [] }
        ensures hashes { Self.hashes self.new ≡ Self.with_hash hash (Self.hashes self.old) }
        ensures most { Self.most self.new ≡ Self.most self.old }
        ensures spare_bytes { Self.spare_bytes self.old ≤ Self.spare_bytes self.new + length spelling.now }
        ensures byte_room { byte_room Self.takes (Self.contents self.new) (Self.spare_bytes self.new)
            ≡ byte_room Self.takes (Self.contents self.old) (Self.spare_bytes self.old) };

    ghost reads: { (spelling bytes : List ℕ) → Self.is_read spelling bytes → bytes ≡ spelling };
}

// The bytes of a stored spelling, as a value with a key.
#[derive(Drop)]
struct Stored<'a, K: StringKind> {
    bytes: &'a [u8],
    kind: PhantomData<K>,
}

impl<'a, K: StringKind> Keyed for Stored<'a, K> {
    ghost key = { λ stored. K.key_of stored.bytes.now };
}

impl<L: SpellingStore, Q: Packable<L::SpellingKind>> SoughtIn<L> for Q {
    // Inlined, so that the hasher's state stays in registers.
    #[inline(always)]
    fn hash_by<S: BuildHasher>(&self, builder: &S, work: &mut Work) -> u64 {
        work.hashed(self);
        let mut hasher = builder.build_hasher();
        <L::SpellingKind as StringKind>::feed_spelling(self.spelled_bytes(), &mut hasher);
        hasher.finish()
    }

    #[inline(always)]
    fn same_at(&self, store: &L, i: usize, read: &[u8], work: &mut Work) -> bool {
        store.is_spelling_at(i);
        work.compared(
            self,
            &Stored {
                bytes: read,
                kind: PhantomData::<L::SpellingKind>,
            },
        );
        <L::SpellingKind as StringKind>::same_spellings(self.spelled_bytes(), read)
    }
}

impl<L: SpellingStore, Q: Packable<L::SpellingKind> + Drop> AddedTo<L, Copied> for Q {
    ghost adds = { λ value. IsPushed L.SpellingKind.key_of (λ w. w) (Q.Keyed.key value) (Q.spelled value) };

    ghost copies = { true };

    ghost needs = { λ value. length (Q.spelled value) };

    ghost in_store = { ⊤ };

    ghost is_prepared = { λ _ _. ⊤ };

    ghost moved_needs_none = { λ _ no. absurd (true≢false no) };

    fn prepare(&self, store: &mut L) -> Result<(), AllocError> {
        store.reserve_bytes(self.spelled_bytes().len())
    }

    fn push(self, hash: u64, prepared: (), store: &mut L) {
        let _ = prepared;
        store.push_spelling(hash, self.spelled_bytes());
    }

    ghost adds_one = { λ value old new added.
        record { content = added.copy; same_key = added.same_key; added = added.added } };
}

impl<L: SpellingStore, Q: Packable<L::SpellingKind> + Copy> CopiedTo<L> for Q {
    ghost form_spelling = { λ form. Q.spelled form };

    ghost adds_copy = { λ _ _ _ added. added };

    ghost key_of_form = { λ form. Q.key_of_spelled form };
}
