//! Packed spellings as the store of a table.
ghost use Rattle.std.specs.Prelude.{◌≡◌, [], ◌∷◌, ◌++◌, length, ⊤};
ghost use Rattle.intaglio_records.specs.Records.{hashes_of, strings_of};

use crate::packed::Packed;
use intaglio_content::{
    ByteStore, Lends, LookedUpIn, PackedForm, SpelledStore, Spelling, SpellingStore, Store,
    StringKind,
};
use intaglio_records::StringRecords;
use std::alloc::{AllocError, Global};
use std::marker::PhantomData;

impl<K: StringKind> Store for Packed<K> {
    type Content = Spelling<K>;

    type Prepared = ();

    ghost contents = { λ packed. strings_of packed };

    ghost most = { λ packed. packed.most };

    ghost spare_bytes = { λ packed. packed.spare_bytes };

    ghost takes = { length };

    ghost hashes = { λ packed. hashes_of packed };

    ghost with_hash = { λ hash hashes. hashes ++ hash ∷ [] };

    ghost is_read = { λ spelling bytes. bytes ≡ spelling };

    ghost shrink_failed = { λ _. ⊤ };

    fn new(alloc: Global) -> Packed<K> {
        Packed {
            records: StringRecords::new(alloc),
            kind: PhantomData,
        }
    }

    fn with_capacity(alloc: Global, capacity: usize) -> Result<Packed<K>, AllocError> {
        Ok(Packed {
            records: StringRecords::with_capacity(alloc, capacity, 0)?,
            kind: PhantomData,
        })
    }

    fn alloc(&self) -> Global {
        self.records.alloc()
    }

    #[inline(always)]
    fn len(&self) -> usize {
        self.records.len()
    }

    #[inline(always)]
    fn capacity(&self) -> usize {
        self.records.capacity()
    }

    #[inline(always)]
    fn reserve(&mut self, additional: usize) -> Result<(), AllocError> {
        self.records.reserve_strings(additional)
    }

    fn truncate(&mut self, n: usize) {
        self.records.truncate(n);
    }

    fn clear(&mut self) {
        self.records.clear();
    }

    fn shrink_to(&mut self, min_capacity: usize) -> Result<(), AllocError> {
        self.records.shrink_to(min_capacity)
    }
}

impl<K: StringKind> ByteStore for Packed<K> {
    fn byte_count(&self) -> usize {
        self.records.byte_count()
    }

    fn reserve_bytes(&mut self, additional: usize) -> Result<(), AllocError> {
        self.records.reserve_bytes(additional)
    }
}

impl<K: StringKind> SpellingStore for Packed<K> {
    type SpellingKind = K;

    #[inline(always)]
    fn is_spelling_at(&self, i: usize) {
        let _ = self.records.len();
        let _ = i;
    }

    fn push_spelling(&mut self, hash: u64, spelling: &[u8]) {
        self.records.push_hashed(hash, spelling);
    }

    ghost reads = { λ _ _ same. same };
}

impl<'a, K: PackedForm<'a>> Lends<'a> for Packed<K> {
    type Form = K::Form;

    ghost lent_spelling = { λ form. K.Form.spelled form };

    #[inline(always)]
    fn form_at(&'a self, i: usize) -> K::Form {
        K::form_of(self.string(i))
    }
}

impl<K: StringKind> SpelledStore for Packed<K> {
    fn spelling_at(&self, i: usize) -> Option<&[u8]> {
        self.records.get(i)
    }
}

impl<'q, K: PackedForm<'q>> LookedUpIn<'q> for Packed<K> {
    type By = K::Form;
}
