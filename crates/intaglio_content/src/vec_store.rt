//! A `Vec` of owned contents as the store of a table.
ghost use Rattle.std.specs.Prelude.{◌≡◌, [], vec_capacity, true, false, refl, ⊤, IsSomeAnd};
ghost use Rattle.intaglio_content.specs.ContentOf.{content_bytes};
ghost use Rattle.intaglio_content.specs.Store.{IsMoved, IsPushed};

use crate::content::{Keyed, Sought, Spelled};
use crate::content_of::ContentOf;
use crate::growth::reserve_doubling;
use crate::kind::{KindForm, KindOwned, Packable, Spells};
use crate::store::{
    AddedTo, Copied, CopiedTo, Lends, LookedUpIn, Moved, SoughtIn, SpelledStore, Store,
};
use crate::work::Work;
use std::alloc::{AllocError, Global};
use std::hash::BuildHasher;

impl<C: Keyed> Store for Vec<C> {
    type Content = C;

    type Prepared = Option<C>;

    ghost contents = { λ list. list.items };

    ghost most = { λ list. vec_capacity list };

    ghost spare_bytes = { λ _. 0 };

    ghost takes = { λ _. 0 };

    ghost hashes = { λ _. [] };

    ghost with_hash = { λ _ hashes. hashes };

    ghost is_read = { λ _ _. ⊤ };

    ghost shrink_failed = { λ _. ⊤ };

    fn new(alloc: Global) -> Vec<C> {
        Vec::new(alloc)
    }

    fn with_capacity(alloc: Global, capacity: usize) -> Result<Vec<C>, AllocError> {
        Vec::with_capacity(alloc, capacity)
    }

    fn alloc(&self) -> Global {
        *self.allocator()
    }

    #[inline(always)]
    fn len(&self) -> usize {
        Vec::len(self)
    }

    #[inline(always)]
    fn capacity(&self) -> usize {
        Vec::capacity(self)
    }

    #[inline(always)]
    fn reserve(&mut self, additional: usize) -> Result<(), AllocError> {
        reserve_doubling(self, additional)
    }

    fn truncate(&mut self, n: usize)
    where
        C: Drop,
    {
        Vec::truncate(self, n);
    }

    fn clear(&mut self)
    where
        C: Drop,
    {
        Vec::clear(self);
    }

    fn shrink_to(&mut self, min_capacity: usize) -> Result<(), AllocError> {
        Vec::shrink_to(self, min_capacity);
        if Vec::capacity(self) <= Vec::len(self).max(min_capacity) {
            Ok(())
        } else {
            Err(AllocError)
        }
    }
}

impl<C: Keyed, Q: Sought<C>> SoughtIn<Vec<C>> for Q {
    #[inline(always)]
    fn hash_by<S: BuildHasher>(&self, builder: &S, work: &mut Work) -> u64 {
        self.hash_with(builder, work)
    }

    #[inline(always)]
    fn same_at(&self, store: &Vec<C>, i: usize, read: &[u8], work: &mut Work) -> bool {
        let _ = read;
        self.same_as(&store[i], work)
    }
}

impl<C: Keyed + SoughtIn<Vec<C>> + Drop> AddedTo<Vec<C>, Moved> for C {
    ghost adds = { λ content old new. IsMoved content old new };

    ghost copies = { false };

    ghost needs = { λ _. 0 };

    ghost in_store = { ⊤ };

    ghost is_prepared = { λ _ _. ⊤ };

    ghost moved_needs_none = { λ _ _. refl };

    #[inline(always)]
    fn prepare(&self, store: &mut Vec<C>) -> Result<Option<C>, AllocError> {
        let _ = store;
        Ok(None)
    }

    #[inline(always)]
    fn push(self, hash: u64, prepared: Option<C>, store: &mut Vec<C>) {
        let _ = (hash, prepared);
        store.push_reserved(self);
    }

    ghost adds_one = { λ content old new added. record {
      content = content;
      same_key = refl;
      added = added;
    } };
}

impl<K: KindOwned, Q: Packable<K> + Copy> AddedTo<Vec<ContentOf<K>>, Copied> for Q {
    ghost adds = { λ form. IsPushed (λ c. K.key_of (content_bytes K.Static.spelled K.Owned.spelled c))
        (content_bytes K.Static.spelled K.Owned.spelled) (Q.Keyed.key form) (Q.spelled form) };

    ghost copies = { true };

    ghost needs = { λ _. 0 };

    ghost in_store = { ⊥ };

    ghost is_prepared = { λ form copied. IsSomeAnd copied (λ copy.
        (K.key_of (content_bytes K.Static.spelled K.Owned.spelled copy) ≡ Q.Keyed.key form)
        × (content_bytes K.Static.spelled K.Owned.spelled copy ≡ Q.spelled form)) };

    ghost moved_needs_none = { λ _ _. refl };

    fn prepare(&self, store: &mut Vec<ContentOf<K>>) -> Result<Option<ContentOf<K>>, AllocError> {
        let copy = K::copy(*store.allocator(), self.spelled_bytes())?;
        Ok(Some(ContentOf::Owned(copy)))
    }

    #[inline(always)]
    fn push(self, hash: u64, prepared: Option<ContentOf<K>>, store: &mut Vec<ContentOf<K>>) {
        let _ = hash;
        match prepared {
            Some(copy) => store.push_reserved(copy),
            None => {}
        }
    }

    ghost adds_one = { λ form old new added.
        record { content = added.copy; same_key = added.same_key; added = added.added } };
}

impl<K: KindOwned, Q: Packable<K> + Copy> CopiedTo<Vec<ContentOf<K>>> for Q {
    ghost form_spelling = { λ form. Q.spelled form };

    ghost adds_copy = { λ _ _ _ added. added };

    ghost key_of_form = { λ form. Q.key_of_spelled form };
}

impl<'a, K: KindForm<'a>> Lends<'a> for Vec<ContentOf<K>> {
    type Form = K::Form;

    ghost lent_spelling = { λ form. K.Form.spelled form };

    #[inline(always)]
    fn form_at(&'a self, i: usize) -> K::Form {
        let content = &self[i];
        content.form()
    }
}

impl<C: Spelled> SpelledStore for Vec<C> {
    fn spelling_at(&self, i: usize) -> Option<&[u8]> {
        match self.get(i) {
            None => None,
            Some(content) => Some(content.spelling()),
        }
    }
}

impl<'q, K: KindForm<'q>> LookedUpIn<'q> for Vec<ContentOf<K>> {
    type By = K::Form;
}
