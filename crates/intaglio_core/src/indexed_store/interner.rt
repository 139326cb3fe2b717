//! Implements what every symbol table does, for a store with an index.
ghost use Rattle.intaglio_content.specs.Key.{hash_of};

use super::{Core, IndexedStore};
use crate::index_of::Indexed;
use intaglio_content::{AddedTo, Content, Sought, SoughtIn, Work};
use intaglio_interner::{BaseInterner, Interner};
use intaglio_symbol::{InternError, Mark, RoomError, StaleMark, Symbol};
use std::hash::BuildHasher;

impl<L: Indexed, S: BuildHasher> BaseInterner for IndexedStore<L, S>
where
    L::Content: Content + SoughtIn<L> + Drop,
    L::Prepared: Drop,
{
    type Content = L::Content;

    type Prepared = L::Prepared;

    type Store = L;

    ghost state = { λ t. t.state };

    ghost most = { λ t. t.most };

    ghost spare_bytes = { λ t. t.spare_bytes };

    ghost hash = { λ t. hash_of S.BuildHasher S.Hasher.Hasher t.hasher };

    #[inline(always)]
    fn hash_counted<Q: SoughtIn<L>>(&self, sought: &Q, work: &mut Work) -> u64 {
        sought.hash_by(self.hasher(), work)
    }

    fn intern_hashed<H, Q: AddedTo<L, H>>(
        &mut self,
        known_hash: u64,
        value: Q,
        work: &mut Work,
    ) -> Result<Symbol, InternError> {
        IndexedStore::intern_hashed(self, known_hash, value, work)
    }

    #[inline(always)]
    fn search_hashed<Q: SoughtIn<L>>(
        &self,
        known_hash: u64,
        sought: &Q,
        work: &mut Work,
    ) -> Option<Symbol> {
        IndexedStore::search_hashed(self, known_hash, sought, work)
    }

    fn touch_hashed(&self, known_hash: u64) -> u8 {
        IndexedStore::touch_hashed(self, known_hash)
    }

    fn search_counted<Q: SoughtIn<L>>(&self, sought: &Q, work: &mut Work) -> Option<Symbol> {
        self.search(sought, work)
    }

    fn reserve_counted(&mut self, additional: usize, work: &mut Work) -> Result<(), RoomError> {
        IndexedStore::reserve_counted(self, additional, work)
    }

    fn shrink_counted(&mut self, min_capacity: usize, work: &mut Work) -> Result<(), RoomError> {
        IndexedStore::shrink_counted(self, min_capacity, work)
    }

    fn store(&self) -> &L {
        // What `valid` says is known from here on.
        let _count = self.len();
        IndexedStore::store(self)
    }

    #[inline(always)]
    fn count(&self) -> usize {
        self.len()
    }

    fn empty(&mut self) {
        self.clear();
    }

    fn mark(&self) -> Mark {
        IndexedStore::mark(self)
    }

    fn take_back(&mut self, mark: Mark) -> Result<(), StaleMark> {
        IndexedStore::take_back(self, mark)
    }
}

impl<C: Content + Sought<C> + Drop, S: BuildHasher> Interner for Core<C, S> {
    fn intern_counted(&mut self, content: C, work: &mut Work) -> Result<Symbol, InternError> {
        self.intern(content, work)
    }

    fn content(&self, symbol: Symbol) -> Option<&C> {
        self.get(symbol)
    }
}
