//! An [`Index`] as the index of a `Vec` of contents.
ghost use Rattle.std.specs.Prelude.{length};
ghost use Rattle.intaglio_core.specs.IndexOf.{state_of, IsOver};

use super::{IndexOf, Indexed};
use intaglio_content::{AddedTo, ByteStore, Content, Keyed, SoughtIn, Store, Work};
use intaglio_index::Index;
use intaglio_symbol::Symbol;
use std::alloc::{AllocError, Global};

impl<C: Keyed> Indexed for Vec<C> {
    type Index = Index;
}

impl<C: Keyed> IndexOf<Vec<C>> for Index {
    ghost state = { λ index _. state_of index };

    ghost is_over = { λ index list. IsOver (length list.items) index };

    fn with_capacity(alloc: Global, capacity: usize) -> Result<(Vec<C>, Index), AllocError> {
        let index = Index::with_buckets(alloc, capacity)?;
        let list = Vec::with_capacity(alloc, capacity)?;
        Ok((list, index))
    }

    #[inline(always)]
    fn room(&self, _list: &Vec<C>) -> usize {
        Index::room(self)
    }

    #[inline(always)]
    fn search<Q: SoughtIn<Vec<C>>>(
        &self,
        list: &Vec<C>,
        hash: u64,
        sought: &Q,
        work: &mut Work,
    ) -> Option<Symbol> {
        let mut candidate = Some(self.find(hash, work)?);
        while let Some(symbol) = candidate {
            if sought.same_at(list, symbol.id() as usize, b"", work) {
                return Some(symbol);
            }
            candidate = self.find_next(symbol, work);
        }
        None
    }

    #[inline(always)]
    fn touch(&self, list: &Vec<C>, hash: u64) -> u8 {
        match self.peek(hash) {
            Some(symbol) => list[symbol.id() as usize].touch(),
            None => 0,
        }
    }

    #[inline(always)]
    fn prepare<H, Q: AddedTo<Vec<C>, H>>(
        &mut self,
        list: &mut Vec<C>,
        value: &Q,
    ) -> Result<Option<C>, AllocError> {
        value.prepare(list)
    }

    #[inline(always)]
    fn make_room(
        &mut self,
        list: &mut Vec<C>,
        limit: usize,
        work: &mut Work,
    ) -> Result<(), AllocError> {
        let count = list.len();
        if count < list.capacity().min(Index::room(self)) {
            return Ok(());
        }
        Store::reserve(list, 1)?;
        let buckets = self.bucket_count();
        if count < buckets {
            return Index::reserve(self, count + 1, work);
        }
        let doubled = limit.min((2 * buckets).max(4));
        Index::reserve(self, doubled, work)
    }

    #[inline(always)]
    fn push<H, Q: AddedTo<Vec<C>, H>>(
        &mut self,
        list: &mut Vec<C>,
        hash: u64,
        symbol: Symbol,
        value: Q,
        prepared: Option<C>,
        work: &mut Work,
    ) {
        self.place(hash, symbol, work);
        value.push(hash, prepared, list);
    }

    fn truncate(&mut self, list: &mut Vec<C>, n: usize)
    where
        C: Drop,
    {
        Store::truncate(list, n);
        self.cut(n);
    }

    fn clear(&mut self, list: &mut Vec<C>)
    where
        C: Drop,
    {
        Store::clear(list);
        Index::clear(self);
    }

    fn reserve(
        &mut self,
        list: &mut Vec<C>,
        additional: usize,
        work: &mut Work,
    ) -> Result<(), AllocError> {
        // For the contract alone: there are at least as many buckets as the room.
        let _ = Index::room(self);
        let total = list.len() + additional;
        Store::reserve(list, additional)?;
        Index::reserve(self, total, work)
    }

    fn shrink_to(&mut self, list: &Vec<C>, kept: usize, work: &mut Work) -> Result<(), AllocError> {
        let _ = list;
        self.rebuild(kept, work)
    }

    fn stays_over(&self, _list: &Vec<C>) {}

    fn reserve_bytes(&mut self, list: &mut Vec<C>, additional: usize) -> Result<(), AllocError>
    where
        Vec<C>: ByteStore<Content = C, Prepared = Option<C>>,
        C: Content,
    {
        list.reserve_bytes(additional)
    }
}
