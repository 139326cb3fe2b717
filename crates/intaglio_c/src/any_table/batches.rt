//! Batches of strings.
ghost use Rattle.std.specs.Prelude.{◌≡◌};
ghost use Rattle.intaglio_c.specs.Cited.{length, CopiesEach, InternsAll, InternsOr, IsBegun, IsRolledBack, Absorbs, TakesStep, contents_of};

use super::AnyTable;
use crate::batch::{Batch, is_batch};
use crate::refusal::Refusal;
use intaglio_core::{GROUP, Mark, Symbol};
use intaglio_frozen::ahead::look_ahead;
use intaglio_frozen::{Block, StringList};

impl AnyTable {
    // Interns strings in order, up to the first that fails.
    fn intern_each<L: StringList>(&mut self, list: &L, symbols: &mut [u32]) -> Result<(), Refusal>
        requires places { length symbols.old ≡ length (L.strings list.now) }
        ensures step { TakesStep self.old self.new result
            (InternsOr IsBegun (L.strings list.now) symbols.new) }
    {
        let mut hashes = [0u64; GROUP];
        let mut used = GROUP;
        for i in 0..symbols.len() {
            used = look_ahead(&*self, list, i, &mut hashes, used);
            match self.intern(hashes[used], list.string(i)) {
                Ok(symbol) => symbols[i] = symbol.id(),
                Err(refusal) => return Err(refusal),
            }
            used += 1;
        }
        Ok(())
    }

    // Interns strings, all or none.
    fn intern_list<L: StringList>(&mut self, list: &L, symbols: &mut [u32]) -> Result<(), Refusal>
        requires places { length symbols.old ≡ length (L.strings list.now) }
        ensures step { TakesStep self.old self.new result
            (InternsOr IsRolledBack (L.strings list.now) symbols.new) }
    {
        let mark = Mark::new(self.len());
        let answer = self.intern_each(list, symbols);
        if answer.is_err() {
            let _ = self.take_back(mark);
        }
        answer
    }

    // Interns the strings of a batch, all or none.
    pub(crate) fn intern_all(
        &mut self,
        bytes: &[u8],
        ends: &[usize],
        symbols: &mut [u32],
    ) -> Result<(), Refusal>
        ensures step { TakesStep self.old self.new result
            (InternsAll bytes.now ends.now symbols.old symbols.new) }
    {
        if !is_batch(bytes, ends, symbols.len()) {
            return Err(Refusal::BadEnds);
        }
        self.intern_list(&Batch { bytes, ends }, symbols)
    }

    // Interns all strings of a frozen table, or none.
    pub(crate) fn absorb(&mut self, frozen: &[u8], symbols: &mut [u32]) -> Result<(), Refusal>
        ensures step { TakesStep self.old self.new result (Absorbs frozen.now symbols.old symbols.new) }
    {
        let block = Block::read(frozen)?;
        if symbols.len() != StringList::len(&block) {
            return Err(Refusal::BadEnds);
        }
        self.intern_list(&block, symbols)
    }

    // Copies the strings of symbols to the start of a buffer, and writes the end of each.
    pub(crate) fn copy_each(
        &self,
        symbols: &[u32],
        buffer: &mut [u8],
        ends: &mut [usize],
    ) -> Result<(), Refusal>
        requires places { length ends.old ≡ length symbols.now }
        ensures copied { CopiesEach
            (contents_of self.now) symbols.now buffer.old ends.old result buffer.new ends.new }
    {
        let mut start = 0;
        for (i, &symbol) in symbols.iter().enumerate() {
            let Some(bytes) = self.bytes_at(Symbol::new(symbol)) else {
                return Err(Refusal::NoSymbol);
            };
            if buffer.len() - start < bytes.len() {
                return Err(Refusal::NoSpace);
            }
            let end = start + bytes.len();
            buffer[start..end].copy_from_slice(bytes);
            ends[i] = end;
            start = end;
        }
        Ok(())
    }
}
