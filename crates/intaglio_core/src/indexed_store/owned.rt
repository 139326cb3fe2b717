//! Tables of owned contents, which are kept in a `Vec`.
ghost use Rattle.std.specs.Prelude.{◌≡◌, ◌+◌, ◌^◌, ◌≤◌, false, length, map, slice_get};
ghost use Rattle.std.specs.Prelude.{option_copied, IfSome, IfOk, IfErr};
ghost use Rattle.intaglio_content.specs.Key.{hash_of};
ghost use Rattle.intaglio_content.specs.Store.{Doubles, IsMoved};
ghost use Rattle.intaglio_interner.specs.State.{IsValid};
ghost use Rattle.intaglio_interner.specs.Change.{Interns};
ghost use Rattle.intaglio_interner.specs.Lookup.{IsFound, FindsInterned};
ghost use Rattle.intaglio_interner.specs.Cost.{Costs, InternCost};
ghost use Rattle.intaglio_interner.specs.Bytes.{GrowsFor};
ghost use Rattle.intaglio_interner.specs.Batch.{InternsAll, InternsBatch, RefusedCost};

use super::Core;
use intaglio_content::{Content, Keyed, Sought, Work};
use intaglio_interner::intern_all;
use intaglio_symbol::{InternError, Symbol};
use std::hash::BuildHasher;

impl<C: Keyed, S: BuildHasher> Core<C, S> {
    /// The content of a symbol.
    pub fn get(&self, symbol: Symbol) -> Option<&C>
        ensures content { option_copied result ≡ slice_get self.now.state.contents symbol }
        ensures found { IfSome result (λ content. IsFound C.key self.now.state (C.key content.now) symbol) }
        ensures valid { IsValid C.key self.now.state }
    {
        self.list.get(symbol.id() as usize)
    }

    /// The contents in the order of their symbols.
    pub fn contents(&self) -> &[C]
        ensures all { result.now ≡ self.now.state.contents }
        ensures bound { length result.now ≤ 2 ^ 32 }
    {
        &self.list
    }

    /// Interns the content: returns the symbol of an equal one, or else stores it.
    ///
    /// Afterwards a look-up of the content finds this symbol, and the symbol's content has its
    /// key. Every symbol that was issued before keeps its content, and look-ups of other keys
    /// return what they returned before.
    ///
    /// Costs one hashing, also if the buckets grow: they store each content's hash.
    ///
    /// # Errors
    ///
    /// `Overflow` if the content is new and the table holds as many as its limit; `Memory` if the table has
    /// to grow and an allocation fails, which never happens while [`capacity`](Core::capacity) is above
    /// [`len`](Core::len). Then the contents are unchanged, and the argument is dropped.
    pub fn intern(&mut self, content: C, work: &mut Work) -> Result<Symbol, InternError>
    where
        C: Sought<C> + Drop,
        ensures step { Interns C.key self.old.state content result self.new.state }
        ensures interned { FindsInterned C.key self.old.state (C.key content) result self.new.state }
        ensures grows { Doubles (length self.old.state.contents + 1) self.old.most self.new.most }
        ensures cost { let hash = hash_of S.BuildHasher S.Hasher.Hasher self.old.hasher in
            let cost = InternCost C.key hash self.old.state in
            Costs work.old work.new (cost (C.key content) result self.new.state) }
        ensures hasher { self.new.hasher ≡ self.old.hasher }
        ensures valid { IsValid C.key self.new.state }
    {
        self.get_or_intern(content, work)
    }

    /// Interns a batch of contents, as [`intern_all`] does.
    ///
    /// # Errors
    ///
    /// Those of [`intern_all`].
    pub fn intern_all(
        &mut self,
        contents: Vec<C>,
        work: &mut Work,
    ) -> Result<Vec<Symbol>, InternError>
    where
        C: Content + Sought<C> + Drop,
        // As internings one by one, but hashed ahead in groups where the table is large.
        ensures ok { IfOk result (λ symbols. Costs work.old work.new (λ cost.
            InternsAll C.key C.key IsMoved false (hash_of S.BuildHasher S.Hasher.Hasher self.old.hasher)
            self.old.state contents.items symbols.items cost self.new.state)) }
        ensures batch { let hash = hash_of S.BuildHasher S.Hasher.Hasher in
            let interns = InternsBatch C.key C.key (λ held. held) (hash self.old.hasher) self.old.state in
            interns (map C.key contents.items) contents.items result (hash self.new.hasher) self.new.state }
        ensures refused_cost { IfErr result (λ e. Costs work.old work.new
            (RefusedCost C.key C.key IsMoved false (hash_of S.BuildHasher S.Hasher.Hasher self.old.hasher)
            self.old.state
            contents.items e)) }
        ensures grows { let needed = length self.old.state.contents + length contents.items in
            GrowsFor needed self.old.most self.new.most }
    {
        let alloc = self.allocator();
        intern_all(alloc, self, contents, work)
    }
}
