//! Batches of contents or forms.
ghost use Rattle.std.specs.Prelude.{◌≡◌, ◌+◌, length, map, sum_by, IfOk};
ghost use Rattle.intaglio_content.specs.Key.{hash_of};
ghost use Rattle.intaglio_content.specs.Store.{byte_room};
ghost use Rattle.intaglio_interner.specs.State.{first};
ghost use Rattle.intaglio_interner.specs.Batch.{InternsBatch};
ghost use Rattle.intaglio_interner.specs.Bytes.{GrowsBytes, GrowsFor, KeepsBytes};

use super::{Table, TableOver};
use intaglio_core::{
    Content, Indexed, InternError, LookedUpIn, Sought, SoughtIn, Symbol, Work, check_all,
    get_or_intern_all,
};
use std::alloc::AllocError;
use std::hash::BuildHasher;

impl<C: Content + Sought<C> + Drop, S: BuildHasher> Table<C, S> {
    /// Interns a batch of contents, all or none, and returns their symbols in the same order.
    ///
    /// The symbols are those of internings one by one. Each content is hashed once. While the
    /// table has at least 2^14 contents, then in groups of 64 all are hashed before the first is
    /// interned, so the cache misses of several look-ups overlap: that pays if most contents are
    /// in the table, with some dozens of contents at a time. A smaller table stays in the caches,
    /// and there a batch takes about as long as single calls.
    ///
    /// # Errors
    ///
    /// `Overflow` if the table can't hold them all; `Memory` if the allocation of the list of symbols, or of
    /// a growth of the table, fails. After an error the contents of the table are unchanged and its capacity
    /// isn't lower, and the arguments are dropped.
    ///
    /// ```
    /// # use intaglio::{StrContent, Symbol, SymbolTable};
    /// let mut table = SymbolTable::new(rt.alloc())?;
    /// let rows = vec![in rt.alloc(); StrContent::from("b"), StrContent::from("a"), StrContent::from("b")]?;
    /// let symbols = table.intern_all(rows)?;
    /// assert!(rt; symbols.as_slice() == [Symbol::new(0), Symbol::new(1), Symbol::new(0)].as_slice());
    /// ```
    pub fn intern_all(&mut self, contents: Vec<C>) -> Result<Vec<Symbol>, InternError>
        ensures batch { let hash = hash_of S.BuildHasher S.Hasher.Hasher in
            let interns = InternsBatch C.key C.key (λ held. held) (hash self.old.hasher) self.old.state in
            interns (map C.key contents.items) contents.items result (hash self.new.hasher) self.new.state }
        ensures grows { let needed = length self.old.state.contents + length contents.items in
            GrowsFor needed self.old.most self.new.most }
    {
        self.core.intern_all(contents, &mut Work::new())
    }
}

impl<'q, L: LookedUpIn<'q> + Indexed, S: BuildHasher> TableOver<L, S>
where
    L::Content: Content + SoughtIn<L> + Drop,
    L::Prepared: Drop,
{
    /// Looks up a batch of forms, and returns what [`check_interned`](TableOver::check_interned) returns for
    /// each, in the same order.
    ///
    /// Each form is hashed once. If the table has at least 2^14 contents, then in groups of 64 all are
    /// hashed before the first is looked up, so the cache misses of several look-ups overlap: that pays
    /// with some dozens of forms at a time. A smaller table stays in the caches, and there a batch
    /// takes about as long as single calls.
    ///
    /// # Errors
    ///
    /// [`AllocError`] if the allocation of the list of symbols fails.
    ///
    /// ```
    /// # use intaglio::{StrContent, SymbolTable};
    /// let mut table = SymbolTable::new(rt.alloc())?;
    /// let symbol = table.intern(StrContent::from("a"))?;
    /// let found = table.check_all(&["a", "b"])?;
    /// assert!(rt; found.as_slice() == [Some(symbol), None].as_slice());
    /// ```
    pub fn check_all(&self, forms: &[L::By]) -> Result<Vec<Option<Symbol>>, AllocError>
        ensures { let held = self.now.state.contents in
            IfOk result (λ found. found.items ≡ map (λ form. first L.Content.key held (L.By.key form))
            forms.now) }
    {
        check_all(self.core.allocator(), &self.core, forms, &mut Work::new())
    }

    /// Interns a batch of forms, all or none, and returns their symbols in the same
    /// order. Only new forms are copied.
    ///
    /// The symbols are those of [`get_or_intern`](TableOver::get_or_intern) called one by one. Each form is
    /// hashed once, as by [`intern_all`](TableOver::intern_all).
    ///
    /// # Errors
    ///
    /// `Overflow` if the table can't hold them all; `Memory` if the allocation of the list of symbols, of a
    /// copy or of a growth of the table fails. After an error the contents of the table are
    /// unchanged, its capacity isn't lower, and there is no less room for bytes.
    ///
    /// ```
    /// # use intaglio::{Symbol, SymbolTable};
    /// let mut table = SymbolTable::new(rt.alloc())?;
    /// let symbols = table.get_or_intern_all(&["b", "a", "b"])?;
    /// assert!(rt; symbols.as_slice() == [Symbol::new(0), Symbol::new(1), Symbol::new(0)].as_slice());
    /// ```
    pub fn get_or_intern_all(&mut self, forms: &[L::By]) -> Result<Vec<Symbol>, InternError>
        ensures batch { let hash = hash_of S.BuildHasher S.Hasher.Hasher in
            let interns = InternsBatch L.Content.key L.Content.key_of (map L.Content.spelling) in
            interns (hash self.old.hasher) self.old.state (map L.By.key forms.now)
            (map L.By.form_spelling forms.now) result (hash self.new.hasher) self.new.state }
        ensures grows { let needed = length self.old.state.contents + length forms.now in
            GrowsFor needed self.old.most self.new.most }
        ensures grows_bytes { let room = byte_room L.takes in
            GrowsBytes (room self.old.state.contents self.old.spare_bytes)
            (room self.new.state.contents self.new.spare_bytes) }
        ensures bytes { KeepsBytes L.takes (sum_by L.By.needs forms.now) self.old.state.contents
            self.old.spare_bytes result self.new.state.contents self.new.spare_bytes }
    {
        let alloc = self.core.allocator();
        get_or_intern_all(alloc, &mut self.core, forms, &mut Work::new())
    }
}
