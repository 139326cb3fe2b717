//! Interning by a borrowed form.
ghost use Rattle.std.specs.Prelude.{◌≡◌, ◌+◌, ◌<◌, ◌≤◌, ◌↔◌, None, IfOk, IsTrue, length};
ghost use Rattle.intaglio_content.specs.Key.{hash_of};
ghost use Rattle.intaglio_interner.specs.State.{first, IsValid};
ghost use Rattle.intaglio_interner.specs.Cost.{Costs, KnownInternCost};
ghost use Rattle.intaglio_interner.specs.Bytes.{InternsBytes};
ghost use Rattle.intaglio_interner.specs.Change.{InternsValue, InternsForm, IsNotMemory};
ghost use Rattle.intaglio.specs.Added.{symbol_of};
ghost use Rattle.intaglio_interner.specs.Lookup.{FindsInterned};
ghost use Rattle.intaglio_content.specs.Store.{Doubles};

use super::TableOver;
use intaglio_core::{AddedTo, Content, Indexed, InternError, LookedUpIn, Symbol, Work};
use std::hash::BuildHasher;

impl<'q, L: LookedUpIn<'q> + Indexed, S: BuildHasher> TableOver<L, S>
where
    L::Content: Content,
    L::Prepared: Drop,
{
    /// Interns by a form: returns the symbol of the equal content, or else stores a copy of the form.
    ///
    /// The form is hashed once, and copied only if it is new.
    ///
    /// # Errors
    ///
    /// `Overflow` if the form is new and the table holds as many contents as its limit; `Memory`
    /// if it is new and the allocation of the copy, or of a growth of the table, fails. After an
    /// error the contents are unchanged, and there is no less room for bytes.
    ///
    /// ```
    /// # use intaglio::SymbolTable;
    /// let mut table = SymbolTable::new(rt.alloc())?;
    /// let line = String::from_str(rt.alloc(), "to be or not to be")?;
    /// for word in line.split_whitespace() {
    ///     let symbol = table.get_or_intern(word)?;
    ///     let found = table.check_interned(word);
    ///     prove!(found == Some(symbol));
    /// }
    /// assert!(rt; table.len() == 4);
    /// ```
    // Inlined, as `check_interned` is.
    #[inline(always)]
    pub fn get_or_intern(&mut self, form: L::By) -> Result<Symbol, InternError>
        ensures step { let interns = InternsForm L.Content.key L.Content.spelling self.old.state in
            interns (L.By.key form) (L.By.form_spelling form) result self.new.state }
        ensures interned { FindsInterned L.Content.key self.old.state (L.By.key form) result self.new.state }
        ensures bytes { let interns = InternsBytes L.takes L.Content.key (L.By.needs form) (L.By.key form) in
            interns self.old.state self.old.spare_bytes result self.new.state self.new.spare_bytes }
        ensures none_needed { 0 < self.old.state.spare → L.By.in_store →
            L.By.needs form ≤ self.old.spare_bytes →
            IsNotMemory result }
        ensures grows { Doubles (length self.old.state.contents + 1) self.old.most self.new.most }
        ensures hasher { self.new.hasher ≡ self.old.hasher }
        ensures valid { IsValid L.Content.key self.new.state }
    {
        self.core.get_or_intern(form, &mut Work::new())
    }

    /// As [`get_or_intern`](TableOver::get_or_intern), and says whether the form was new.
    ///
    /// # Errors
    ///
    /// Those of [`get_or_intern`](TableOver::get_or_intern).
    ///
    /// ```
    /// # use intaglio::SymbolTable;
    /// let mut table = SymbolTable::new(rt.alloc())?;
    /// let (first, was_new) = table.insert_full("abc")?;
    /// assert!(rt; was_new);
    /// let (again, was_new) = table.insert_full("abc")?;
    /// assert!(rt; again == first && !was_new);
    /// ```
    #[inline(always)]
    pub fn insert_full(&mut self, form: L::By) -> Result<(Symbol, bool), InternError>
        ensures step { let interns = InternsForm L.Content.key L.Content.spelling self.old.state in
            interns (L.By.key form) (L.By.form_spelling form) (symbol_of result) self.new.state }
        ensures interned { let k = L.By.key form in
            FindsInterned L.Content.key self.old.state k (symbol_of result) self.new.state }
        ensures was_new { let old = first L.Content.key self.old.state.contents (L.By.key form) in
            IfOk result (λ added. IsTrue added.1 ↔ (old ≡ None)) }
        ensures bytes { let interns = InternsBytes L.takes L.Content.key (L.By.needs form) (L.By.key form) in
            interns self.old.state self.old.spare_bytes (symbol_of result) self.new.state
            self.new.spare_bytes }
        ensures none_needed { 0 < self.old.state.spare → L.By.in_store →
            L.By.needs form ≤ self.old.spare_bytes →
            IsNotMemory (symbol_of result) }
        ensures grows { Doubles (length self.old.state.contents + 1) self.old.most self.new.most }
        ensures hasher { self.new.hasher ≡ self.old.hasher }
        ensures valid { IsValid L.Content.key self.new.state }
    {
        let count = self.len();
        let symbol = self.get_or_intern(form)?;
        Ok((symbol, self.len() > count))
    }
}

impl<L: Indexed, S: BuildHasher> TableOver<L, S>
where
    L::Content: Content,
    L::Prepared: Drop,
{
    /// As [`get_or_intern`](TableOver::get_or_intern), for a content or a form whose hash is known: nothing
    /// is hashed. Records in `work` what it does, as the call of the same name of `BaseInterner` does.
    ///
    /// # Errors
    ///
    /// Those of [`get_or_intern`](TableOver::get_or_intern).
    #[inline(always)]
    pub fn intern_hashed<H, Q: AddedTo<L, H>>(
        &mut self,
        known_hash: u64,
        value: Q,
        work: &mut Work,
    ) -> Result<Symbol, InternError>
        requires known { known_hash ≡ hash_of S.BuildHasher S.Hasher.Hasher self.old.hasher (Q.key value) }
        ensures step { InternsValue L.Content.key (Q.adds value) Q.copies self.old.state (Q.key value) result
            self.new.state }
        ensures interned { FindsInterned L.Content.key self.old.state (Q.key value) result self.new.state }
        ensures cost { let hash = hash_of S.BuildHasher S.Hasher.Hasher self.old.hasher in
            let cost = KnownInternCost L.Content.key hash self.old.state in
            Costs work.old work.new (cost (Q.key value) result self.new.state) }
        ensures bytes { let interns = InternsBytes L.takes L.Content.key (Q.needs value) (Q.key value) in
            interns self.old.state self.old.spare_bytes result self.new.state self.new.spare_bytes }
        ensures none_needed { 0 < self.old.state.spare → Q.in_store → Q.needs value ≤ self.old.spare_bytes →
            IsNotMemory result }
        ensures grows { Doubles (length self.old.state.contents + 1) self.old.most self.new.most }
        ensures hasher { self.new.hasher ≡ self.old.hasher }
        ensures valid { IsValid L.Content.key self.new.state }
    {
        self.core.intern_hashed(known_hash, value, work)
    }
}
