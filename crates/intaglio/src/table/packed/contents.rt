//! Owned contents that are interned into one buffer.
ghost use Rattle.std.specs.Prelude.{◌≡◌, ◌+◌, ◌<◌, ◌≤◌, length};
ghost use Rattle.intaglio_content.specs.ContentOf.{content_bytes};
ghost use Rattle.intaglio_interner.specs.State.{IsValid};
ghost use Rattle.intaglio_interner.specs.Bytes.{InternsBytes};
ghost use Rattle.intaglio_interner.specs.Change.{InternsForm, IsNotMemory};
ghost use Rattle.intaglio_interner.specs.Lookup.{FindsInterned};
ghost use Rattle.intaglio_content.specs.Store.{Doubles};

use crate::table::TableOver;
use intaglio_content::{ContentOf, KindOwned, Spells};
use intaglio_core::{InternError, Symbol, Work};
use intaglio_packed::Packed;
use std::hash::BuildHasher;

impl<K: KindOwned, S: BuildHasher> TableOver<Packed<K>, S> {
    /// Interns the content: returns the symbol of an equal one, or else copies it into the buffer. Then it is
    /// dropped. [`get_or_intern`](TableOver::get_or_intern) does the same with a borrowed one.
    ///
    /// # Errors
    ///
    /// Those of [`get_or_intern`](TableOver::get_or_intern).
    pub fn intern(&mut self, content: ContentOf<K>) -> Result<Symbol, InternError>
        ensures step { let w = content_bytes K.Static.spelled K.Owned.spelled content in
            InternsForm K.key_of (λ w. w) self.old.state (K.key_of w) w result self.new.state }
        ensures interned { let w = content_bytes K.Static.spelled K.Owned.spelled content in
            FindsInterned K.key_of self.old.state (K.key_of w) result self.new.state }
        ensures bytes { let w = content_bytes K.Static.spelled K.Owned.spelled content in
            let interns = InternsBytes length K.key_of (length w) (K.key_of w) in
            interns self.old.state self.old.spare_bytes result self.new.state self.new.spare_bytes }
        ensures none_needed { let w = content_bytes K.Static.spelled K.Owned.spelled content in
            0 < self.old.state.spare → length w ≤ self.old.spare_bytes → IsNotMemory result }
        ensures grows { Doubles (length self.old.state.contents + 1) self.old.most self.new.most }
        ensures hasher { self.new.hasher ≡ self.old.hasher }
        ensures valid { IsValid K.key_of self.new.state }
    {
        self.core.get_or_intern(content, &mut Work::new())
    }
}
