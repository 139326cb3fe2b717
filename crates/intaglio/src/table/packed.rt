//! The calls that only tables in one buffer have.
ghost use Rattle.std.specs.Prelude.{◌≡◌, ◌≤◌, length, map, sum_by, IsOk, OnErr, OnOk};
ghost use Rattle.intaglio_content.specs.Store.{DoublesByteRoom};
ghost use Rattle.intaglio_interner.specs.State.{IsValid};

mod contents;
mod making;

use super::TableOver;
use intaglio_core::{ByteStore, Content, Indexed};
use std::alloc::AllocError;
use std::hash::BuildHasher;

impl<L: ByteStore + Indexed, S: BuildHasher> TableOver<L, S>
where
    L::Content: Content,
{
    /// The number of bytes of all contents together.
    pub fn byte_count(&self) -> usize
        ensures { result ≡ sum_by length (map L.Content.spelling self.now.state.contents) }
    {
        self.core.byte_count()
    }

    /// Makes room for this many more bytes of contents. If the buffer has to grow, its room at least doubles.
    /// While there is spare capacity too, which [`reserve`](TableOver::reserve) makes, to intern a string
    /// whose bytes fit never fails for memory.
    ///
    /// # Errors
    ///
    /// [`AllocError`] if the allocation fails. Then nothing has changed.
    ///
    /// ```
    /// # use intaglio::packed::SymbolTable;
    /// let mut table = SymbolTable::new(rt.alloc())?;
    /// table.reserve(2)?;
    /// table.reserve_bytes(7)?;
    /// let symbol = table.get_or_intern("abc")?;
    /// assert!(rt; table.byte_count() == 3);
    /// ```
    pub fn reserve_bytes(&mut self, additional: usize) -> Result<(), AllocError>
        ensures state { self.new.state ≡ self.old.state }
        ensures most { self.new.most ≡ self.old.most }
        ensures grows { let grows = DoublesByteRoom L.takes additional self.old.state.contents
            self.old.spare_bytes in
            grows self.new.state.contents self.new.spare_bytes }
        ensures bytes { OnOk result (additional ≤ self.new.spare_bytes) }
        ensures no_less { self.old.spare_bytes ≤ self.new.spare_bytes }
        ensures err { OnErr result (self.new ≡ self.old) }
        ensures none_needed { additional ≤ self.old.spare_bytes → IsOk result }
        ensures hasher { self.new.hasher ≡ self.old.hasher }
        ensures valid { IsValid L.Content.key self.new.state }
    {
        self.core.reserve_bytes(additional)
    }
}
