//! How a frozen table becomes one that grows.
ghost use Rattle.std.specs.Prelude.{◌≡◌, ◌^◌, IfOk, IfErr};
ghost use Rattle.intaglio_content.specs.Key.{hash_of};
ghost use Rattle.intaglio_interner.specs.Batch.{IfOverflow};

use crate::frozen::Frozen;
use crate::merging::{absorb_bytes, table_for};
use intaglio::TableOver;
use intaglio_bytes::bytes::BytesKind;
use intaglio_packed::Packed;
use intaglio_symbol::InternError;
use std::alloc::Global;
use std::hash::BuildHasher;

impl<'a> Frozen<'a> {
    /// A packed table of the same strings, with the same symbols. Each string is copied.
    ///
    /// # Errors
    ///
    /// Only `Memory`, if an allocation fails.
    ///
    /// ```
    /// # use intaglio::packed::bytes::SymbolTable;
    /// # use intaglio_frozen::{Frozen, FrozenKind, freeze};
    /// # use intaglio_hash::FixedState;
    /// # let mut words = SymbolTable::new(rt.alloc())?;
    /// # let symbol = words.get_or_intern(b"abc")?;
    /// let bytes = freeze(rt.alloc(), &words, FrozenKind::Bytes, 1, 2)?;
    /// let frozen = Frozen::open(&bytes)?;
    /// let thawed: SymbolTable = frozen.thaw(rt.alloc(), FixedState)?;
    /// assert!(rt; thawed.get(symbol) == Some(b"abc".as_slice()));
    /// ```
    pub fn thaw<S: BuildHasher + Drop>(
        &self,
        alloc: Global,
        hasher: S,
    ) -> Result<TableOver<Packed<BytesKind>, S>, InternError>
        ensures strings { IfOk result (λ thawed. thawed.state.contents ≡ self.now) }
        ensures limit { IfOk result (λ thawed. thawed.state.limit ≡ 2 ^ 32) }
        ensures hash { let hash = hash_of S.BuildHasher S.Hasher.Hasher in
            IfOk result (λ thawed. hash thawed.hasher ≡ hash hasher) }
        ensures only_memory { IfErr result (λ e. IfOverflow e ⊥) }
    {
        // For the contract alone: the strings are distinct, and at most 2^32.
        let _strings = self.distinct_strings();
        let mut thawed = table_for(alloc, 0, hasher)?;
        let _symbols = absorb_bytes(alloc, &mut thawed, self)?;
        Ok(thawed)
    }
}
