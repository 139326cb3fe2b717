//! Constructors with the hash builder that tables in one buffer have by default.
ghost use Rattle.std.specs.Prelude.{◌≡◌, ◌^◌, ◌<◌, ◌↔◌, [], Err, IfOk, IsOk};
ghost use Rattle.intaglio_symbol.specs.declared.error.RoomError.TheVariants.{CapacityOverflow};
ghost use Rattle.intaglio_core.specs.Capacity.{IsRounded};
ghost use Rattle.intaglio_interner.specs.State.{empty_state};

use crate::table::TableOver;
use intaglio_core::{ByteStore, Content, Indexed, IndexedStore, RoomError};
use intaglio_hash::FixedState;
use std::alloc::Global;

impl<L: ByteStore + Indexed + Drop> TableOver<L, FixedState>
where
    L::Content: Content,
{
    /// An empty table of the default capacity,
    /// [`DEFAULT_SYMBOL_TABLE_CAPACITY`](intaglio_core::DEFAULT_SYMBOL_TABLE_CAPACITY).
    ///
    /// # Errors
    ///
    /// `Memory` if an allocation fails.
    pub fn new(alloc: Global) -> Result<Self, RoomError>
        ensures empty { IfOk result (λ table. table.state ≡ empty_state 4096 (2 ^ 32)) }
        ensures only_memory { ¬ (result ≡ Err CapacityOverflow) }
    {
        TableOver::with_hasher(alloc, FixedState)
    }

    /// An empty table of this capacity, rounded up to a power of two. A capacity of 0
    /// stays 0, and allocates nothing.
    ///
    /// # Errors
    ///
    /// `CapacityOverflow` if the capacity is above 2^32, which is checked before anything is allocated;
    /// `Memory` if an allocation fails.
    pub fn with_capacity(alloc: Global, capacity: usize) -> Result<Self, RoomError>
        ensures empty { IfOk result (λ table. table.state.contents ≡ []) }
        ensures rounded { IfOk result (λ table. IsRounded capacity table.state.spare) }
        ensures buckets { IfOk result (λ table. table.state.buckets ≡ table.state.spare) }
        ensures limit { IfOk result (λ table. table.state.limit ≡ 2 ^ 32) }
        ensures overflow { (result ≡ Err CapacityOverflow) ↔ (2 ^ 32 < capacity) }
        ensures none_needed { capacity ≡ 0 → IsOk result }
    {
        let core = IndexedStore::with_rounded_capacity(alloc, capacity, FixedState)?;
        Ok(TableOver { core })
    }
}
