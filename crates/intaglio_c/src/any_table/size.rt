//! Constructors, length and capacity: the calls that are the same for each kind.
ghost use Rattle.std.specs.Prelude.{◌≡◌, ◌↔◌, ◌+◌, ◌≤◌, ◌^◌};
ghost use Rattle.intaglio_c.specs.Cited.{Err, IfOk, length, empty_table, CapacityOverflow, IsOutside, most_of, new_table, room_of, seen, IsChanged, contents_of, Empties};
ghost use Rattle.intaglio_interner.specs.Change.{Reserves, Shrinks, TakesBack};

use super::AnyTable;
use crate::kind::TableKind;
use intaglio::TableOver;
use intaglio_core::{Indexed, Mark, RoomError, StaleMark};
use intaglio_hash::KeyedState;
use std::alloc::Global;

// What fixes the size of a new table.
#[derive(Clone, Copy)]
pub(crate) enum Size {
    // Exactly this capacity.
    Capacity(usize),
    // Capacity 0, and at most this many contents.
    Limit(usize),
}

fn table_of<L: Indexed + Drop>(
    alloc: Global,
    size: Size,
    keys: KeyedState,
) -> Result<TableOver<L, KeyedState>, RoomError>
    ensures made { IfOk result (λ table. table ≡ empty_table (room_of size) (most_of size) keys) }
    ensures overflow { (result ≡ Err CapacityOverflow) ↔ IsOutside size }
{
    match size {
        Size::Capacity(capacity) => TableOver::with_capacity_and_hasher(alloc, capacity, keys),
        Size::Limit(limit) => TableOver::with_limit(alloc, limit, keys),
    }
}

impl AnyTable {
    // A table of this size.
    pub(crate) fn of_size(
        alloc: Global,
        kind: TableKind,
        size: Size,
        keys: KeyedState,
    ) -> Result<Self, RoomError>
        ensures made { IfOk result (λ table. seen table ≡ new_table kind (room_of size) (most_of size) keys) }
        ensures overflow { (result ≡ Err CapacityOverflow) ↔ IsOutside size }
    {
        match kind {
            TableKind::Owned(rule) => Ok(Self::Owned(rule, table_of(alloc, size, keys)?)),
            TableKind::Path => Ok(Self::Path(table_of(alloc, size, keys)?)),
            TableKind::Packed(rule) => Ok(Self::Packed(rule, table_of(alloc, size, keys)?)),
        }
    }

    pub(crate) fn len(&self) -> usize
        ensures count { result ≡ length (contents_of self.now) }
        ensures few { result ≤ 2 ^ 32 }
    {
        on_table!(self, table => table.len())
    }

    pub(crate) fn capacity(&self) -> usize
        ensures capacity { result ≡ length (contents_of self.now) + (seen self.now).state.spare }
    {
        on_table!(self, table => table.capacity())
    }

    pub(crate) fn reserve(&mut self, additional: usize) -> Result<(), RoomError>
        ensures step { IsChanged self.old self.new (λ s s'. Reserves s additional result s') }
    {
        on_table!(self, table => table.reserve(additional))
    }

    pub(crate) fn shrink_to(&mut self, min_capacity: usize) -> Result<(), RoomError>
        ensures step { IsChanged self.old self.new (λ s s'. Shrinks s min_capacity result s') }
    {
        on_table!(self, table => table.shrink_to(min_capacity))
    }

    pub(crate) fn clear(&mut self)
        ensures step { IsChanged self.old self.new Empties }
    {
        on_table!(self, table => table.clear())
    }

    #[tactic(auto, using(crate::proofs::AsBytes::first_bytes))]
    pub(crate) fn take_back(&mut self, mark: Mark) -> Result<(), StaleMark>
        ensures step { IsChanged self.old self.new (λ s s'. TakesBack s mark result s') }
    {
        on_table!(self, table => table.take_back(mark))
    }
}
