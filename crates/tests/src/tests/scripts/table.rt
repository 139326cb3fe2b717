//! Traits that have the calls of a table, but no contracts. So their callers are proved without the contracts
//! of these calls.
use super::asks::Ask;
use crate::support::builders::{Counted, HasherCount};
use crate::support::kinds::Host;
use crate::support::tables::{Make, TestStore, TestTable};
use intaglio::{AllSymbols, Content, Indexed, Reply, RoomError, SoughtIn, TableOver};
use std::alloc::Global;

/// A table, by the calls that don't depend on its store.
pub trait Numbered {
    /// As `all_symbols`.
    fn symbols(&self) -> AllSymbols<'_>;

    /// What the call of this name returns, which counts. `fits` is whether the capacity is at least `word`.
    fn number(&self, name: &str, word: &str) -> Option<Reply>;
}

impl<L: Indexed, S: HasherCount> Numbered for TableOver<L, S> {
    fn symbols(&self) -> AllSymbols<'_> {
        self.all_symbols()
    }

    fn number(&self, name: &str, word: &str) -> Option<Reply> {
        match name {
            "len" => Some(Reply::Count(self.len())),
            "is_empty" => Some(Reply::Bool(self.is_empty())),
            "capacity" => Some(Reply::Count(self.capacity())),
            "fits" => Some(Reply::Bool(self.capacity() >= word.parse().ok()?)),
            "limit" => Some(Reply::Count(self.limit())),
            "mark" => Some(Reply::Count(self.mark().count())),
            "hashers" => Some(Reply::Count(self.hasher().made()?)),
            _ => None,
        }
    }
}

/// A table of one kind.
pub trait Table: TestTable + Numbered {
    /// Whether contents are compared as paths.
    const ARE_PATHS: bool = false;

    /// Makes a call by the borrowed forms of contents, or these steps, and returns its result as text.
    fn ask<R: Host>(&mut self, rt: &R, contents: &[Self::Item], steps: &str, ask: Ask) -> String;
}

/// A table, or why there is no room for it.
pub type Made<T> = Result<T, RoomError>;

/// A table with the hash builder that it has by default.
pub trait Makes: Table {
    /// The same table with counted hashers.
    type Counting: Table;

    /// Makes it.
    fn make(alloc: Global, how: Make) -> Made<Self>;

    /// Makes one of this capacity, with counted hashers.
    fn make_counting(alloc: Global, count: usize, hasher: Counted) -> Made<Self::Counting>;
}

impl<L: TestStore> Makes for TableOver<L, L::Hasher>
where
    L::Content: Content + SoughtIn<L> + Drop,
    L::Prepared: Drop,
    TableOver<L, L::Hasher>: Table,
    TableOver<L, Counted>: Table,
{
    type Counting = TableOver<L, Counted>;

    fn make(alloc: Global, how: Make) -> Made<Self> {
        L::make(alloc, how)
    }

    fn make_counting(alloc: Global, count: usize, hasher: Counted) -> Made<TableOver<L, Counted>> {
        TableOver::with_capacity_and_hasher(alloc, count, hasher)
    }
}
