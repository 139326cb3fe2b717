//! Tables that are tried: how those over each store are made, and the calls in which they differ.
use crate::support::builders::{Fold, HasherCount};
use crate::support::kinds::{TestContent, TestKind};
use crate::support::replies::{roomy, taken};
use intaglio::packed::Packed;
use intaglio::{
    BaseInterner, Call, Content, ContentOf, Copied, Indexed, InternError, Mark, Moved, Reply,
    RoomError, SoughtIn, SpelledStore, Symbol, Table, TableOver, Work, intern_all, run,
};
use intaglio_frozen::{FreezeError, FrozenKind, freeze};
use intaglio_hash::FixedState;
use std::alloc::{AllocError, Global};
use std::hash::BuildHasher;

/// How a table is made.
#[derive(Clone, Copy)]
pub enum Make {
    /// By `new`.
    New,
    /// By `with_capacity`.
    Rounded(usize),
    /// By `with_hasher`.
    Usual,
    /// By `with_capacity_and_hasher`.
    Exact(usize),
    /// By `with_limit`.
    Limited(usize),
}

/// A store whose tables are tried: a list of owned contents, or one buffer.
pub trait TestStore: Indexed + Drop
where
    Self::Content: Content + SoughtIn<Self> + Drop,
    Self::Prepared: Drop,
{
    /// The hash builder that its tables have by default.
    type Hasher: HasherCount;

    /// A hash builder.
    fn hasher() -> Self::Hasher;

    /// Makes an empty table.
    fn make(alloc: Global, how: Make) -> Result<TableOver<Self, Self::Hasher>, RoomError>;
}

impl<K: TestKind> TestStore for Vec<ContentOf<K>> {
    type Hasher = Fold;

    fn hasher() -> Fold {
        Fold::new()
    }

    fn make(alloc: Global, how: Make) -> Result<Table<ContentOf<K>, Fold>, RoomError> {
        match how {
            Make::New => Table::new(alloc),
            Make::Rounded(capacity) => Table::with_capacity(alloc, capacity),
            _ => made_by(alloc, how, Fold::new()),
        }
    }
}

impl<K: TestKind> TestStore for Packed<K> {
    type Hasher = FixedState;

    fn hasher() -> FixedState {
        FixedState
    }

    fn make(alloc: Global, how: Make) -> Result<TableOver<Packed<K>, FixedState>, RoomError> {
        match how {
            Make::New => TableOver::<Packed<K>, FixedState>::new(alloc),
            Make::Rounded(capacity) => {
                TableOver::<Packed<K>, FixedState>::with_capacity(alloc, capacity)
            }
            _ => made_by(alloc, how, FixedState),
        }
    }
}

// Makes an empty table with this hasher.
fn made_by<L: Indexed + Drop, S: BuildHasher + Drop>(
    alloc: Global,
    how: Make,
    hasher: S,
) -> Result<TableOver<L, S>, RoomError>
where
    L::Content: Content,
{
    match how {
        Make::Exact(capacity) => TableOver::with_capacity_and_hasher(alloc, capacity, hasher),
        Make::Limited(limit) => TableOver::with_limit(alloc, limit, hasher),
        _ => TableOver::with_hasher(alloc, hasher),
    }
}

/// What a batch returns.
pub type Symbols = Result<Vec<Symbol>, InternError>;

/// What a run returns.
pub type Replies = Result<Vec<Reply>, AllocError>;

/// A table, by the calls in which those over different stores differ.
pub trait TestTable: Drop {
    /// What is interned.
    type Item: TestContent;

    /// As `intern`.
    fn put(&mut self, content: Self::Item) -> Result<Symbol, InternError>;

    /// As `intern_all`. A table in one buffer hasn't that call, and is given to the function of this name.
    fn put_all(&mut self, alloc: Global, contents: Vec<Self::Item>) -> Symbols {
        self.put_counted(alloc, contents)
    }

    /// By the function `intern_all`.
    fn put_counted(&mut self, alloc: Global, contents: Vec<Self::Item>) -> Symbols;

    /// Makes calls with contents by `run`.
    fn run(&mut self, alloc: Global, calls: Vec<Call<Self::Item>>) -> Replies;

    /// Makes a call that changes the table. Tables of owned contents have no `reserve_bytes`.
    fn update(&mut self, update: Update) -> Reply;

    /// The bytes of `table[symbol]`, if the symbol was issued. A table in one buffer has no such call.
    fn index(&self, symbol: Symbol) -> Option<&[u8]>;

    /// As `freeze`, under the keys 0 and 0.
    fn freeze(&self, alloc: Global) -> Result<Vec<u8>, FreezeError>;
}

impl<K: TestKind, S: HasherCount> TestTable for Table<ContentOf<K>, S> {
    type Item = ContentOf<K>;

    fn put(&mut self, content: ContentOf<K>) -> Result<Symbol, InternError> {
        self.intern(content)
    }

    fn put_all(&mut self, _alloc: Global, contents: Vec<ContentOf<K>>) -> Symbols {
        self.intern_all(contents)
    }

    fn put_counted(&mut self, alloc: Global, contents: Vec<ContentOf<K>>) -> Symbols {
        intern_all::<Moved, _, _>(alloc, self, contents, &mut Work::new())
    }

    fn run(&mut self, alloc: Global, calls: Vec<Call<ContentOf<K>>>) -> Replies {
        run::<Moved, _, _>(alloc, self, calls, &mut Work::new())
    }

    fn update(&mut self, update: Update) -> Reply {
        match update {
            Update::ReserveBytes(_) => Reply::Done,
            _ => updated(self, update),
        }
    }

    fn index(&self, symbol: Symbol) -> Option<&[u8]> {
        if self.contains(symbol) {
            Some(self[symbol].spelling())
        } else {
            None
        }
    }

    fn freeze(&self, alloc: Global) -> Result<Vec<u8>, FreezeError> {
        freeze(alloc, self, FrozenKind::Bytes, 0, 0)
    }
}

impl<K: TestKind, S: HasherCount> TestTable for TableOver<Packed<K>, S> {
    type Item = ContentOf<K>;

    fn put(&mut self, content: ContentOf<K>) -> Result<Symbol, InternError> {
        self.intern(content)
    }

    fn put_counted(&mut self, alloc: Global, contents: Vec<ContentOf<K>>) -> Symbols {
        intern_all::<Copied, _, _>(alloc, self, contents, &mut Work::new())
    }

    fn run(&mut self, alloc: Global, calls: Vec<Call<ContentOf<K>>>) -> Replies {
        run::<Copied, _, _>(alloc, self, calls, &mut Work::new())
    }

    fn update(&mut self, update: Update) -> Reply {
        match update {
            Update::ReserveBytes(additional) => {
                roomy(self.reserve_bytes(additional).map_err(RoomError::Memory))
            }
            _ => updated(self, update),
        }
    }

    fn index(&self, symbol: Symbol) -> Option<&[u8]> {
        self.store().spelling_at(symbol.id() as usize)
    }

    fn freeze(&self, alloc: Global) -> Result<Vec<u8>, FreezeError> {
        freeze(alloc, self, FrozenKind::Bytes, 0, 0)
    }
}

/// A call that changes a table, other than an interning.
#[derive(Clone, Copy)]
pub enum Update {
    /// `reserve`.
    Reserve(usize),
    /// `try_reserve`.
    TryReserve(usize),
    /// `reserve_bytes`, in one buffer.
    ReserveBytes(usize),
    /// `shrink_to`.
    ShrinkTo(usize),
    /// `shrink_to_fit`.
    ShrinkToFit,
    /// `clear`.
    Clear,
    /// `take_back`, to this many contents.
    TakeBack(usize),
}

/// Makes a call that changes a table, other than `reserve_bytes`.
pub fn updated<L: Indexed, S: HasherCount>(table: &mut TableOver<L, S>, update: Update) -> Reply
where
    L::Content: Drop,
{
    match update {
        Update::Reserve(additional) => roomy(table.reserve(additional)),
        Update::TryReserve(additional) => roomy(table.try_reserve(additional)),
        Update::ShrinkTo(capacity) => roomy(table.shrink_to(capacity)),
        Update::ShrinkToFit => roomy(table.shrink_to_fit()),
        Update::TakeBack(count) => taken(table.take_back(Mark::new(count))),
        _ => {
            table.clear();
            Reply::Done
        }
    }
}
