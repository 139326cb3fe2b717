//! Frozen tables as the shards of one dictionary.
ghost use Rattle.std.specs.Prelude.{◌≡◌, ◌+◌, ◌^◌, ◌<◌, ◌≤◌, length, map, slice_get, option_copied, IfErr, IfOk, MatchOption, OnOk};
ghost use Rattle.intaglio_interner.specs.State.{first};
ghost use Rattle.intaglio_frozen.specs.Merging.{missing, string_key};
ghost use Rattle.intaglio_frozen.specs.declared.shards.ShardsError.TheVariants.{Memory, TooMany};
ghost use Rattle.intaglio_frozen.specs.Shards.{AreAllDistinct, AreEachDistinct, AreShards, BelongTo, IsMisplaced, IsShardsFault, joined, starts_from};

use crate::sharding::shard_of;
use crate::{Frozen, StringList};
use intaglio_symbol::Symbol;
use std::alloc::{AllocError, Global};
use std::marker::Model;
use thiserror::Error;

// How many strings there may be: fewer than the code of a missing string.
const MOST: usize = u32::MAX as usize;

/// Why frozen tables are no [`Shards`].
#[derive(Debug, Clone, Copy, PartialEq, Eq, Error)]
pub enum ShardsError {
    /// There is no table.
    #[error("no shards")]
    Empty,
    /// In this table, the string of this symbol belongs to another shard.
    #[error("string {1} of shard {0} belongs to another shard")]
    Misplaced(u32, u32),
    /// There are 2^32 strings or more in all tables.
    #[error("too many strings")]
    TooMany,
    /// An allocation failed.
    #[error("out of memory")]
    Memory,
}

impl From<AllocError> for ShardsError {
    ghost from_gives = { λ _ error. error ≡ Memory };

    fn from(_error: AllocError) -> ShardsError {
        ShardsError::Memory
    }
}

/// A dictionary in shards: frozen tables, of which each has the strings that [`shard_of`] says.
///
/// Its symbols count through the shards: the symbols of a shard follow those of the shards before it.
///
/// A contract sees it as the lists of the strings of its shards.
#[derive(Drop)]
pub struct Shards<'a> {
    tables: Vec<Frozen<'a>>,
    // The symbol at which each shard begins.
    starts: Vec<u32>,
}

impl<'a> Model for Shards<'a> {
    ghost use Rattle.std.specs.Prelude.{◌≡◌, ℕ, List, ◌<◌, ◌≤◌, length};
    ghost use Rattle.intaglio_frozen.specs.Merging.{missing};
    ghost use Rattle.intaglio_frozen.specs.Shards.{AreEachDistinct, AreShards, joined, starts_from};

    ghost Value = { List (List (List ℕ)) };

    ghost view = { λ shards. shards.tables.items };

    ghost invariant = { λ shards. record {
      some : 0 < length shards.tables.items;
      few : length shards.tables.items ≤ missing;
      numbered : length (joined shards.tables.items) ≤ missing;
      placed : AreShards shards.tables.items;
      distinct : AreEachDistinct shards.tables.items;
      starts : shards.starts.items ≡ starts_from 0 shards.tables.items;
    } };
}

impl<'a> Shards<'a> {
    /// The dictionary whose shards are these tables, after a check that each string is in its shard.
    ///
    /// # Errors
    ///
    /// `Empty` if there is no table, `Misplaced` for the first string that belongs to another shard,
    /// `TooMany` if there are 2^32 strings, or shards, or more, `Memory` if an allocation fails.
    ///
    /// ```ignore (the borrow checker doesn't cover this function yet)
    /// # use intaglio::{StrContent, Symbol, SymbolTable};
    /// # use intaglio_frozen::Shards;
    /// # use intaglio_frozen::{Frozen, FrozenKind, freeze};
    /// # let alloc = rt.alloc();
    /// # let mut words = SymbolTable::new(alloc)?;
    /// # let _symbol = words.intern(StrContent::from("rose"))?;
    /// # let bytes = freeze(alloc, &words, FrozenKind::Text, 1, 2)?;
    /// let mut tables = Vec::new(alloc);
    /// tables.push(Frozen::open(&bytes)?)?;
    /// let shards = Shards::open(alloc, tables)?;
    /// let rose = Symbol::new(0);
    /// assert!(rt; shards.check_interned(b"rose") == Some(rose));
    /// assert!(rt; shards.get(rose) == Some(b"rose".as_slice()));
    /// ```
    #[tactic(auto, using(std::proofs::lemmas::Grind::common_steps, crate::proofs::Sharded::distinct_shards))]
    pub fn open(alloc: Global, tables: Vec<Frozen<'a>>) -> Result<Shards<'a>, ShardsError>
        ensures strings { IfOk result (λ shards. shards ≡ tables.entry.items) }
        ensures shards { IfOk result (λ shards. AreShards shards) }
        ensures distinct { IfOk result (λ shards. AreAllDistinct shards) }
        ensures err { IfErr result (IsShardsFault tables.entry.items) }
    {
        let Ok(count) = u32::try_from(tables.len()) else {
            return Err(ShardsError::TooMany);
        };
        if count == 0 {
            return Err(ShardsError::Empty);
        }
        check_each(&tables, count)?;
        let starts = starts_of(alloc, &tables)?;
        Ok(Shards { tables, starts })
    }

    /// The number of shards.
    pub fn count(&self) -> usize
        ensures count { result ≡ length self.now }
        ensures some { 0 < result }
    {
        self.tables.len()
    }

    /// The shards, in their order.
    pub fn tables(&self) -> &[Frozen<'a>]
        ensures { result.now ≡ self.now }
    {
        &self.tables
    }

    /// The number of strings in all shards.
    #[tactic(auto, using(std::proofs::lemmas::Grind::common_steps, crate::proofs::Sharded::starts_length))]
    pub fn len(&self) -> usize
        ensures count { result ≡ length (joined self.now) }
        ensures few { result ≤ missing }
    {
        let last = self.tables.len() - 1;
        self.starts[last] as usize + self.tables[last].len()
    }

    /// The string of a symbol.
    ///
    /// It looks through the shards, so it takes as many steps as there are shards.
    #[tactic(auto, using(std::proofs::lemmas::Grind::common_steps, std::proofs::lemmas::Option::slice_get_read, crate::proofs::Sharded::within, crate::proofs::Sharded::behind))]
    pub fn get(&self, symbol: Symbol) -> Option<&'a [u8]>
        ensures { option_copied result ≡ slice_get (joined self.now) symbol }
    {
        let mut number = symbol.id() as usize;
        for shard in 0..self.tables.len() {
            let table = &self.tables[shard];
            let count = table.len();
            if number < count {
                return table.get(Symbol::new(number as u32));
            }
            number -= count;
        }
        None
    }

    /// The symbol of a string, if it is in the dictionary. It is looked up in its shard alone.
    #[tactic(auto, using(std::proofs::lemmas::Grind::common_steps, crate::proofs::Sharded::starts_length, crate::proofs::Sharded::found_below, crate::proofs::Sharded::found_none))]
    pub fn check_interned(&self, string: &[u8]) -> Option<Symbol>
        ensures { result ≡ first string_key (joined self.now) (string_key string.now) }
    {
        let shard = shard_of(string, self.tables.len() as u32) as usize;
        match self.tables[shard].check_interned(string) {
            Some(symbol) => Some(Symbol::new(self.starts[shard] + symbol.id())),
            None => None,
        }
    }

    /// The symbol of each string of a batch, where it is in the dictionary.
    ///
    /// # Errors
    ///
    /// [`AllocError`] if the allocation of the list fails.
    pub fn check_all(
        &self,
        alloc: Global,
        strings: &[&[u8]],
    ) -> Result<Vec<Option<Symbol>>, AllocError>
        ensures { IfOk result (λ found. found.items
            ≡ map (λ w. first string_key (joined self.now) (string_key w.now)) strings.now) }
    {
        let mut found = Vec::with_capacity(alloc, strings.len())?;
        for i in 0..strings.len() {
            found.push_reserved(self.check_interned(strings[i]));
        }
        Ok(found)
    }
}

// Checks that each string is in its shard.
fn check_each(tables: &[Frozen<'_>], count: u32) -> Result<(), ShardsError>
    requires count { count ≡ length tables.now }
    requires some { 0 < count }
    ensures placed { OnOk result (AreShards tables.now) }
    ensures distinct { OnOk result (AreEachDistinct tables.now) }
    ensures err { IfErr result (IsShardsFault tables.now) }
{
    for shard in 0..count {
        let table = &tables[shard as usize];
        // No two strings of a table are equal, as the contract of its look-up says.
        let _found = table.check_interned(b"");
        if let Some(i) = first_misplaced(table, count, shard) {
            return Err(ShardsError::Misplaced(shard, i));
        }
    }
    Ok(())
}

/// The symbol of the first string of a table that belongs to another shard than this one, of `count` ones.
///
/// ```
/// # use intaglio::SymbolTable;
/// # use intaglio_frozen::{first_misplaced, shard_of};
/// # use intaglio_frozen::{Frozen, FrozenKind, freeze};
/// # let mut words = SymbolTable::new(rt.alloc())?;
/// # let _symbol = words.get_or_intern("rose")?;
/// # let bytes = freeze(rt.alloc(), &words, FrozenKind::Text, 1, 2)?;
/// let table = Frozen::open(&bytes)?;
/// let shard = shard_of(b"rose", 4);
/// assert!(rt; first_misplaced(&table, 4, shard) == None);
/// assert!(rt; first_misplaced(&table, 4, 3 - shard) == Some(0));
/// ```
pub fn first_misplaced(table: &Frozen<'_>, count: u32, shard: u32) -> Option<u32>
    requires { 0 < count }
    ensures { MatchOption result (BelongTo count shard table.now) (IsMisplaced count shard table.now) }
{
    for i in 0..table.len() {
        if shard_of(table.string(i), count) != shard {
            return Some(i as u32);
        }
    }
    None
}

// The symbol at which each shard begins.
fn starts_of(alloc: Global, tables: &[Frozen<'_>]) -> Result<Vec<u32>, ShardsError>
    ensures starts { IfOk result (λ starts. starts.items ≡ starts_from 0 tables.now) }
    ensures few { OnOk result (length (joined tables.now) ≤ missing) }
    ensures err { IfErr result (IsShardsFault tables.now) }
{
    let mut starts = Vec::with_capacity(alloc, tables.len())?;
    let mut count = 0usize;
    for i in 0..tables.len() {
        starts.push_reserved(count as u32);
        count = with_more(count, tables[i].len())?;
    }
    Ok(starts)
}

// How many strings there are with these, if they aren't too many.
fn with_more(count: usize, more: usize) -> Result<usize, ShardsError>
    requires count { count ≤ missing }
    requires more { more ≤ 2 ^ 32 }
    ensures sum { IfOk result (λ sum. sum ≡ count + more) }
    ensures few { IfOk result (λ sum. sum ≤ missing) }
    ensures err { IfErr result (λ e. (e ≡ TooMany) × (missing < count + more)) }
{
    let sum = count + more;
    if sum > MOST {
        return Err(ShardsError::TooMany);
    }
    Ok(sum)
}
