//! Shares the strings of a list out to shards.
ghost use Rattle.std.specs.Prelude.{◌≡◌, ◌<◌, length, map, IfErr, IfOk};
ghost use Rattle.intaglio_frozen.specs.Freezing.{HasKeysFor, IsRefusal as IsTableRefusal, IsTableOf};
ghost use Rattle.intaglio_frozen.specs.SetId.{IsAt};
ghost use Rattle.intaglio_frozen.specs.Merging.{renumber};
ghost use Rattle.intaglio_columns.specs.Sharding.{IsShared, IsSharingRefusal, KeepsInput, id_of, place_of, reference_of, set_of, strings_in};

use crate::error::FreezingError;
use crate::interning::Interned;
use crate::joining::renumbered;
use intaglio_frozen::{
    DictionaryId, FreezeError, FrozenKind, Place, SetId, StringList, freeze_at, split_with_map,
};
use intaglio_lines::error::StreamError;
use intaglio_symbol::Symbol;
use std::alloc::{AllocError, Global};
use std::hash::BuildHasher;

// How many strings there may be: fewer than the code of a missing string.
const MOST: usize = u32::MAX as usize;

/// The strings of a list in shards, where each string belongs to the shard that
/// [`shard_of`](intaglio_frozen::shard_of) says. Each shard can be frozen by itself.
///
/// Codes are numbers of strings: those of a shard follow those of the shards before it.
#[derive(Drop)]
pub struct ShardedList<'s> {
    /// The strings of each shard, in the order of the list.
    pub lists: Vec<Vec<&'s [u8]>>,
    /// The number of each string of the list among those of all shards.
    pub numbers: Vec<Symbol>,
    /// What strings are.
    pub kind: FrozenKind,
    /// How many shards there are.
    pub shards: u32,
    /// What the set of the shards is.
    pub set: SetId,
    ghost counted: { length lists.items ≡ shards },
}

impl<'s> ShardedList<'s> {
    /// Shares the strings of a list out to so many shards. They stay where they are.
    ///
    /// # Errors
    ///
    /// `Table` with `TooMany` if there are 2^32 strings or more, `Memory` if an allocation fails.
    pub fn of<L: StringList>(
        alloc: Global,
        list: &'s L,
        kind: FrozenKind,
        shards: u32,
    ) -> Result<ShardedList<'s>, FreezingError>
        requires { 0 < shards }
        ensures kind { IfOk result (λ s. s.kind ≡ kind) }
        ensures shards { IfOk result (λ s. s.shards ≡ shards) }
        ensures shared { IfOk result (λ s. IsShared kind shards (L.strings list.now)
            (map (λ ws. map (λ w. w.now) ws.items) s.lists.items) s.numbers.items s.set) }
        ensures err { IfErr result (IsSharingRefusal (L.strings list.now)) }
    {
        if list.len() > MOST {
            return Err(FreezingError::Table(FreezeError::TooMany));
        }
        let Ok((lists, numbers)) = split_with_map(alloc, list, shards) else {
            return Err(FreezingError::Stream(StreamError::Memory));
        };
        let Ok(set) = set_of(alloc, kind, &lists) else {
            return Err(FreezingError::Stream(StreamError::Memory));
        };
        Ok(ShardedList {
            lists,
            numbers,
            kind,
            shards,
            set,
        })
    }

    /// What the dictionary in these shards is, for the header of a column.
    pub fn id(&self) -> DictionaryId
        ensures { result ≡ reference_of self.now.kind (length self.now.numbers.items) self.now.set }
    {
        DictionaryId {
            is_text: self.kind == FrozenKind::Text,
            count: self.numbers.len() as u64,
            hash0: self.set.hash0,
            hash1: self.set.hash1,
        }
    }

    /// Codes under the list as codes under the strings of all shards. By
    /// [`renumbering_law`](intaglio_frozen::laws::renumbering_law) they have the strings that they had.
    ///
    /// # Errors
    ///
    /// [`AllocError`] if the allocation of the list fails.
    pub fn codes(&self, alloc: Global, codes: &[Symbol]) -> Result<Vec<Symbol>, AllocError>
        ensures { IfOk result (λ new. new.items ≡ renumber self.now.numbers.items codes.now) }
    {
        renumbered(alloc, &self.numbers, codes)
    }

    /// The bytes of a frozen table of one shard. The keys are as for
    /// [`freeze_lines`](crate::freezing::freeze_lines).
    ///
    /// # Errors
    ///
    /// Why the strings have no frozen table of this kind, or `Memory`.
    pub fn freeze(
        &self,
        alloc: Global,
        shard: u32,
        keys: Option<(u64, u64)>,
    ) -> Result<Vec<u8>, FreezeError>
        requires { shard < self.now.shards }
        ensures table { let strings = strings_in (map (λ ws. map (λ w. w.now) ws.items) self.now.lists.items) shard in
            IfOk result (λ bytes. IsTableOf self.now.kind strings bytes.items) }
        ensures place { let place = place_of self.now.set self.now.shards shard in
            IfOk result (λ bytes. IsAt place bytes.items) }
        ensures keyed { let strings = strings_in (map (λ ws. map (λ w. w.now) ws.items) self.now.lists.items) shard in
            IfOk result (λ bytes. HasKeysFor keys strings bytes.items) }
        ensures err { let strings = strings_in (map (λ ws. map (λ w. w.now) ws.items) self.now.lists.items) shard in
            IfErr result (IsTableRefusal self.now.kind strings) }
    {
        let place = Place {
            set: self.set,
            shards: self.shards,
            shard,
        };
        freeze_at(alloc, &self.lists[shard as usize], self.kind, keys, place)
    }
}

// What the set of shards with these strings is.
fn set_of(alloc: Global, kind: FrozenKind, lists: &[Vec<&[u8]>]) -> Result<SetId, AllocError>
    ensures { IfOk result (λ set. set ≡ set_of kind (map (λ ws. map (λ w. w.now) ws.items) lists.now)) }
{
    let mut ids = Vec::new(alloc);
    for list in lists {
        ids.push(id_of(kind, list))?;
    }
    Ok(SetId::of_shards(&ids))
}

// What a dictionary of these strings is.
fn id_of(kind: FrozenKind, list: &Vec<&[u8]>) -> DictionaryId
    ensures { result ≡ id_of kind (map (λ w. w.now) list.now.items) }
{
    DictionaryId::of_list(kind == FrozenKind::Text, list)
}

impl<S: BuildHasher> Interned<S> {
    /// The distinct lines in so many shards, and the codes of the lines under the strings of all shards.
    ///
    /// # Errors
    ///
    /// Those of [`ShardedList::of`].
    pub fn in_shards(
        &self,
        alloc: Global,
        kind: FrozenKind,
        shards: u32,
    ) -> Result<(ShardedList<'_>, Vec<Symbol>), FreezingError>
        requires { 0 < shards }
        ensures kind { IfOk result (λ made. made.0.kind ≡ kind) }
        ensures shards { IfOk result (λ made. made.0.shards ≡ shards) }
        ensures shared { IfOk result (λ made. IsShared kind shards self.now.table.state.contents
            (map (λ ws. map (λ w. w.now) ws.items) made.0.lists.items) made.0.numbers.items made.0.set) }
        ensures codes { IfOk result (λ made. made.1.items ≡ renumber made.0.numbers.items self.now.symbols.items) }
        ensures lines { IfOk result (λ made. KeepsInput shards made.1.items
            self.now.table.state self.now.symbols.items self.now.count) }
        ensures err { IfErr result (IsSharingRefusal self.now.table.state.contents) }
    {
        let list = match ShardedList::of(alloc, &self.table, kind, shards) {
            Ok(list) => list,
            Err(refused) => return Err(refused),
        };
        match list.codes(alloc, &self.symbols) {
            Ok(codes) => Ok((list, codes)),
            Err(_) => Err(FreezingError::Stream(StreamError::Memory)),
        }
    }
}
