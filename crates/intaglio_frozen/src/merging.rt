//! Merges lists of strings.
ghost use Rattle.std.specs.Prelude.{◌≡◌, ◌<◌, ◌≤◌, ◌^◌, [], length, map, IfErr, IfOk, OnOk};
ghost use Rattle.intaglio_content.specs.Key.{hash_of};
ghost use Rattle.intaglio_interner.specs.Batch.{IfOverflow};
ghost use Rattle.intaglio_interner.specs.Issue.{interned_all};
ghost use Rattle.intaglio_frozen.specs.Merging.{AreMaps, IsMap, string_key, union};

use crate::StringList;
use crate::absorbing::absorb;
use intaglio::TableOver;
use intaglio_bytes::bytes::BytesKind;
use intaglio_content::Work;
use intaglio_core::SYMBOLS;
use intaglio_packed::Packed;
use intaglio_symbol::{InternError, Symbol};
use std::alloc::{AllocError, Global};
use std::hash::BuildHasher;

/// What lists of strings are merged to.
#[derive(Drop)]
pub struct Merged<S: BuildHasher> {
    /// The distinct strings of all lists, in the order of their first occurrences. A table can be frozen.
    pub table: TableOver<Packed<BytesKind>, S>,
    /// For each list the symbols of its strings in the table: the map by which its codes are renumbered.
    pub maps: Vec<Vec<Symbol>>,
}

/// Merges lists of strings, such as frozen tables.
///
/// # Errors
///
/// `Overflow` if there are more than 2^32 distinct strings, `Memory` if an allocation fails.
pub fn merge_tables<L: StringList, S: BuildHasher + Drop>(
    alloc: Global,
    lists: &[L],
    builder: S,
) -> Result<Merged<S>, InternError>
    ensures union { IfOk result (λ merged. merged.table.state.contents ≡ union (map L.strings lists.now)) }
    ensures maps { IfOk result (λ merged. AreMaps (map L.strings lists.now)
        merged.table.state.contents (map (λ m. m.items) merged.maps.items)) }
    ensures limit { IfOk result (λ merged. merged.table.state.limit ≡ 2 ^ 32) }
    ensures hash { let hash = hash_of S.BuildHasher S.Hasher.Hasher in
        IfOk result (λ merged. hash merged.table.hasher ≡ hash builder) }
    ensures overflow { IfErr result (λ e. IfOverflow e (2 ^ 32 < length (union (map L.strings lists.now)))) }
{
    // A power of two, so that a bucket is found by a mask.
    let mut table = table_for(alloc, longest(lists).next_power_of_two(), builder)?;
    let mut maps = Vec::with_capacity(alloc, lists.len())?;
    for i in 0..lists.len() {
        let symbols = absorb_bytes(alloc, &mut table, &lists[i])?;
        maps.push_reserved(symbols);
    }
    Ok(Merged { table, maps })
}

// An empty table of this capacity.
pub(crate) fn table_for<S: BuildHasher + Drop>(
    alloc: Global,
    capacity: usize,
    builder: S,
) -> Result<TableOver<Packed<BytesKind>, S>, InternError>
    ensures empty { IfOk result (λ table. table.state.contents ≡ []) }
    ensures limit { IfOk result (λ table. table.state.limit ≡ 2 ^ 32) }
    ensures hasher { IfOk result (λ table. table.hasher ≡ builder) }
    ensures overflow { IfErr result (λ e. IfOverflow e ⊥) }
{
    match TableOver::with_capacity_and_hasher(alloc, capacity, builder) {
        Ok(table) => Ok(table),
        Err(_) => Err(InternError::Memory(AllocError)),
    }
}

// As `absorb`, into a table of byte slices.
pub(crate) fn absorb_bytes<L: StringList, S: BuildHasher>(
    alloc: Global,
    table: &mut TableOver<Packed<BytesKind>, S>,
    list: &L,
) -> Result<Vec<Symbol>, InternError>
    ensures held { let all = interned_all string_key table.old.state.contents (L.strings list.now) in
        OnOk result (table.new.state.contents ≡ all) }
    ensures map { let new = table.new.state.contents in
        IfOk result (λ symbols. IsMap (L.strings list.now) new symbols.items) }
    ensures limit { table.new.state.limit ≡ table.old.state.limit }
    ensures hash { let hash = hash_of S.BuildHasher S.Hasher.Hasher in
        hash table.new.hasher ≡ hash table.old.hasher }
    ensures overflow { let all = interned_all string_key table.old.state.contents (L.strings list.now) in
        IfErr result (λ e. IfOverflow e (table.old.state.limit < length all)) }
{
    absorb(alloc, table, list, &mut Work::new())
}

// The number of strings of the longest list, at most 2^32.
fn longest<L: StringList>(lists: &[L]) -> usize
    ensures { result ≤ 2 ^ 32 }
{
    let mut most = 0;
    for list in lists {
        most = most.max(list.len().min(SYMBOLS));
    }
    most
}
