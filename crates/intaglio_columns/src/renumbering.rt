//! Renumbers a column by the maps of a merge.
ghost use Rattle.std.specs.Prelude.{◌≡◌, ◌-◌, ◌^◌, ◌↔◌, get_or, length, map, min, [], All, IfErr, IfOk, IsTrue, OnOk};
ghost use Rattle.intaglio_frozen.specs.Merging.{renumber};
ghost use Rattle.intaglio_frozen.specs.Shards.{sum_of};
ghost use Rattle.intaglio_columns.specs.IsColumn.{IsColumn, IsHeaderOf};
ghost use Rattle.intaglio_columns.specs.Layout.{codes, rows, source_of, strings};
ghost use Rattle.intaglio_columns.specs.Renumbering.{AreFrom, IsRenumberingRefusal, KeepsLines, LeadAlike, Meet, joined_codes, maps_for, source_for};

use crate::codes::MISSING;
use crate::error::RenumberError;
use crate::joining::{at_code, join_maps};
use crate::{CodeList, Column, DictionaryId, RowSource, sourced_column_bytes};
use intaglio_symbol::Symbol;
use std::alloc::Global;

/// The column with the new code of each row, by the maps that lead from the shards of its dictionary: under
/// the dictionary to which all of them lead. The rows come from where they came, and missing ones stay
/// missing. If the maps are those that a merge gave, each row has the line that it had.
///
/// A column that is the map of a shard takes one map, that of the same shard, and any other a map for each
/// shard of its dictionary, in order. The column and the maps were opened by [`Column::open`].
///
/// # Errors
///
/// Why the maps aren't those of the column's dictionary, or can't be one map; `Memory` if an allocation fails.
pub fn renumber_by_maps(
    alloc: Global,
    column: &Column<'_>,
    maps: &[Column<'_>],
) -> Result<Vec<u8>, RenumberError>
    requires column { IsColumn column.now }
    requires maps { All IsColumn maps.now }
    ensures column { IfOk result (λ bytes. IsColumn bytes.items) }
    ensures from { IfOk result (λ bytes. source_of bytes.items ≡ source_of column.now) }
    ensures to { IfOk result (λ bytes. All (LeadAlike bytes.items) maps.now) }
    ensures count { IfOk result (λ bytes. strings bytes.items ≡ sum_of (map strings maps.now)) }
    ensures codes { IfOk result
        (λ bytes. codes bytes.items ≡ renumber (joined_codes maps.now) (codes column.now)) }
    ensures lines { IfOk result (λ bytes. KeepsLines maps.now (codes column.now) (codes bytes.items)) }
    ensures meet { OnOk result (Meet column.now maps.now) }
    ensures err { IfErr result (IsRenumberingRefusal column.now maps.now) }
{
    let count = check_maps(column, maps)?;
    let Ok(joined) = join_maps(alloc, maps) else {
        return Err(RenumberError::Memory);
    };
    let into = maps[0].header();
    let id = DictionaryId { count, ..into.id };
    let codes = RenumberedCodes {
        map: &joined,
        column,
    };
    // The new codes are those of strings, and missing only where the old ones were.
    match sourced_column_bytes(alloc, id, into.shards, column.header().source, &codes) {
        Ok(bytes) => Ok(bytes),
        Err(_) => Err(RenumberError::Memory),
    }
}

// How many strings the maps lead to, if they meet the column.
fn check_maps(column: &Column<'_>, maps: &[Column<'_>]) -> Result<u64, RenumberError>
    requires { IsColumn column.now }
    ensures count { IfOk result (λ count. count ≡ sum_of (map strings maps.now)) }
    ensures meet { OnOk result (Meet column.now maps.now) }
    ensures err { IfErr result (IsRenumberingRefusal column.now maps.now) }
{
    check_each(column, maps)?;
    let (rows, strings) = sizes_of(maps);
    if rows != column.id().count {
        return Err(RenumberError::OtherLength);
    }
    if strings > MISSING as u64 {
        return Err(RenumberError::TooMany);
    }
    Ok(strings)
}

// Checks from where each map leads, and to where.
fn check_each(column: &Column<'_>, maps: &[Column<'_>]) -> Result<(), RenumberError>
    ensures many { OnOk result (length maps.now ≡ maps_for column.now) }
    ensures from { OnOk result (AreFrom column.now maps.now) }
    ensures to { OnOk result (All (LeadAlike (get_or maps.now 0 [])) maps.now) }
    ensures err { IfErr result (IsRenumberingRefusal column.now maps.now) }
{
    let many = maps_for(column);
    if maps.len() != many as usize {
        return Err(RenumberError::OtherCount);
    }
    for i in 0..many {
        let number = i as usize;
        let map = &maps[number];
        if !leads_from(map, column, i) {
            return Err(RenumberError::OtherSource(number));
        }
        if !lead_alike(&maps[0], map) {
            return Err(RenumberError::OtherTarget(number));
        }
    }
    Ok(())
}

// How many maps a column takes.
fn maps_for(column: &Column<'_>) -> u32
    ensures { result ≡ maps_for column.now }
{
    let header = column.header();
    if header.source.shards > 1 {
        1
    } else {
        header.shards
    }
}

// Whether a map leads from where the one with this number has to.
fn leads_from(map: &Column<'_>, column: &Column<'_>, number: u32) -> bool
    ensures { IsTrue result ↔ (source_of map.now ≡ source_for column.now number) }
{
    let from = column.header();
    let shard = if from.source.shards > 1 {
        from.source.shard
    } else {
        number
    };
    map.header().source
        == RowSource {
            shards: from.shards,
            is_text: from.id.is_text,
            hash0: from.id.hash0,
            hash1: from.id.hash1,
            shard,
        }
}

// Whether two columns lead to one dictionary, or to a shard of it each.
fn lead_alike(one: &Column<'_>, other: &Column<'_>) -> bool
    ensures { IsTrue result ↔ LeadAlike one.now other.now }
{
    let (one, other) = (one.header(), other.header());
    one.shards == other.shards
        && one.id.is_text == other.id.is_text
        && one.id.hash0 == other.id.hash0
        && one.id.hash1 == other.id.hash1
}

// How many rows and how many strings maps have together, or the greatest number if there are more.
fn sizes_of(maps: &[Column<'_>]) -> (u64, u64)
    ensures rows { result.0 ≡ min (sum_of (map rows maps.now)) (2 ^ 64 - 1) }
    ensures strings { result.1 ≡ min (sum_of (map strings maps.now)) (2 ^ 64 - 1) }
{
    let (mut rows, mut strings) = (0u64, 0u64);
    for map in maps {
        let header = map.header();
        rows = rows.saturating_add(header.rows);
        strings = strings.saturating_add(header.id.count);
    }
    (rows, strings)
}

// The codes of a column by a map.
#[derive(Drop)]
struct RenumberedCodes<'a, 'c> {
    map: &'a [Symbol],
    column: &'a Column<'c>,
}

impl CodeList for RenumberedCodes<'_, '_> {
    ghost codes = { λ list. renumber list.map.now (codes list.column.now) };

    #[inline(always)]
    fn len(&self) -> usize {
        self.column.len()
    }

    #[inline(always)]
    fn code(&self, i: usize) -> u32 {
        let code = self.column.code(i).unwrap();
        at_code(self.map, Symbol::new(code)).id()
    }
}
