//! Merges dictionaries.
ghost use Rattle.std.specs.Prelude.{◌≡◌, ◌≢◌, ◌^◌, ◌<◌, map, All, IfErr, IfOk, OnOk};
ghost use Rattle.intaglio_frozen.specs.Merging.{AreMaps, union};
ghost use Rattle.intaglio_columns.specs.Frozen.{IsUnionRefusal};
ghost use Rattle.intaglio_frozen.specs.Freezing.{HasKeysFor, IsTableOf};
ghost use Rattle.intaglio_frozen.specs.Layout.{shards as shards_of};
ghost use Rattle.intaglio_frozen.specs.SetId.{IsAt};
ghost use Rattle.intaglio_frozen.specs.declared.kind.FrozenKind.{FrozenKind};
ghost use Rattle.intaglio_columns.specs.declared.error.FreezingError.TheVariants.{Stream};

use crate::error::FreezingError;
use crate::freezing::frozen_list;
use crate::progress::Progress;
use intaglio_frozen::{FreezeError, Frozen, FrozenKind, Merged, Place, merge_tables};
use intaglio_lines::error::StreamError;
use intaglio_symbol::{InternError, Symbol};
use std::alloc::Global;
use std::hash::BuildHasher;

/// The bytes of a frozen table of the distinct strings of several, in the order of their first occurrences, and
/// for each table the symbols of its strings: the map by which its codes are renumbered.
///
/// The builder is that of the table in which the strings are interned. The keys are as for
/// [`freeze_lines`](crate::freezing::freeze_lines).
///
/// # Errors
///
/// `Table` if the strings have no frozen table of this kind, or `Memory`.
pub fn merge<S: BuildHasher + Drop, P: Progress>(
    alloc: Global,
    tables: &[Frozen<'_>],
    kind: FrozenKind,
    keys: Option<(u64, u64)>,
    builder: S,
    progress: &mut P,
) -> Result<(Vec<u8>, Vec<Vec<Symbol>>), FreezingError>
    ensures table { IfOk result (λ made. IsTableOf kind (union tables.now) made.0.items) }
    ensures single { IfOk result (λ made. shards_of made.0.items ≡ 1) }
    ensures keyed { IfOk result (λ made. HasKeysFor keys (union tables.now) made.0.items) }
    ensures maps { IfOk result
        (λ made. AreMaps tables.now (union tables.now) (map (λ m. m.items) made.1.items)) }
    ensures err { IfErr result (IsUnionRefusal kind (union tables.now)) }
{
    frozen_union(alloc, tables, kind, keys, Place::SINGLE, builder, progress)
}

// As `merge`, of a shard at this place.
pub(crate) fn frozen_union<S: BuildHasher + Drop, P: Progress>(
    alloc: Global,
    tables: &[Frozen<'_>],
    kind: FrozenKind,
    keys: Option<(u64, u64)>,
    place: Place,
    builder: S,
    progress: &mut P,
) -> Result<(Vec<u8>, Vec<Vec<Symbol>>), FreezingError>
    requires { place.shard < place.shards }
    ensures table { IfOk result (λ made. IsTableOf kind (union tables.now) made.0.items) }
    ensures place { IfOk result (λ made. IsAt place made.0.items) }
    ensures keyed { IfOk result (λ made. HasKeysFor keys (union tables.now) made.0.items) }
    ensures maps { IfOk result
        (λ made. AreMaps tables.now (union tables.now) (map (λ m. m.items) made.1.items)) }
    ensures err { IfErr result (IsUnionRefusal kind (union tables.now)) }
{
    let merged = merged_tables(alloc, tables, builder)?;
    let bytes = frozen_list(alloc, &merged.table, kind, keys, place, progress)?;
    Ok((bytes, merged.maps))
}

/// The union of frozen tables and their maps, as [`merge_tables`] gives them, with the errors of [`merge`].
///
/// # Errors
///
/// `Table` with `TooMany` if there are more than 2^32 strings, or `Memory`.
pub fn merged_tables<S: BuildHasher + Drop>(
    alloc: Global,
    tables: &[Frozen<'_>],
    builder: S,
) -> Result<Merged<S>, FreezingError>
    ensures union { IfOk result (λ merged. merged.table.state.contents ≡ union tables.now) }
    ensures maps { IfOk result (λ merged.
        AreMaps tables.now (union tables.now) (map (λ m. m.items) merged.maps.items)) }
    ensures err { IfErr result (λ e. (kind : FrozenKind) → IsUnionRefusal kind (union tables.now) e) }
{
    match merge_tables(alloc, tables, builder) {
        Ok(merged) => Ok(merged),
        Err(InternError::Overflow(_)) => Err(FreezingError::Table(FreezeError::TooMany)),
        Err(InternError::Memory(_)) => Err(FreezingError::Stream(StreamError::Memory)),
    }
}
