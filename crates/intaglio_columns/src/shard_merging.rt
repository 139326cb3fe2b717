//! Merges the same shard of several parts.
ghost use Rattle.std.specs.Prelude.{◌≡◌, ◌<◌, length, map, IfErr, IfOk, OnOk};
ghost use Rattle.intaglio_frozen.specs.Merging.{AreMaps, union};
ghost use Rattle.intaglio_frozen.specs.Shards.{BelongTo};
ghost use Rattle.intaglio_columns.specs.ShardMerging.{AreOwn, IsShardRefusal, merged_place};
ghost use Rattle.intaglio_frozen.specs.Freezing.{HasKeysFor, IsTableOf};
ghost use Rattle.intaglio_frozen.specs.SetId.{IsAt};
ghost use Rattle.intaglio_frozen.specs.declared.kind.FrozenKind.{FrozenKind};

use crate::error::ShardMergeError;
use crate::merging::frozen_union;
use crate::progress::Progress;
use intaglio_frozen::{Frozen, FrozenKind, Place, SetId, first_misplaced};
use intaglio_symbol::Symbol;
use std::alloc::Global;
use std::hash::BuildHasher;

/// A shard that was merged of those of several parts, and what is written of it.
#[derive(Drop)]
pub struct NewShard {
    /// The frozen table of its strings.
    pub bytes: Vec<u8>,
    /// For each part the symbols of its strings: the map by which its codes are renumbered.
    pub maps: Vec<Vec<Symbol>>,
}

/// Merges the same shard of several parts, each of which is a frozen table: into one of the distinct strings,
/// in the order of their first occurrences, with a map for each part.
///
/// Each string must belong to this shard. So the shards of one merge are one dictionary, whose set
/// ([`SetId::of_merge`]) the table has: it is made of the sets of the parts, in the parts' order. If there is
/// one shard, this is [`merge`](crate::merging::merge), and the set is what the strings are. FrozenKind, keys and
/// builder are as for that.
///
/// # Errors
///
/// `NoShard` if there is no such shard, `Misplaced` for a string that belongs to another one, `Strings` if the
/// strings have no frozen table of this kind, or if an allocation fails.
///
/// ```
/// use anyhow::Result;
/// use intaglio_columns::progress::Progress;
/// use intaglio_columns::shard_merging::merge_shard;
/// use intaglio_frozen::{Frozen, FrozenKind, SetId, freeze};
/// use intaglio_hash::FixedState;
///
/// // Says nothing of how far the merge is.
/// #[derive(Drop)]
/// struct Quiet;
///
/// impl Progress for Quiet {
///     fn interned(&mut self, _count: usize) {}
///
///     fn frozen(&mut self, _size: usize) {}
/// }
///
/// fn main(rt: HostRuntime) -> Result<()> {
///     let mut words = Vec::new(rt.alloc());
///     words.push(b"rose".as_slice())?;
///     let part = freeze(rt.alloc(), &words, FrozenKind::Text, 0, 0)?;
///
///     // The only shard of two parts.
///     let parts = [Frozen::open(&part)?, Frozen::open(&part)?];
///     let sets = [SetId { hash0: 5, hash1: 6 }; 2];
///     let made =
///         merge_shard(rt.alloc(), &parts, &sets, 1, 0, FrozenKind::Text, None, FixedState, &mut Quiet)?;
///     assert!(rt; Frozen::open(&made.bytes)?.len() == 1);
///     assert!(rt; made.maps.len() == 2);
///     Ok(())
/// }
/// ```
pub fn merge_shard<S: BuildHasher + Drop, P: Progress>(
    alloc: Global,
    parts: &[Frozen<'_>],
    sets: &[SetId],
    shards: u32,
    shard: u32,
    kind: FrozenKind,
    keys: Option<(u64, u64)>,
    builder: S,
    progress: &mut P,
) -> Result<NewShard, ShardMergeError>
    requires { length sets.now ≡ length parts.now }
    ensures table { IfOk result (λ made. IsTableOf kind (union parts.now) made.bytes.items) }
    ensures place { IfOk result (λ made. IsAt (merged_place shards shard sets.now) made.bytes.items) }
    ensures keyed { IfOk result (λ made. HasKeysFor keys (union parts.now) made.bytes.items) }
    ensures maps { IfOk result
        (λ made. AreMaps parts.now (union parts.now) (map (λ m. m.items) made.maps.items)) }
    ensures own { OnOk result (BelongTo shards shard (union parts.now)) }
    ensures below { OnOk result (shard < shards) }
    ensures err { IfErr result (IsShardRefusal kind shards shard parts.now) }
{
    check_own(parts, shards, shard)?;
    let set = SetId::of_merge(shards, sets);
    let place = Place { set, shards, shard };
    let (bytes, maps) = frozen_union(alloc, parts, kind, keys, place, builder, progress)?;
    Ok(NewShard { bytes, maps })
}

// Checks that there is such a shard, and that each string of each part belongs to it.
fn check_own(parts: &[Frozen<'_>], shards: u32, shard: u32) -> Result<(), ShardMergeError>
    ensures own { OnOk result (AreOwn shards shard parts.now) }
    ensures below { OnOk result (shard < shards) }
    ensures err { IfErr result (λ e. (kind : FrozenKind) → IsShardRefusal kind shards shard parts.now e) }
{
    if shard >= shards {
        return Err(ShardMergeError::NoShard);
    }
    for part in 0..parts.len() {
        if let Some(string) = first_misplaced(&parts[part], shards, shard) {
            return Err(ShardMergeError::Misplaced(part, string));
        }
    }
    Ok(())
}
