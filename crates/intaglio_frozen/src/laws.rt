//! Laws for proofs of callers.
ghost use Rattle.std.specs.Prelude.{◌≡◌, [], ◌∷◌, map};
ghost use Rattle.intaglio_interner.specs.State.{first};
ghost use Rattle.intaglio_frozen.specs.Identity.{IsIdOfTable};
ghost use Rattle.intaglio_frozen.specs.IsFrozen.{IsFrozen};
ghost use Rattle.intaglio_frozen.specs.Laws.{RenumberingKeepsStrings, MapsCompose, MapsAreUnique, MergingNests, ShardMapsJoin, ShardsMerge};
ghost use Rattle.intaglio_frozen.specs.Layout.{kind, strings};

use crate::id::DictionaryId;
use intaglio::Table;
use intaglio_content::Content;
use std::hash::BuildHasher;

/// A look-up in a table finds what a look-up in the list of its spellings finds, which is what a frozen table
/// is, if a content's key is its spelling: for all kinds but paths.
///
/// The function does nothing: where a proof needs the law, the code calls it there.
///
/// ```
/// # use intaglio::SymbolTable;
/// # use intaglio_frozen::laws::spelling_law;
/// # use intaglio_frozen::{Frozen, FrozenKind, freeze};
/// # let mut table = SymbolTable::new(rt.alloc())?;
/// # let _symbol = table.get_or_intern("rose")?;
/// let bytes = freeze(rt.alloc(), &table, FrozenKind::Text, 0, 0)?;
/// let frozen = Frozen::open(&bytes)?;
/// let of_frozen = frozen.check_interned(b"rose");
/// let of_table = table.check_interned("rose");
/// spelling_law(&table, b"rose");
/// prove!(of_frozen == of_table);
/// ```
#[tactic(auto, using(crate::proofs::Found::first_spelled))]
pub fn spelling_law<C: Content, S: BuildHasher>(table: &Table<C, S>, string: &[u8])
    requires { (content : C) → C.key content ≡ C.spelling content ∷ [] }
    ensures { let contents = table.now.state.contents in
        first C.key contents (string.now ∷ [])
        ≡ first (λ w. w ∷ []) (map C.spelling contents) (string.now ∷ []) }
{
    // The contract is the law.
}

/// A dictionary of the same kind with the same strings is the same, whatever its keys and its pilots are. So
/// a column fits each of them, and decoding it with any gives the same lines.
///
/// The function does nothing: its contract is the law.
pub fn same_dictionary_law(first: &[u8], second: &[u8], id: DictionaryId)
    requires first { IsFrozen first.now }
    requires second { IsFrozen second.now }
    requires kind { kind first.now ≡ kind second.now }
    requires strings { strings first.now ≡ strings second.now }
    requires id { IsIdOfTable first.now id }
    ensures { IsIdOfTable second.now id }
{
    // The contract is the law.
    let _lengths = (first.len(), second.len());
}

/// Decoding renumbered codes under the merged dictionary gives what decoding the codes under the old one
/// gave, also where a code is no symbol. The merged dictionary has fewer strings than the number of the
/// missing code, 2^32 - 1, as each frozen table has.
///
/// ```
/// # use intaglio_frozen::laws::renumbering_law;
/// renumbering_law();
/// ```
#[tactic(auto, using(crate::proofs::Renumbered::renumbering))]
pub fn renumbering_law()
    ensures { RenumberingKeepsStrings }
{
    // The contract is the law.
}

/// Renumbering the codes of one map by another gives a map from the first list to the last.
#[tactic(auto, using(crate::proofs::Renumbered::composed))]
pub fn map_law()
    ensures { MapsCompose }
{
    // The contract is the law.
}

/// There is only one map from a list to strings of which no two are equal, as those of a table.
#[tactic(auto, using(crate::proofs::Renumbered::unique))]
pub fn one_map_law()
    ensures { MapsAreUnique }
{
    // The contract is the law.
}

/// Merging is the same whichever way it is nested: lists may be merged first,
/// and then their union with others.
#[tactic(auto, using(crate::proofs::Renumbered::nested))]
pub fn nesting_law()
    ensures { MergingNests }
{
    // The contract is the law.
}

/// The shards of a union are the unions of shards: so shards can be merged each by itself, and the numbering
/// depends only on the lists in their order and on the number of shards.
#[tactic(auto, using(crate::proofs::Filtered::shards_merge))]
pub fn sharding_law()
    ensures { ShardsMerge }
{
    // The contract is the law.
}

/// The maps of the shards of one dictionary to those of another are together one map, where the numbers of a
/// shard are counted on from the end of the shards before it.
#[tactic(auto, using(crate::proofs::Joined::shard_maps))]
pub fn joining_law()
    ensures { ShardMapsJoin }
{
    // The contract is the law.
}
