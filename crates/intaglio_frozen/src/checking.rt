//! Checks of all strings of a table.
ghost use Rattle.std.specs.Prelude.{◌≡◌, ◌+◌, ◌≤◌, length, IfSome, MatchOption, None};
ghost use Rattle.intaglio_frozen.specs.Layout.{kind, strings};
ghost use Rattle.intaglio_frozen.specs.LookUp.{FindsAll};
ghost use Rattle.intaglio_frozen.specs.Checked.{AreHashesFrom, AreFoundFrom, IsFirstNotFoundFrom};
ghost use Rattle.intaglio_frozen.specs.IsFrozen.{IsBlock, text_kind, AreTexts};
ghost use Rattle.intaglio_frozen.specs.Fault.{IsFault};
ghost use Rattle.intaglio_frozen.specs.declared.error.FrozenError.TheVariants.{NotFound, NotUtf8};

use crate::block::Block;
use crate::kind::FrozenKind;
use crate::list::first_fault;

// How many strings are hashed before they are looked up, so that the cache misses of their look-ups overlap.
const BATCH: usize = 32;

// The first string that isn't found at its symbol.
#[tactic(auto, using(std::proofs::lemmas::Grind::common_steps, std::proofs::lemmas::Option::slice_get_within))]
pub(crate) fn first_not_found(block: &Block<'_>) -> Option<u32>
    ensures { MatchOption result (FindsAll block.now) (λ i. IsFault block.now (NotFound i)) }
{
    let mut hashes = [0u64; BATCH];
    let mut start = 0;
    while start < block.len() {
        let count = BATCH.min(block.len() - start);
        hash_strings(block, start, &mut hashes[..count]);
        if let Some(i) = first_misplaced(block, start, &hashes[..count]) {
            return Some(i);
        }
        start += count;
    }
    None
}

// Hashes the strings from `start` on, one for each place of the list.
fn hash_strings(block: &Block<'_>, start: usize, hashes: &mut [u64])
    requires { start + length hashes.old ≤ length (strings block.now) }
    ensures len { length hashes.new ≡ length hashes.old }
    ensures hashes { AreHashesFrom block.now start hashes.new }
{
    // The number of strings is at most 2^32.
    let _count = block.len();
    for k in 0..hashes.len() {
        hashes[k] = block.hash(start + k);
    }
}

// The first of the strings from `start` on, which have these hashes, that isn't found at its symbol.
pub(crate) fn first_misplaced(block: &Block<'_>, start: usize, hashes: &[u64]) -> Option<u32>
    requires within { start + length hashes.now ≤ length (strings block.now) }
    requires hashes { AreHashesFrom block.now start hashes.now }
    ensures { MatchOption result (AreFoundFrom block.now start (length hashes.now))
        (λ i. IsBlock block.now × IsFirstNotFoundFrom block.now start i) }
{
    // The number of strings is at most 2^32.
    let _count = block.len();
    for k in 0..hashes.len() {
        if !block.is_at(hashes[k], start + k) {
            return Some((start + k) as u32);
        }
    }
    None
}

// The first string that isn't UTF-8, if the kind is text.
pub(crate) fn first_no_text(block: &Block<'_>) -> Option<u32>
    ensures texts { result ≡ None → kind block.now ≡ text_kind → AreTexts (strings block.now) }
    ensures fault { IfSome result (λ i. IsFault block.now (NotUtf8 i)) }
{
    // The number of strings is at most 2^32.
    let _count = block.len();
    let kind = block.kind();
    if kind == FrozenKind::Text && block.is_text() {
        return None;
    }
    first_fault(kind, block)
}
