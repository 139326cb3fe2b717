//! Batches of look-ups.
ghost use Rattle.std.specs.Prelude.{◌≡◌, IfOk, map};
ghost use Rattle.intaglio_frozen.specs.LookUp.{find};

use crate::ahead::look_ahead;
use crate::block::Block;
use intaglio_core::GROUP;
use intaglio_symbol::Symbol;
use std::alloc::{AllocError, Global};

// What a look-up of each string finds. The strings are hashed ahead, in groups.
pub(crate) fn find_all(
    alloc: Global,
    block: &Block<'_>,
    strings: &[&[u8]],
) -> Result<Vec<Option<Symbol>>, AllocError>
    ensures { IfOk result (λ found. found.items ≡ map (λ s. find block.now s.now) strings.now) }
{
    let mut found = Vec::with_capacity(alloc, strings.len())?;
    let mut hashes = [0; GROUP];
    let mut used = GROUP;
    for place in 0..strings.len() {
        used = look_ahead(block, &strings, place, &mut hashes, used);
        found.push_reserved(block.find_hashed(hashes[used], strings[place]));
        used += 1;
    }
    Ok(found)
}
