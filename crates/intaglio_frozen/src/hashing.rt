//! The hashes of strings.
ghost use Rattle.std.specs.Prelude.{◌≡◌, IfOk};
ghost use Rattle.intaglio_frozen.specs.Freezing.{hashes_under};

use crate::list::StringList;
use crate::numbers::hash_by;
use intaglio_hash::KeyedState;
use std::alloc::{AllocError, Global};

// The hashes of the strings under two keys, in the order of their symbols.
pub(crate) fn hashes<L: StringList>(
    alloc: Global,
    list: &L,
    key0: u64,
    key1: u64,
) -> Result<Vec<u64>, AllocError>
    ensures { IfOk result (λ hashes. hashes.items ≡ hashes_under key0 key1 (L.strings list.now)) }
{
    let state = KeyedState::with_keys(key0, key1);
    let mut hashes = Vec::with_capacity(alloc, list.len())?;
    for i in 0..list.len() {
        hashes.push_reserved(hash_by(&state, list.string(i)));
    }
    Ok(hashes)
}
