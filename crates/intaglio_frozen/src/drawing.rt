//! Keys that are drawn from strings.
ghost use Rattle.std.specs.Prelude.{◌≡◌};
ghost use Rattle.intaglio_frozen.specs.Freezing.{hash_all};

use crate::list::StringList;
use intaglio_hash::KeyedState;
use std::hash::{BuildHasher, Hasher};

// The hash of all strings, each after its length.
#[tactic(auto, unfolding(crate::specs::Freezing::hash_all))]
pub(crate) fn hash_all<L: StringList>(list: &L, key0: u64, key1: u64) -> u64
    ensures { result ≡ hash_all key0 key1 (L.strings list.now) }
{
    let mut hasher = KeyedState::with_keys(key0, key1).build_hasher();
    for i in 0..list.len() {
        let string = list.string(i);
        hasher.write_u64(string.len() as u64);
        hasher.write(string);
    }
    hasher.finish()
}
