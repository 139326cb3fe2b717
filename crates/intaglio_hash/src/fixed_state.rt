//! A hash builder of fixed seed.
ghost use Rattle.std.specs.Hash.FoldHasher.{initial};

use crate::fixed_hasher::FixedHasher;
use std::hash::BuildHasher;

/// A hash builder of fixed seed: each [`FixedHasher`] that it builds is the same.
///
/// Its hashes are those of std's `BuildHasherDefault<FoldHasher>`. Hashing alone takes longer than with that;
/// a look-up in a packed table, which also compares, takes less time. Packed tables have it by default; an
/// owned table gets it by `with_hasher`. The [crate's page](crate) compares the builders.
///
/// ```
/// use intaglio_hash::FixedState;
/// use std::collections::HashMap;
/// use std::hash::{BuildHasher, BuildHasherDefault, FoldHasher};
///
/// let mut counts = HashMap::with_hasher(rt.alloc(), FixedState);
/// counts.insert("word", 1)?;
/// assert!(rt; counts.get(&"word") == Some(&1));
/// let std: BuildHasherDefault<FoldHasher> = BuildHasherDefault::new();
/// assert!(rt; FixedState.hash_one("word") == std.hash_one("word"));
/// ```
#[derive(Clone, Copy, Debug, Default)]
pub struct FixedState;

impl BuildHasher for FixedState {
    type Hasher = FixedHasher;

    ghost build_hasher = { λ _. initial };

    #[inline]
    fn build_hasher(&self) -> FixedHasher {
        FixedHasher::default()
    }
}
