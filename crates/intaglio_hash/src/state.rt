//! A hash builder with two keys.
ghost use Rattle.std.specs.Prelude.{◌≡◌};
ghost use Rattle.std.specs.Hash.DefaultHasher.{with_keys};
ghost use Rattle.intaglio_hash.specs.KeyedState.{initial_hasher, random_key};

use crate::hasher::KeyedHasher;
use std::fmt;
use std::fmt::{Debug, Formatter};
use std::hash::{BuildHasher, RandomState};

/// A hash builder: each [`KeyedHasher`] that it builds has the same two keys.
///
/// Use it instead of std's `RandomState` if hashing should be faster, and with random keys
/// instead of a builder with a fixed seed if contents come from untrusted sources. The [crate's
/// page](crate) compares the builders.
///
/// Copies have the same keys. `Debug` doesn't print them.
///
/// ```
/// use intaglio_hash::KeyedState;
/// use std::collections::HashMap;
/// use std::hash::RandomState;
///
/// let state = KeyedState::from_random(&RandomState::new(&rt)?);
/// let mut counts = HashMap::with_hasher(rt.alloc(), state);
/// counts.insert("word", 1)?;
/// assert!(rt; counts.get(&"word") == Some(&1));
/// ```
#[derive(Clone, Copy)]
pub struct KeyedState {
    key0: u64,
    key1: u64,
}

impl KeyedState {
    /// A builder with these two keys.
    ///
    /// The same keys give the same hashes in each table, run and program. They protect against
    /// contents chosen to collide only if they are random and secret.
    ///
    /// ```
    /// # use intaglio_hash::KeyedState;
    /// # use std::hash::BuildHasher;
    /// let state = KeyedState::with_keys(0, 0);
    /// assert!(rt; state.hash_one("word") == 0xcbb9_9deb_b8ab_baae);
    /// ```
    #[inline]
    pub fn with_keys(key0: u64, key1: u64) -> KeyedState
        ensures { initial_hasher result ≡ with_keys key0 key1 }
    {
        KeyedState { key0, key1 }
    }

    /// A builder whose keys are `random.hash_one(0u64)` and `random.hash_one(1u64)`.
    ///
    /// Its hashes aren't those of `random`, since the keys of a `RandomState` can't be read. The same
    /// `random` always gives the same builder.
    ///
    /// ```
    /// # use intaglio_hash::KeyedState;
    /// # use std::hash::{BuildHasher, RandomState};
    /// let random = RandomState::new(&rt)?;
    /// let state = KeyedState::from_random(&random);
    /// assert!(rt; state.hash_one("word") == KeyedState::from_random(&random).hash_one("word"));
    /// ```
    pub fn from_random(random: &RandomState) -> KeyedState
        ensures { let key = random_key random.now in
            initial_hasher result ≡ with_keys (key 0) (key 1) }
    {
        KeyedState::with_keys(random.hash_one(0u64), random.hash_one(1u64))
    }
}

impl BuildHasher for KeyedState {
    type Hasher = KeyedHasher;

    ghost build_hasher = { initial_hasher };

    #[inline]
    fn build_hasher(&self) -> KeyedHasher {
        KeyedHasher::with_keys(self.key0, self.key1)
    }
}

impl Debug for KeyedState {
    fn fmt<W: fmt::Write>(&self, f: &mut Formatter<W>) -> fmt::Result {
        f.debug_struct("KeyedState").finish_non_exhaustive()
    }
}
