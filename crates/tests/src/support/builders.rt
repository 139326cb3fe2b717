//! Hash builders that count their hashers, and hashers with known results.
ghost use Rattle.std.specs.Prelude.{None, slice_get, unwrap_or};
ghost use Rattle.std.specs.Option.{option_or};

use intaglio_hash::FixedState;
use std::cell::Cell;
use std::hash::{BuildHasher, BuildHasherDefault, FoldHasher, Hash, Hasher, RandomState};

/// Std's hash builder with a fixed seed.
pub type Fold = BuildHasherDefault<FoldHasher>;

/// The hash of a value by [`Fold`].
pub fn hash_of<T: Hash + Drop>(value: T) -> u64 {
    Fold::new().hash_one(value)
}

/// A hash builder that may count the hashers that it has made.
pub trait HasherCount: BuildHasher + Drop {
    /// The number of hashers that it has made, if it counts them.
    fn made(&self) -> Option<usize> {
        None
    }
}

impl HasherCount for BuildHasherDefault<FoldHasher> {}

impl HasherCount for FixedState {}

impl HasherCount for RandomState {}

/// A hasher that returns a fixed number, if there is one, or else the first byte that was written, or 0.
#[derive(Clone, Copy)]
pub struct Known {
    fixed: Option<u64>,
    first: Option<u8>,
}

impl Hasher for Known {
    ghost write = { λ state bytes.
        record { fixed = state.fixed; first = option_or state.first (slice_get bytes 0) } };

    ghost finish = { λ state. unwrap_or state.fixed (unwrap_or state.first 0) };

    fn finish(&self) -> u64 {
        let first = self.first.unwrap_or(0) as u64;
        self.fixed.unwrap_or(first)
    }

    fn write(&mut self, bytes: &[u8]) {
        if self.first.is_none() {
            self.first = bytes.first().copied();
        }
    }
}

/// A hash builder that counts its hashers, whose hashes are known.
#[derive(Drop)]
pub struct Counted {
    fixed: Option<u64>,
    made: Cell<usize>,
}

impl Counted {
    /// A builder whose hashers return this number, or if it is `None`, the first byte that was written, or 0.
    pub fn new(fixed: Option<u64>) -> Counted {
        Counted {
            fixed,
            made: Cell::new(0),
        }
    }
}

impl BuildHasher for Counted {
    type Hasher = Known;

    ghost build_hasher = { λ builder. record { fixed = builder.fixed; first = None } };

    fn build_hasher(&self) -> Known {
        self.made.set(self.made.get().wrapping_add(1));
        Known {
            fixed: self.fixed,
            first: None,
        }
    }
}

impl HasherCount for Counted {
    fn made(&self) -> Option<usize> {
        Some(self.made.get())
    }
}
