//! A builder whose hashers report whether they got exactly the expected writes.
ghost use Rattle.std.specs.Prelude.{◌+◌, ◌-◌, ◌^◌, ◌==◌, false, length, slice_get, if◌then◌else◌};
ghost use Rattle.std.specs.Option.{option_map_or};
ghost use Rattle.std.specs.Cmp.Lexicographic.{pointwise};

use crate::support::builders::HasherCount;
use std::hash::{BuildHasher, Hasher};

/// A hasher that returns 1 if it got exactly the expected writes in order, and otherwise 0. It is also the
/// hash builder.
#[derive(Clone, Copy)]
pub struct ExpectedWrites {
    writes: &'static [&'static [u8]],
    matched: usize,
}

impl ExpectedWrites {
    /// A hasher that expects these writes.
    pub fn of(writes: &'static [&'static [u8]]) -> ExpectedWrites {
        ExpectedWrites { writes, matched: 0 }
    }
}

impl HasherCount for ExpectedWrites {}

impl Hasher for ExpectedWrites {
    ghost write = { λ state bytes.
        let expected = slice_get state.writes.now state.matched in
        let is_met = option_map_or (λ wanted. pointwise ◌==◌ wanted.now bytes) expected false in
        record state { matched = if is_met then state.matched + 1 else 2 ^ 64 - 1 } };

    ghost finish = { λ state. if state.matched == length state.writes.now then 1 else 0 };

    fn finish(&self) -> u64 {
        if self.matched == self.writes.len() {
            1
        } else {
            0
        }
    }

    fn write(&mut self, bytes: &[u8]) {
        self.matched = match self.writes.get(self.matched) {
            Some(wanted) if *wanted == bytes => self.matched + 1,
            _ => usize::MAX,
        };
    }
}

impl BuildHasher for ExpectedWrites {
    type Hasher = ExpectedWrites;

    ghost build_hasher = { λ state. state };

    fn build_hasher(&self) -> ExpectedWrites {
        *self
    }
}
