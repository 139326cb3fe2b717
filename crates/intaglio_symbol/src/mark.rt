//! Rollback points.
ghost use Rattle.std.specs.Prelude.{◌≡◌, ◌^◌, ◌<◌};

use std::marker::Model;

/// A length to which a table can be rolled back.
///
/// A mark doesn't know its table. A table with fewer contents reports it as stale: see
/// [`StaleMark`](crate::StaleMark).
#[derive(Debug, Clone, Copy, Hash, PartialEq, Eq, PartialOrd, Ord)]
pub struct Mark(usize);

impl Model for Mark {
    ghost use Rattle.std.specs.Prelude.{ℕ, ◌^◌, ◌<◌};

    ghost Value = { ℕ };

    ghost view = { λ mark. mark.0 };

    ghost invariant = { λ mark. mark.0 < 2 ^ 64 };

    ghost inverse = { λ count. record { 0 = count } };
}

impl Mark {
    /// The mark with this count of contents.
    pub const fn new(count: usize) -> Mark
        ensures { result ≡ count }
    {
        Mark(count)
    }

    /// The count of contents to which a rollback leads.
    pub const fn count(self) -> usize
        ensures { result ≡ self }
    {
        self.0
    }
}
