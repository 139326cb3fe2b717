//! From which dictionary the rows of a column come.
ghost use Rattle.std.specs.Prelude.{◌≡◌};
ghost use Rattle.intaglio_columns.specs.Source.{fits};

/// From which dictionary the rows of a column come.
///
/// In a map, row i is the string with symbol i of a dictionary in one file, or of one shard of a dictionary.
/// In any other column, the rows are lines.
#[derive(Debug, Clone, Copy, PartialEq, Eq)]
pub struct RowSource {
    /// How many shards the dictionary has: 1 if it is in one file, and 0 if the rows are lines.
    pub shards: u32,
    /// Whether its strings are texts.
    pub is_text: bool,
    /// The first hash of its identity.
    pub hash0: u64,
    /// The second one.
    pub hash1: u64,
    /// The shard whose strings are the rows.
    pub shard: u32,
}

impl RowSource {
    /// That of lines.
    pub const LINES: RowSource = RowSource {
        shards: 0,
        is_text: false,
        hash0: 0,
        hash1: 0,
        shard: 0,
    };

    /// Whether a column of a dictionary with so many shards can have this source. A map of a shard leads to a
    /// dictionary with as many shards.
    pub fn fits(&self, shards: u32) -> bool
        ensures { result ≡ fits shards self.now }
    {
        if self.shards == 0 {
            shards > 0 && !self.is_text && self.hash0 == 0 && self.hash1 == 0 && self.shard == 0
        } else {
            shards > 0 && self.shard < self.shards && (self.shards == 1 || self.shards == shards)
        }
    }
}
