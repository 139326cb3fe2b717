//! A byte for each bucket, which rules out most hashes that no symbol of the bucket has.
ghost use Rattle.std.specs.Prelude.{ℕ, ◌↔◌, IsTrue};
ghost use Rattle.intaglio_index.specs.Filter.{IsMarked};

// Whether the hash's bit is set.
pub(super) fn is_marked(filter: u8, hash: u64) -> bool
    ensures { IsTrue result ↔ IsMarked filter hash }
{
    filter >> (hash >> 61) & 1 == 1
}

// The filter with the hash's bit set.
pub(super) fn marked(filter: u8, hash: u64) -> u8
    ensures set { IsMarked result hash }
    ensures kept { (other : ℕ) → IsMarked filter other → IsMarked result other }
{
    filter | 1 << (hash >> 61)
}
