//! Look-ups of strings in groups. First all strings of a group are hashed, then the memory that their
//! look-ups will read is read, and only then is each string looked up. So the cache misses of these look-ups
//! overlap. Nothing is allocated. If the table is small, each string is hashed when it is looked up.
ghost use Rattle.std.specs.Prelude.{◌≡◌, ◌<◌, ◌≤◌, ℕ, List, drop, length};
ghost use Rattle.intaglio_frozen.specs.Ahead.{AreFirst};

use crate::list::StringList;
use intaglio_core::{AHEAD_FROM, GROUP};

/// A table whose look-ups [`look_ahead`] can hash ahead.
pub trait HashesAhead {
    // Whether a number is the hash of a string.
    ghost is_hash: { Self → List ℕ → ℕ → Type 0 };

    /// The hash of a string.
    fn hash(&self, string: &[u8]) -> u64
        ensures { is_hash self.now string.now result };

    /// The number of the table's strings.
    fn count(&self) -> usize;

    /// Reads what a look-up by this hash will read, and returns one of the bytes that it read, or 0.
    fn touch(&self, hash: u64) -> u8;
}

/// Makes sure that the hash of the string at `place` is among `hashes`, and returns its position there.
/// `used` is how many of the hashes, from the front, belong to strings before it. If all do, the next strings
/// are hashed: as many as there are places in `hashes`, or one if the table is small. (No clause says how
/// many.)
#[inline(always)]
#[tactic(auto, using(std::proofs::lemmas::Grind::common_steps, crate::proofs::HashedAhead::alone))]
pub fn look_ahead<T: HashesAhead, L: StringList>(
    table: &T,
    list: &L,
    place: usize,
    hashes: &mut [u64],
    used: usize,
) -> usize
    requires within { place < length (L.strings list.now) }
    requires left { AreFirst (T.is_hash table.now) (drop place (L.strings list.now)) (drop used hashes.old) }
    requires some { 0 < length hashes.old }
    ensures left { AreFirst (T.is_hash table.now) (drop place (L.strings list.now)) (drop result hashes.new) }
    ensures some { result < length hashes.new }
    ensures places { length hashes.new ≡ length hashes.old }
{
    if used < hashes.len() {
        return used;
    }
    if table.count() < AHEAD_FROM {
        let last = hashes.len() - 1;
        hashes[last] = table.hash(list.string(place));
        return last;
    }
    hash_group(table, list, place, hashes);
    0
}

// Hashes the strings from a position on, one for each place, and reads what look-ups by these hashes will
// read. A call of its own, so that `look_ahead` is short where it is inlined.
#[inline(never)]
fn hash_group<T: HashesAhead, L: StringList>(table: &T, list: &L, place: usize, hashes: &mut [u64])
    requires within { place ≤ length (L.strings list.now) }
    ensures hashes { AreFirst (T.is_hash table.now) (drop place (L.strings list.now)) hashes.new }
    ensures places { length hashes.new ≡ length hashes.old }
{
    let count = hashes.len().min(list.len() - place);
    for i in 0..count {
        hashes[i] = table.hash(list.string(place + i));
    }
    touch_each(table, &hashes[..count], &mut [0; GROUP]);
}

// The bytes that are read are written, and the call isn't inlined, so that the compiler can't leave out the
// reads.
#[inline(never)]
fn touch_each<T: HashesAhead>(table: &T, hashes: &[u64], touched: &mut [u8]) {
    for i in 0..hashes.len().min(touched.len()) {
        touched[i] = table.touch(hashes[i]);
    }
}
