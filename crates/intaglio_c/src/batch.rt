//! Batches, as C passes them: many strings in one list of bytes, with the end of each.
ghost use Rattle.std.specs.Prelude.{◌≡◌, ◌-◌, ◌≤◌, ◌∷◌};
ghost use Rattle.intaglio_c.specs.Cited.{true, length, get_or, are_ends, is_batch, pieces};

use intaglio_frozen::StringList;
use intaglio_records::part;

// Whether the ends don't decrease, and stay within this many bytes.
fn are_ends(size: usize, ends: &[usize]) -> bool
    ensures ends { result ≡ are_ends size 0 ends.now }
{
    let mut start = 0;
    for &end in ends {
        if end < start || size < end {
            return false;
        }
        start = end;
    }
    true
}

// Whether bytes and ends are a batch, with this many places for its symbols.
#[tactic(auto, using(crate::proofs::Pieces::pieces_length))]
pub(crate) fn is_batch(bytes: &[u8], ends: &[usize], places: usize) -> bool
    ensures batch { result ≡ is_batch bytes.now ends.now places }
    ensures places { result ≡ true → places ≡ length (pieces bytes.now 0 ends.now) }
{
    places == ends.len() && are_ends(bytes.len(), ends)
}

// A batch, as a list of its strings.
#[derive(Drop)]
pub(crate) struct Batch<'a> {
    pub(crate) bytes: &'a [u8],
    pub(crate) ends: &'a [usize],
    pub ghost valid: { are_ends (length bytes.now) 0 ends.now ≡ true },
}

// Where the string at a position begins.
#[inline(always)]
fn start_of(ends: &[usize], i: usize) -> usize
    requires { i ≤ length ends.now }
    ensures { result ≡ get_or (0 ∷ ends.now) i 0 }
{
    if i == 0 {
        return 0;
    }
    ends[i - 1]
}

#[tactic(auto, using(crate::proofs::Pieces::pieces_steps))]
impl StringList for Batch<'_> {
    ghost strings = { λ batch. pieces batch.bytes.now 0 batch.ends.now };

    #[inline(always)]
    fn len(&self) -> usize {
        self.ends.len()
    }

    #[inline(always)]
    fn string(&self, i: usize) -> &[u8] {
        part(self.bytes, start_of(self.ends, i), self.ends[i])
    }
}
