//! Which places are taken: a bit for each, in words.
ghost use Rattle.std.specs.Prelude.{◌≡◌, ◌*◌, ◌<◌, length};

// How many places a word has.
const WORD: usize = 64;

// How many words there are for so many places.
pub(crate) fn words_for(places: usize) -> usize
    ensures { places < 64 * result }
{
    places / WORD + 1
}

// Whether a place is free.
#[inline(always)]
pub(crate) fn is_free(words: &[u64], place: usize) -> bool
    requires { place < 64 * length words.now }
{
    (words[place / WORD] >> (place % WORD)) & 1 == 0
}

// Takes a place.
#[inline(always)]
pub(crate) fn take(words: &mut [u64], place: usize)
    requires { place < 64 * length words.old }
    ensures { length words.new ≡ length words.old }
{
    words[place / WORD] |= 1 << (place % WORD);
}

// Gives a place back.
#[inline(always)]
pub(crate) fn give_back(words: &mut [u64], place: usize)
    requires { place < 64 * length words.old }
    ensures { length words.new ≡ length words.old }
{
    words[place / WORD] &= !(1 << (place % WORD));
}
