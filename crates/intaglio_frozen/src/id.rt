//! The identity of a dictionary.
ghost use Rattle.std.specs.Prelude.{◌≡◌};
ghost use Rattle.std.specs.Hash.DefaultHasher.{with_keys, write, finish};
ghost use Rattle.intaglio_frozen.specs.Id.{IsIdOf, kind_number};

use intaglio_hash::KeyedHasher;
use std::hash::Hasher;

/// What a dictionary is: its kind and its strings in their order, by their number and two hashes.
///
/// It is the same for a dictionary that is frozen again under other keys. That two dictionaries with equal
/// ones are equal is an assumption.
#[repr(C)]
#[derive(Debug, Clone, Copy, PartialEq, Eq)]
pub struct DictionaryId {
    /// Whether the strings are texts. Otherwise they are any bytes.
    pub is_text: bool,
    /// How many strings there are.
    pub count: u64,
    /// The hash of the strings under the number of the kind and 0.
    pub hash0: u64,
    /// The hash of the strings under the number of the kind and 1.
    pub hash1: u64,
}

impl DictionaryId {
    /// That of a dictionary of so many strings, of which these are the ends, four bytes each, and the text,
    /// as a frozen table has them. Each byte is read.
    pub fn of(is_text: bool, count: u64, ends: &[u8], text: &[u8]) -> DictionaryId
        ensures { IsIdOf is_text count ends.now text.now result }
    {
        let kind = kind_number(is_text) as u64;
        DictionaryId {
            is_text,
            count,
            hash0: hash_under(kind, 0, ends, text),
            hash1: hash_under(kind, 1, ends, text),
        }
    }
}

/// The number of a kind, in headers of files: 0 for any bytes, and 1 for texts.
pub fn kind_number(is_text: bool) -> u32
    ensures { result ≡ kind_number is_text }
{
    if is_text { 1 } else { 0 }
}

// The hash of two sections.
fn hash_under(key0: u64, key1: u64, ends: &[u8], text: &[u8]) -> u64
    ensures { result ≡ finish (write (write (with_keys key0 key1) ends.now) text.now) }
{
    let mut hasher = KeyedHasher::with_keys(key0, key1);
    hasher.write(ends);
    hasher.write(text);
    hasher.finish()
}
