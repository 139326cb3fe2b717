//! The identity of a dictionary, from the list of its strings.
ghost use Rattle.std.specs.Prelude.{◌≡◌};
ghost use Rattle.std.specs.List.{concat};
ghost use Rattle.std.specs.Hash.DefaultHasher.{with_keys, write, finish};
ghost use Rattle.intaglio_frozen.specs.Id.{IsIdOfStrings, end_behind, end_bytes};

use crate::id::{DictionaryId, kind_number};
use crate::list::StringList;
use intaglio_hash::KeyedHasher;
use std::hash::Hasher;

impl DictionaryId {
    /// That of the dictionary that has the strings of this list. Each is read twice.
    pub fn of_list<L: StringList>(is_text: bool, list: &L) -> DictionaryId
        ensures { IsIdOfStrings is_text (L.strings list.now) result }
    {
        let kind = kind_number(is_text) as u64;
        DictionaryId {
            is_text,
            count: list.len() as u64,
            hash0: hash_list(kind, 0, list),
            hash1: hash_list(kind, 1, list),
        }
    }
}

// The hash of the ends of strings, and then of their bytes.
fn hash_list<L: StringList>(key0: u64, key1: u64, list: &L) -> u64
    ensures { let strings = L.strings list.now in
        result ≡ finish (write (write (with_keys key0 key1) (end_bytes 0 strings)) (concat strings)) }
{
    let mut hasher = KeyedHasher::with_keys(key0, key1);
    write_ends(&mut hasher, list);
    write_texts(&mut hasher, list);
    hasher.finish()
}

#[tactic(auto, using(std::proofs::lemmas::Grind::common_steps, crate::proofs::Hashed::next_end, crate::proofs::Hashed::last_end))]
fn write_ends<L: StringList>(hasher: &mut KeyedHasher, list: &L)
    ensures { hasher.new ≡ write hasher.old (end_bytes 0 (L.strings list.now)) }
{
    let mut end = 0u32;
    for i in 0..list.len() {
        end = end_behind(end, list.string(i));
        hasher.write(&end.to_le_bytes());
    }
}

// The end of a string behind the end of those before it.
#[inline(always)]
fn end_behind(at: u32, string: &[u8]) -> u32
    ensures { result ≡ end_behind at string.now }
{
    at.wrapping_add((string.len() % (1 << 32)) as u32)
}

#[tactic(auto, using(std::proofs::lemmas::Grind::common_steps, crate::proofs::Hashed::next_text, crate::proofs::Hashed::last_text))]
fn write_texts<L: StringList>(hasher: &mut KeyedHasher, list: &L)
    ensures { hasher.new ≡ write hasher.old (concat (L.strings list.now)) }
{
    for place in 0..list.len() {
        hasher.write(list.string(place));
    }
}
