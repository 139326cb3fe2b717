//! Searches by a hash.
ghost use Rattle.std.specs.Prelude.{◌≡◌, ℕ, ◌+◌, ◌^◌, ◌<◌, ◌≤◌, [], length, get_or, drop, slice_range, IfSome};
ghost use Rattle.intaglio_records.specs.Records.{AreRecords};
ghost use Rattle.intaglio_records.specs.Entries.{position};
ghost use Rattle.intaglio_records.specs.Matches.{IsPosition, IsSlot, IsSearch, GivesMatch, begin_of, most_left};

use crate::header::{HEADER, LONG, read_hash, read_number};
use crate::range::part;
use crate::search::Candidates;
use crate::string_buffer::StringBuffer;

/// A search for the strings that have a hash. It gives each of them once, and no other.
#[derive(Drop)]
pub struct Matches<'a> {
    pub(crate) records: &'a StringBuffer,
    pub(crate) candidates: Candidates<'a>,
    pub(crate) hash: u64,
    // Whether a slot is the number of the record, and not where it begins.
    pub(crate) is_long: bool,
}

impl<'a> Matches<'a> {
    /// The next string and its number, or `None` once all were given.
    #[inline(always)]
    pub fn next(&mut self) -> Option<(u32, &'a [u8])>
        requires { IsSearch self.old }
        ensures gives { GivesMatch self.old result self.new }
        ensures search { IsSearch self.new }
        ensures fewer { IfSome result (λ _. most_left self.new < most_left self.old) }
    {
        while let Some(slot) = self.candidates.next() {
            let at = begin(self.records, self.is_long, slot);
            let bytes = self.records.bytes();
            if read_hash(bytes, at) == self.hash {
                return Some((read_number(bytes, at), string_at(self.records, at)));
            }
        }
        None
    }
}

// Where the record of a slot begins.
#[inline(always)]
fn begin(records: &StringBuffer, is_long: bool, slot: u32) -> usize
    requires { IsSlot is_long records.now.list slot }
    ensures { result ≡ begin_of is_long records.now.list slot }
{
    if is_long {
        return long_begin(records, slot as usize);
    }
    slot as usize
}

// Where a record begins, by its number. Apart, so that the code of short indexes is short.
#[cold]
#[inline(never)]
fn long_begin(records: &StringBuffer, number: usize) -> usize
    requires { number < length records.now.list }
    ensures { result ≡ position records.now.list number }
{
    records.start(number)
}

// The string of the record that begins at this byte.
#[inline(always)]
#[tactic(auto, using(std::proofs::lemmas::Grind::common_steps, crate::proofs::Reading::reading_rules))]
fn string_at(records: &StringBuffer, at: usize) -> &[u8]
    requires begins { IsPosition records.now.list at }
    requires each { AreRecords records.now.list }
    requires few { length records.now.list ≤ 2 ^ 32 }
    ensures { (i : ℕ) → i < length records.now.list → at ≡ position records.now.list i →
        result.now ≡ drop 13 (get_or records.now.list i []) }
{
    let bytes = records.bytes();
    let length = bytes[at + 12] as usize;
    if length == LONG {
        return long_string(records, read_number(bytes, at) as usize);
    }
    let start = at + HEADER;
    let end = start + length;
    part(bytes, start, end)
}

// A string whose record doesn't say how long it is. Apart, so that the code of the others is short.
#[cold]
#[inline(never)]
fn long_string(records: &StringBuffer, i: usize) -> &[u8]
    requires there { i < length records.now.list }
    requires each { AreRecords records.now.list }
    ensures { result.now ≡ drop 13 (get_or records.now.list i []) }
{
    &records.string(i)[HEADER..]
}
