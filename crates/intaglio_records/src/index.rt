//! An index over records.
ghost use Rattle.std.specs.Prelude.{◌≡◌, ℕ, ◌-◌, ◌^◌, ◌<◌, ◌≤◌, [], ◌∷◌, ◌++◌, List, length, take};
ghost use Rattle.std.specs.Prelude.{true, false, IfOk, IsOk, OnOk, OnErr};
ghost use Rattle.intaglio_records.specs.Index.{IsIndex, IsOver, is_long_of, made_for};
ghost use Rattle.intaglio_records.specs.Records.{record_room_of};
ghost use Rattle.intaglio_records.specs.Matches.{FindsAll};

use crate::entries::{lines_of, remove_behind, slot_for};
use crate::lines::Lines;
use crate::matches::Matches;
use crate::records::StringRecords;
use crate::string_buffer::StringBuffer;
use std::alloc::AllocError;

/// An index over [`StringRecords`]: it finds strings by the hashes with which they were added. It reads the
/// records that it is over, so each call takes them, and whoever changes them changes it too.
///
/// It is made for a number of strings, its places, and takes about 9 bytes for each of them. Making it anew
/// for more reads the hash of each record, and hashes nothing.
///
/// A *short* index keeps where each record begins, and a search reads the record there. It can only be over
/// short records ([`is_short`](StringRecords::is_short)). A *long* index keeps the number of each record, and
/// a search also reads where that begins. Once the records aren't short any more,
/// [`lengthen`](RecordIndex::lengthen) makes the index long, before it is used again.
///
/// A contract sees it through `IsOver`, which says over which list of hashes and strings it is, and for how
/// much room of the records, and through `made_for`, its places.
#[derive(Drop)]
pub struct RecordIndex {
    // An entry for each record: its hash and its slot.
    lines: Lines,
    // For how many strings the lines were made. They may have room for more.
    places: usize,
    // Whether a slot is the number of the record, and not where it begins.
    is_long: bool,
}

impl RecordIndex {
    /// An index over these records, made for this many. It reads the hash of each, and hashes nothing. With
    /// no places it allocates nothing. It is short exactly if the records are
    /// ([`is_short`](StringRecords::is_short)).
    ///
    /// # Errors
    ///
    /// [`AllocError`] if the allocation fails. It comes first, so no record was read then.
    #[tactic(auto, using(crate::proofs::EntryLemmas::entry_rules))]
    pub fn over(records: &StringRecords, places: usize) -> Result<RecordIndex, AllocError>
        requires enough { length records.now.list ≤ places }
        requires few { places ≤ 2 ^ 32 }
        ensures over { IfOk result (IsOver records.now.list (record_room_of records.now)) }
        ensures places { IfOk result (λ index. made_for index ≡ places) }
        ensures short { record_room_of records.now ≤ 2 ^ 32 - 1 →
            IfOk result (λ index. is_long_of index ≡ false) }
        ensures none_needed { places ≡ 0 → IsOk result }
    {
        let is_long = !records.is_short();
        let lines = lines_of(records.buffer(), places, is_long)?;
        Ok(RecordIndex {
            lines,
            places,
            is_long,
        })
    }

    /// Makes the index long, and does nothing if it is long already. It reads the hash of each record, and
    /// hashes nothing. The places stay. A long index is over the records whatever room these have.
    ///
    /// # Errors
    ///
    /// [`AllocError`] if the allocation fails. Then the index is as before.
    #[inline]
    pub fn lengthen(&mut self, records: &StringRecords) -> Result<(), AllocError>
        requires { (room : ℕ) × IsOver records.now.list room self.old }
        ensures over { OnOk result ((room : ℕ) → IsOver records.now.list room self.new) }
        ensures err { OnErr result (self.new ≡ self.old) }
        ensures places { made_for self.new ≡ made_for self.old }
        ensures none_needed { is_long_of self.old ≡ true → IsOk result }
    {
        if self.is_long {
            return Ok(());
        }
        self.make_long(records)
    }

    // The part of `lengthen` that allocates.
    #[cold]
    #[inline(never)]
    fn make_long(&mut self, records: &StringRecords) -> Result<(), AllocError>
        requires { (room : ℕ) × IsOver records.now.list room self.old }
        ensures over { OnOk result ((room : ℕ) → IsOver records.now.list room self.new) }
        ensures err { OnErr result (self.new ≡ self.old) }
        ensures places { made_for self.new ≡ made_for self.old }
    {
        let lines = lines_of(records.buffer(), self.places, true)?;
        self.lines = lines;
        self.is_long = true;
        Ok(())
    }

    /// For how many strings it was made.
    #[inline]
    pub fn places(&self) -> usize
        ensures { result ≡ made_for self.now }
    {
        self.places
    }

    /// A search for the strings with this hash. It gives each of them once, and no other.
    #[inline(always)]
    pub fn matches<'a>(&'a self, records: &'a StringRecords, hash: u64) -> Matches<'a>
        requires { IsOver records.now.list (record_room_of records.now) self.now }
        ensures { FindsAll records.now.list hash result }
    {
        let candidates = self.lines.find(hash);
        Matches {
            records: records.buffer(),
            candidates,
            hash,
            is_long: self.is_long,
        }
    }

    /// Reads what a search by this hash will read first: a line, and a byte of the first record that may have
    /// the hash. So they are in the cache then. The byte itself means nothing.
    #[inline(always)]
    pub fn touch(&self, records: &StringRecords, hash: u64) -> u8
        requires { IsOver records.now.list (record_room_of records.now) self.now }
    {
        let mut candidates = self.lines.find(hash);
        match candidates.next() {
            Some(slot) => byte_of(records.buffer(), self.is_long, slot),
            None => 0,
        }
    }

    /// Enters the string that is added to the records next, with this hash. There must be a
    /// place for it. Nothing is allocated.
    #[inline(always)]
    #[tactic(auto, using(crate::proofs::EntryLemmas::entry_rules))]
    pub fn place(&mut self, records: &StringRecords, hash: u64)
        requires over { IsOver records.now.list (record_room_of records.now) self.old }
        requires free { length records.now.list < made_for self.old }
        ensures over { (string : List ℕ) →
            IsOver (records.now.list ++ (hash, string) ∷ []) (record_room_of records.now) self.new }
        ensures places { made_for self.new ≡ made_for self.old }
    {
        let buffer = records.buffer();
        let slot = slot_for(self.is_long, buffer.len(), buffer.byte_count());
        self.lines.place(hash, slot);
    }

    /// Removes the strings behind the first `n`, before they are dropped from the records.
    #[tactic(auto, using(crate::proofs::EntryLemmas::entry_rules))]
    pub fn truncate(&mut self, records: &StringRecords, n: usize)
        requires { IsOver records.now.list (record_room_of records.now) self.old }
        ensures over { IsOver (take n records.now.list) (record_room_of records.now) self.new }
        ensures places { made_for self.new ≡ made_for self.old }
    {
        remove_behind(&mut self.lines, records.buffer(), self.is_long, n);
    }

    /// Removes all strings. The places stay.
    pub fn clear(&mut self)
        requires { IsIndex self.old }
        ensures over { (xs : List (ℕ × List ℕ)) (room : ℕ) →
            IsOver xs room self.old → IsOver [] room self.new }
        ensures places { made_for self.new ≡ made_for self.old }
    {
        self.lines.clear();
    }
}

// The first byte of the record of a slot, or 0 if there is none.
#[inline(always)]
fn byte_of(records: &StringBuffer, is_long: bool, slot: u32) -> u8 {
    if is_long {
        return long_byte(records, slot as usize);
    }
    byte_at(records.bytes(), slot as usize)
}

// The same by the record's number. Apart, so that the code of short indexes is short.
#[cold]
#[inline(never)]
fn long_byte(records: &StringBuffer, number: usize) -> u8 {
    if number < records.len() {
        byte_at(records.bytes(), records.start(number))
    } else {
        0
    }
}

#[inline(always)]
fn byte_at(bytes: &[u8], at: usize) -> u8 {
    if at < bytes.len() { bytes[at] } else { 0 }
}
