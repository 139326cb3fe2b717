//! A list of strings with their hashes.
ghost use Rattle.std.specs.Prelude.{◌≡◌, ℕ, ◌+◌, ◌-◌, ◌*◌, ◌^◌, ◌<◌, ◌≤◌, ◌↔◌, [], ◌∷◌, ◌++◌, length, map, max, min, sum_by};
ghost use Rattle.std.specs.Prelude.{take, slice_get, Some, IfOk, IsOk, IsTrue, OnOk, OnErr, option_copied};
ghost use Rattle.intaglio_content.specs.Growth.{Doubles, DoublesBytes};
ghost use Rattle.intaglio_records.specs.Strings.{byte_room_of};
ghost use Rattle.intaglio_records.specs.Records.{AreRecords, HasRoom};
ghost use Rattle.intaglio_records.specs.Records.{pair_of, record_room_of, string_room_of, strings_of};

use crate::header::{HEADER, header};
use crate::string_buffer::StringBuffer;
use intaglio_content::doubled;
use std::alloc::{AllocError, Global};
use std::marker::Model;

// The most room for which four bytes reach the beginning of each record.
const SHORT: usize = u32::MAX as usize;

// The least room for strings after a growth.
const LEAST: usize = 4;

// The least room for bytes of strings after a growth.
const LEAST_BYTES: usize = 8;

/// A list of strings of bytes, each with a hash. All are in one buffer, so a string costs no allocation of
/// its own. It takes its bytes and 17 more, or 21 once there is room for more than 2^32 - 1 bytes of records.
///
/// A contract sees the list of pairs of a hash and a string, for how many strings there is room, and
/// the room for bytes of further strings, without those in front of a string.
/// [`RecordIndex`](crate::RecordIndex) finds a string by its hash.
#[derive(Drop)]
pub struct StringRecords {
    records: StringBuffer,
}

impl Model for StringRecords {
    ghost use Rattle.std.specs.Prelude.{◌-◌, ◌^◌, ◌≤◌, length, map};
    ghost use Rattle.intaglio_records.specs.Strings.{byte_room_of};
    ghost use Rattle.intaglio_records.specs.Records.{Records, records_code, pair_of, AreRecords, set_aside};

    ghost Value = { Records };

    ghost coded = { records_code };

    ghost view = { λ r. record {
      list = map pair_of r.records.list;
      most = r.records.most;
      spare_bytes = r.records.spare_bytes - set_aside r.records;
      held_bytes = r.records.held_bytes;
    } };

    ghost invariant = { λ r. record {
      each : AreRecords r.records.list;
      order : length r.records.list ≤ r.records.most;
      headers : set_aside r.records ≤ r.records.spare_bytes;
      small : byte_room_of r.records ≤ 2 ^ 64 - 1;
    } };
}

// How many bytes so many records take, whose strings have so many bytes together.
// Fails where `usize` overflows.
fn record_bytes(strings: usize, bytes: usize) -> Result<usize, AllocError>
    ensures sum { IfOk result (λ n. n ≡ 13 * strings + bytes) }
    ensures within { 13 * strings + bytes < 2 ^ 64 → IsOk result }
{
    let Some(headers) = strings.checked_mul(HEADER) else {
        return Err(AllocError);
    };
    let Some(needed) = headers.checked_add(bytes) else {
        return Err(AllocError);
    };
    Ok(needed)
}

// Whether so many records, whose strings have so many bytes together, take at most what four bytes reach.
fn is_short_room(strings: usize, bytes: usize) -> bool
    ensures { IsTrue result ↔ 13 * strings + bytes ≤ 2 ^ 32 - 1 }
{
    match record_bytes(strings, bytes) {
        Ok(needed) => needed <= SHORT,
        Err(_) => false,
    }
}

#[tactic(auto, using(crate::proofs::RecordLemmas::record_rules))]
impl StringRecords {
    /// An empty list, which allocates nothing.
    pub fn new(alloc: Global) -> StringRecords
        ensures { result ≡ record { list = []; most = 0; spare_bytes = 0; held_bytes = 0 } }
    {
        StringRecords {
            records: StringBuffer::new(alloc),
        }
    }

    /// An empty list with room for this many strings of this many bytes together. With room for none it
    /// allocates nothing.
    ///
    /// # Errors
    ///
    /// [`AllocError`] if an allocation fails.
    pub fn with_capacity(
        alloc: Global,
        strings: usize,
        bytes: usize,
    ) -> Result<StringRecords, AllocError>
        ensures made { let held = 13 * strings + bytes in IfOk result (λ r.
            r ≡ record { list = []; most = strings; spare_bytes = bytes; held_bytes = held }) }
        ensures none_needed { strings ≡ 0 → bytes ≡ 0 → IsOk result }
    {
        let needed = record_bytes(strings, bytes)?;
        let records = StringBuffer::with_capacity(alloc, strings, needed)?;
        Ok(StringRecords { records })
    }

    /// The allocator of the list.
    pub fn alloc(&self) -> Global {
        self.records.alloc()
    }

    // The records themselves, one behind the other.
    #[inline(always)]
    pub(crate) fn buffer(&self) -> &StringBuffer
        ensures list { map pair_of result.now.list ≡ self.now.list }
        ensures each { AreRecords result.now.list }
        ensures room { byte_room_of result.now ≡ record_room_of self.now }
    {
        &self.records
    }

    /// The number of strings.
    #[inline]
    pub fn len(&self) -> usize
        ensures { result ≡ length self.now.list }
    {
        self.records.len()
    }

    /// How many strings there is room for in total.
    #[inline]
    pub fn capacity(&self) -> usize
        ensures room { result ≡ self.now.most }
        ensures within { length self.now.list ≤ result }
    {
        self.records.capacity()
    }

    /// The number of bytes of all strings together.
    pub fn byte_count(&self) -> usize
        ensures { result ≡ sum_by length (strings_of self.now) }
    {
        self.records.byte_count() - HEADER * self.records.len()
    }

    /// For how many bytes of records it holds memory: at least those of all records and the spare ones.
    pub fn held_bytes(&self) -> usize
        ensures { result ≡ self.now.held_bytes }
    {
        self.records.held_bytes()
    }

    /// How many bytes of further strings there is room for.
    #[inline]
    pub fn spare_bytes(&self) -> usize
        ensures { result ≡ self.now.spare_bytes }
    {
        self.records.byte_room() - self.records.byte_count() - self.set_aside()
    }

    // How many bytes of the room are for those in front of the strings that there is room for.
    #[inline]
    fn set_aside(&self) -> usize
        ensures { result ≡ 13 * (self.now.most - length self.now.list) }
    {
        HEADER * (self.records.capacity() - self.records.len())
    }

    // How many bytes of strings there is room for in total.
    fn string_room(&self) -> usize
        ensures { result ≡ string_room_of self.now }
    {
        self.records.byte_room() - HEADER * self.records.capacity()
    }

    /// Whether the records are short: all that there is room for take at most 2^32 - 1 bytes. Then four
    /// bytes reach the beginning of each.
    #[inline]
    pub fn is_short(&self) -> bool
        ensures { IsTrue result ↔ record_room_of self.now ≤ 2 ^ 32 - 1 }
    {
        self.records.byte_room() <= SHORT
    }

    /// Whether the records are short ([`is_short`](StringRecords::is_short)), and stay so with room for this
    /// many more strings, made by [`reserve_strings`](StringRecords::reserve_strings).
    #[inline]
    pub fn stays_short(&self, strings: usize) -> bool
        ensures stays { IsTrue result →
            (most : ℕ) → Doubles (length self.now.list + strings) self.now.most most →
            13 * most + string_room_of self.now ≤ 2 ^ 32 - 1 }
        ensures enough { length self.now.list + strings ≤ self.now.most →
            record_room_of self.now ≤ 2 ^ 32 - 1 → IsTrue result }
        ensures grown { let needed = length self.now.list + strings in
            13 * max 4 (max needed (2 * self.now.most)) + string_room_of self.now ≤ 2 ^ 32 - 1 →
            IsTrue result }
    {
        if strings <= self.capacity() - self.len() {
            return self.is_short();
        }
        self.grows_short(strings)
    }

    // Whether the records stay short if the room for strings has to grow.
    #[cold]
    #[inline(never)]
    fn grows_short(&self, strings: usize) -> bool
        ensures { let needed = length self.now.list + strings in
            IsTrue result ↔
            13 * max 4 (max needed (2 * self.now.most)) + string_room_of self.now ≤ 2 ^ 32 - 1 }
    {
        match doubled(self.len(), self.capacity(), strings, LEAST) {
            Ok(most) => is_short_room(most, self.string_room()),
            Err(_) => false,
        }
    }

    /// A string.
    #[inline]
    pub fn get(&self, i: usize) -> Option<&[u8]>
        ensures { option_copied result ≡ slice_get (strings_of self.now) i }
    {
        if i < self.records.len() {
            Some(self.string(i))
        } else {
            None
        }
    }

    /// A string that is there.
    #[inline(always)]
    #[tactic(auto, using(crate::proofs::RecordLemmas::list_rules))]
    pub fn string(&self, i: usize) -> &[u8]
        requires { i < length self.now.list }
        ensures { slice_get (strings_of self.now) i ≡ Some result.now }
    {
        &self.records.string(i)[HEADER..]
    }

    /// Makes room for this many more strings, not for their bytes. If the room
    /// has to grow, it at least doubles.
    ///
    /// # Errors
    ///
    /// [`AllocError`] if an allocation fails. Then there is as much room as before.
    #[inline]
    pub fn reserve_strings(&mut self, strings: usize) -> Result<(), AllocError>
        ensures list { self.new.list ≡ self.old.list }
        ensures spare_bytes { self.new.spare_bytes ≡ self.old.spare_bytes }
        ensures grows { Doubles (length self.old.list + strings) self.old.most self.new.most }
        ensures strings { OnOk result (length self.new.list + strings ≤ self.new.most) }
        ensures err { OnErr result (self.new.most ≡ self.old.most) }
        ensures none_needed { length self.old.list + strings ≤ self.old.most → IsOk result }
    {
        if strings <= self.capacity() - self.len() {
            return Ok(());
        }
        self.grow_strings(strings)
    }

    // The part of `reserve_strings` that allocates. Apart, so that the test is inlined.
    #[cold]
    #[inline(never)]
    fn grow_strings(&mut self, strings: usize) -> Result<(), AllocError>
        requires { self.old.most < length self.old.list + strings }
        ensures list { self.new.list ≡ self.old.list }
        ensures spare_bytes { self.new.spare_bytes ≡ self.old.spare_bytes }
        ensures grown { let needed = length self.old.list + strings in
            OnOk result (self.new.most ≡ max 4 (max needed (2 * self.old.most))) }
        ensures err { OnErr result (self.new.most ≡ self.old.most) }
    {
        let most = doubled(self.records.len(), self.records.capacity(), strings, LEAST)?;
        let needed = record_bytes(most - self.records.len(), self.spare_bytes())?;
        let used = self.records.byte_count();
        if needed > usize::MAX - used {
            return Err(AllocError);
        }
        let spare = self.records.byte_room() - used;
        self.records.reserve_exact(needed)?;
        let reserved = self.records.reserve_strings(strings);
        if reserved.is_err() {
            // There are no more strings for which these bytes would be set aside.
            let _ = self.records.shrink_bytes(spare);
        }
        reserved
    }

    /// Makes room for this many more bytes of strings. If the room has to grow, it at least doubles.
    ///
    /// # Errors
    ///
    /// [`AllocError`] if the allocation fails. Then nothing has changed.
    #[inline]
    pub fn reserve_bytes(&mut self, bytes: usize) -> Result<(), AllocError>
        ensures list { self.new.list ≡ self.old.list }
        ensures most { self.new.most ≡ self.old.most }
        ensures spare_bytes { self.old.spare_bytes ≤ self.new.spare_bytes }
        ensures bytes { OnOk result (bytes ≤ self.new.spare_bytes) }
        ensures grows { let needed = sum_by length (strings_of self.old) + bytes in
            DoublesBytes needed (string_room_of self.old) (string_room_of self.new) }
        ensures err { OnErr result (self.new.spare_bytes ≡ self.old.spare_bytes) }
        ensures none_needed { bytes ≤ self.old.spare_bytes → IsOk result }
    {
        if bytes <= self.spare_bytes() {
            return Ok(());
        }
        self.grow_bytes(bytes)
    }

    // The part of `reserve_bytes` that allocates.
    #[cold]
    #[inline(never)]
    fn grow_bytes(&mut self, bytes: usize) -> Result<(), AllocError>
        requires { self.old.spare_bytes < bytes }
        ensures list { self.new.list ≡ self.old.list }
        ensures most { self.new.most ≡ self.old.most }
        ensures bytes { OnOk result (bytes ≤ self.new.spare_bytes) }
        ensures grows { let needed = sum_by length (strings_of self.old) + bytes in
            DoublesBytes needed (string_room_of self.old) (string_room_of self.new) }
        ensures err { OnErr result (self.new.spare_bytes ≡ self.old.spare_bytes) }
    {
        let room = doubled(self.byte_count(), self.string_room(), bytes, LEAST_BYTES)?;
        let needed = record_bytes(self.records.capacity(), room)?;
        let used = self.records.byte_count();
        self.records.reserve_exact(needed - used)
    }

    /// Shrinks the room to `min_capacity` strings, or to those that there are if they are more, and the room
    /// for bytes to those that there are.
    ///
    /// # Errors
    ///
    /// [`AllocError`] if an allocation fails. Then more room for strings or more
    /// memory is left, as before at most.
    pub fn shrink_to(&mut self, min_capacity: usize) -> Result<(), AllocError>
        ensures list { self.new.list ≡ self.old.list }
        ensures most { min min_capacity self.old.most ≤ self.new.most }
        ensures no_more { self.new.most ≤ self.old.most }
        ensures no_more_held { self.new.held_bytes ≤ self.old.held_bytes }
        ensures spare_bytes { self.new.spare_bytes ≡ 0 }
        ensures shrunk { OnOk result (self.new.most ≤ max (length self.old.list) min_capacity) }
        ensures shrunk_held { OnOk result (self.new.held_bytes ≡ record_room_of self.new) }
        ensures frees { length self.old.list ≡ 0 → min_capacity ≡ 0 → self.new.most ≡ 0 }
    {
        self.records.shrink_strings(min_capacity);
        let set_aside = HEADER * (self.records.capacity() - self.records.len());
        let shrunk = self.records.shrink_bytes(set_aside);
        if self.records.capacity() > self.records.len().max(min_capacity) {
            return Err(AllocError);
        }
        shrunk
    }

    /// Shrinks the room for further bytes of strings to this many, if it is more. A failed allocation isn't
    /// reported, and leaves more memory held.
    pub fn shrink_spare(&mut self, spare: usize)
        ensures list { self.new.list ≡ self.old.list }
        ensures most { self.new.most ≡ self.old.most }
        ensures spare_bytes { self.new.spare_bytes ≡ min spare self.old.spare_bytes }
        ensures no_more_held { self.new.held_bytes ≤ self.old.held_bytes }
    {
        let kept = self.set_aside() + spare.min(self.spare_bytes());
        let _ = self.records.shrink_bytes(kept);
    }

    /// Adds a string with its hash, for which there is room.
    #[inline(always)]
    #[tactic(auto, using(crate::proofs::RecordLemmas::list_rules))]
    pub fn push_hashed(&mut self, hash: u64, string: &[u8])
        requires { HasRoom (length string.now) self.old }
        ensures list { self.new.list ≡ self.old.list ++ (hash, string.now) ∷ [] }
        ensures most { self.new.most ≡ self.old.most }
        ensures spare_bytes { self.old.spare_bytes ≡ self.new.spare_bytes + length string.now }
        ensures room { record_room_of self.new ≡ record_room_of self.old }
    {
        // Beyond 2^32 strings there is no index, so no number is read.
        let number = (self.records.len() % (1 << 32)) as u32;
        let header = header(hash, number, string.len());
        self.records.push_parts(&header, string);
    }

    /// Drops all strings but the first `n`.
    #[tactic(auto, using(crate::proofs::RecordLemmas::list_rules))]
    pub fn truncate(&mut self, n: usize)
        ensures list { self.new.list ≡ take n self.old.list }
        ensures most { self.new.most ≡ self.old.most }
        ensures spare_bytes { self.old.spare_bytes ≤ self.new.spare_bytes }
        ensures byte_room { string_room_of self.new ≡ string_room_of self.old }
    {
        self.records.truncate(n);
    }

    /// Drops all strings.
    #[tactic(auto, using(crate::proofs::RecordLemmas::clear_rules))]
    pub fn clear(&mut self)
        ensures list { self.new.list ≡ [] }
        ensures most { self.new.most ≡ self.old.most }
        ensures spare_bytes { self.old.spare_bytes ≤ self.new.spare_bytes }
        ensures byte_room { self.new.spare_bytes ≡ string_room_of self.old }
    {
        self.records.clear();
    }
}
