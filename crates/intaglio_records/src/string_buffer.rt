//! A list of strings in one buffer of bytes, with a list of their ends.
ghost use Rattle.std.specs.Prelude.{◌≡◌, ◌+◌, ◌<◌, ◌≤◌, [], ◌∷◌, ◌++◌, length, max, min, sum_by, take, slice_get, slice_range, get_or, Some};
ghost use Rattle.std.specs.Prelude.{IfOk, IsOk, OnOk, OnErr};
ghost use Rattle.std.specs.List.{concat};
ghost use Rattle.intaglio_content.specs.Growth.{Doubles};
ghost use Rattle.intaglio_records.specs.Strings.{byte_count_of, byte_room_of, HasRoom};

use crate::end_list::StringEnds;
use crate::range::part;
use std::alloc::{AllocError, Global};
use std::marker::Model;

// The most bytes that short ends reach.
const SHORT_BYTES: usize = u32::MAX as usize;

/// A list of strings of bytes. All bytes are in one buffer, so a string costs no allocation of its own.
///
/// A contract sees the list of the strings, the room for further strings and for further bytes, and the
/// memory that is held for bytes.
#[derive(Drop)]
pub struct StringBuffer {
    bytes: Vec<u8>,
    // For how many bytes there is room in total, within the capacity of `bytes`. It is kept, since no clause
    // of `extend_from_slice` says that the capacity stays where there is room.
    room: usize,
    ends: StringEnds,
}

impl Model for StringBuffer {
    ghost use Rattle.std.specs.Prelude.{◌-◌, ◌≤◌, length, vec_capacity};
    ghost use Rattle.intaglio_records.specs.Strings.{Strings, strings_code, strings_from, AreEnds};

    ghost Value = { Strings };

    ghost coded = { strings_code };

    ghost view = { λ p. record {
      list = strings_from 0 p.bytes.items p.ends.list;
      most = p.ends.most;
      spare_bytes = p.room - length p.bytes.items;
      held_bytes = vec_capacity p.bytes;
    } };

    ghost invariant = { λ p. record {
      ends : AreEnds 0 (length p.bytes.items) p.ends.list;
      within : length p.bytes.items ≤ p.room;
      held : p.room ≤ vec_capacity p.bytes;
      reached : p.room ≤ p.ends.largest;
    } };
}

#[tactic(auto, using(crate::proofs::Ends::buffer_rules))]
impl StringBuffer {
    /// An empty list, which allocates nothing.
    pub fn new(alloc: Global) -> StringBuffer
        ensures { result ≡ record { list = []; most = 0; spare_bytes = 0; held_bytes = 0 } }
    {
        StringBuffer {
            bytes: Vec::new(alloc),
            room: 0,
            ends: StringEnds::new(alloc),
        }
    }

    /// An empty list with room for this many strings of this many bytes together. Where a number is 0,
    /// nothing is allocated for it.
    ///
    /// # Errors
    ///
    /// [`AllocError`] if an allocation fails.
    pub fn with_capacity(
        alloc: Global,
        strings: usize,
        bytes: usize,
    ) -> Result<StringBuffer, AllocError>
        ensures made { IfOk result (λ p.
            p ≡ record { list = []; most = strings; spare_bytes = bytes; held_bytes = bytes }) }
        ensures none_needed { strings ≡ 0 → bytes ≡ 0 → IsOk result }
    {
        let ends = StringEnds::with_capacity(alloc, strings, bytes > SHORT_BYTES)?;
        let room = bytes;
        let bytes = Vec::with_capacity(alloc, room)?;
        Ok(StringBuffer { bytes, room, ends })
    }

    /// The allocator of the list.
    pub fn alloc(&self) -> Global {
        *self.bytes.allocator()
    }

    /// The number of strings.
    pub fn len(&self) -> usize
        ensures { result ≡ length self.now.list }
    {
        self.ends.len()
    }

    /// How many strings there is room for in total.
    pub fn capacity(&self) -> usize
        ensures room { result ≡ self.now.most }
        ensures within { length self.now.list ≤ result }
    {
        self.ends.capacity()
    }

    /// The number of bytes of all strings together.
    pub fn byte_count(&self) -> usize
        ensures { result ≡ sum_by length self.now.list }
    {
        self.bytes.len()
    }

    /// How many bytes there is room for in total.
    pub fn byte_room(&self) -> usize
        ensures { result ≡ byte_room_of self.now }
    {
        self.room
    }

    /// For how many bytes it holds memory: at least those of all strings and the spare ones.
    pub fn held_bytes(&self) -> usize
        ensures { result ≡ self.now.held_bytes }
    {
        self.bytes.capacity()
    }

    /// A string that is there.
    #[inline(always)]
    pub fn string(&self, i: usize) -> &[u8]
        requires { i < length self.now.list }
        ensures { slice_get self.now.list i ≡ Some result.now }
    {
        let end = self.ends.end(i);
        let start = self.ends.start(i);
        part(&self.bytes, start, end)
    }

    /// Where a string that is there begins in [`bytes`](StringBuffer::bytes).
    #[inline(always)]
    pub fn start(&self, i: usize) -> usize
        requires { i < length self.now.list }
        ensures { result ≡ sum_by length (take i self.now.list) }
    {
        self.ends.start(i)
    }

    /// The bytes of all strings, one string behind the other.
    #[inline(always)]
    pub fn bytes(&self) -> &[u8]
        ensures { result.now ≡ concat self.now.list }
    {
        self.bytes.as_slice()
    }

    /// Makes room for this many more bytes. If the buffer has to grow, its room is for just as many then.
    ///
    /// # Errors
    ///
    /// [`AllocError`] if the allocation fails. Then nothing has changed.
    pub fn reserve_exact(&mut self, bytes: usize) -> Result<(), AllocError>
        ensures list { self.new.list ≡ self.old.list }
        ensures most { self.new.most ≡ self.old.most }
        ensures spare_bytes { OnOk result (self.new.spare_bytes ≡ max bytes self.old.spare_bytes) }
        ensures err { OnErr result (self.new.spare_bytes ≡ self.old.spare_bytes) }
        ensures none_needed { bytes ≤ self.old.spare_bytes → IsOk result }
    {
        if bytes <= self.room - self.bytes.len() {
            return Ok(());
        }
        let Some(room) = self.bytes.len().checked_add(bytes) else {
            return Err(AllocError);
        };
        if room > self.ends.largest() {
            let long = self.ends.to_long(*self.bytes.allocator())?;
            self.bytes.reserve_exact(bytes)?;
            self.ends = long;
            self.room = room;
            return Ok(());
        }
        self.bytes.reserve_exact(bytes)?;
        self.room = room;
        Ok(())
    }

    /// Makes room for this many more strings, not for their bytes. If the list of ends has to grow, its room
    /// at least doubles.
    ///
    /// # Errors
    ///
    /// [`AllocError`] if the allocation fails. Then nothing has changed.
    pub fn reserve_strings(&mut self, strings: usize) -> Result<(), AllocError>
        ensures list { self.new.list ≡ self.old.list }
        ensures most { self.old.most ≤ self.new.most }
        ensures spare_bytes { self.new.spare_bytes ≡ self.old.spare_bytes }
        ensures grows { Doubles (length self.old.list + strings) self.old.most self.new.most }
        ensures strings { OnOk result (length self.new.list + strings ≤ self.new.most) }
        ensures err { OnErr result (self.new.most ≡ self.old.most) }
        ensures none_needed { length self.old.list + strings ≤ self.old.most → IsOk result }
    {
        self.ends.reserve(strings)
    }

    /// Adds a string that comes in two parts, for which there is room.
    #[inline(always)]
    pub fn push_parts(&mut self, front: &[u8], rest: &[u8])
        requires { HasRoom (length front.now + length rest.now) self.old }
        ensures list { self.new.list ≡ self.old.list ++ (front.now ++ rest.now) ∷ [] }
        ensures most { self.new.most ≡ self.old.most }
        ensures spare_bytes { let added = length front.now + length rest.now in
            self.old.spare_bytes ≡ self.new.spare_bytes + added }
        ensures byte_room { byte_room_of self.new ≡ byte_room_of self.old }
    {
        self.bytes.extend_from_slice(front).unwrap();
        self.bytes.extend_from_slice(rest).unwrap();
        let end = self.bytes.len();
        self.ends.push_reserved(end);
    }

    /// Drops all strings but the first `n`.
    pub fn truncate(&mut self, n: usize)
        ensures list { self.new.list ≡ take n self.old.list }
        ensures most { self.new.most ≡ self.old.most }
        ensures spare_bytes { self.old.spare_bytes ≤ self.new.spare_bytes }
        ensures byte_room { byte_room_of self.new ≡ byte_room_of self.old }
    {
        if n < self.ends.len() {
            let end = self.ends.start(n);
            self.bytes.truncate(end);
            self.ends.truncate(n);
        }
    }

    /// Shrinks the room to this many strings, or to those that there are if they are more. A failed
    /// allocation isn't reported, and leaves more room.
    pub fn shrink_strings(&mut self, strings: usize)
        ensures list { self.new.list ≡ self.old.list }
        ensures spare_bytes { self.new.spare_bytes ≡ self.old.spare_bytes }
        ensures held_bytes { self.new.held_bytes ≡ self.old.held_bytes }
        ensures most { min strings self.old.most ≤ self.new.most }
        ensures no_more { self.new.most ≤ self.old.most }
        ensures frees { length self.old.list ≡ 0 → strings ≡ 0 → self.new.most ≡ 0 }
    {
        self.ends.shrink_to(strings);
    }

    /// Shrinks the room for further bytes to `spare`, and the memory for bytes to that room.
    ///
    /// # Errors
    ///
    /// [`AllocError`] if an allocation fails. Then more memory is held, as before at most.
    pub fn shrink_bytes(&mut self, spare: usize) -> Result<(), AllocError>
        ensures list { self.new.list ≡ self.old.list }
        ensures most { self.new.most ≡ self.old.most }
        ensures spare_bytes { self.new.spare_bytes ≡ min spare self.old.spare_bytes }
        ensures no_more_held { self.new.held_bytes ≤ self.old.held_bytes }
        ensures held { OnOk result (self.new.held_bytes ≡ byte_room_of self.new) }
    {
        self.room = self.bytes.len() + spare.min(self.room - self.bytes.len());
        self.bytes.shrink_to(self.room);
        // Std's shrink doesn't report a failed allocation.
        if self.bytes.capacity() == self.room {
            Ok(())
        } else {
            Err(AllocError)
        }
    }

    /// Drops all strings.
    pub fn clear(&mut self)
        ensures list { self.new.list ≡ [] }
        ensures most { self.new.most ≡ self.old.most }
        ensures spare_bytes { self.old.spare_bytes ≤ self.new.spare_bytes }
        ensures byte_room { self.new.spare_bytes ≡ byte_room_of self.old }
    {
        self.bytes.clear();
        self.ends.truncate(0);
    }
}
