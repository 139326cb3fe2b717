//! Up to eleven entries in 64 bytes.
ghost use Rattle.std.specs.Prelude.{◌≡◌, ℕ, ◌<◌, ◌≤◌, ◌==◌, ◌∷◌, [], cond, List, length, get_or};
ghost use Rattle.std.specs.Int.{bit_at};
ghost use Rattle.intaglio_records.specs.Line.{Entry, tag_of, IsLine};

use std::simd::prelude::*;

// How many entries a line has room for.
pub(crate) const SLOTS: usize = 11;

/// Up to eleven entries, in the order in which they were added, and the number of another line.
///
/// An entry is a number of four bytes, its slot, and a tag, a byte of a hash. No entry has the tag 0.
#[derive(Clone, Copy)]
pub struct Line {
    tags: [u8; 16],
    // The slots, and last the number of the other line.
    slots: [u32; 12],
}

/// The tag of a hash: its top eight bits, with 1 in place of 0.
#[inline(always)]
pub fn tag_of(hash: u64) -> u8
    ensures { result ≡ tag_of hash }
{
    let top = (hash >> 56) as u8;
    if top == 0 { 1 } else { top }
}

impl Line {
    /// A line without entries.
    pub fn empty(next: u32) -> Line
        ensures { IsLine result [] next }
    {
        let mut slots = [0; 12];
        slots[SLOTS] = next;
        Line {
            tags: [0; 16],
            slots,
        }
    }

    /// A bit for each of the sixteen tags, which is set if it is this one.
    #[inline(always)]
    pub fn equal(&self, tag: u8) -> u64
        ensures bits { (i : ℕ) → i < 16 → bit_at result i ≡ cond (get_or self.now.tags i 0 == tag) 1 0 }
        ensures above { (i : ℕ) → 16 ≤ i → bit_at result i ≡ 0 }
    {
        u8x16::from_array(self.tags)
            .simd_eq(u8x16::splat(tag))
            .to_bitmask()
    }

    /// The number of entries.
    #[inline(always)]
    pub fn count(&self) -> usize
        requires { (es : List Entry) × (next : ℕ) × IsLine self.now es next }
        ensures { (es : List Entry) (next : ℕ) → IsLine self.now es next → result ≡ length es }
    {
        self.equal(0).trailing_zeros() as usize
    }

    /// The slot of an entry, counted from the front.
    #[inline(always)]
    pub fn slot(&self, i: usize) -> u32
        requires { i < 11 }
        ensures { result ≡ get_or self.now.slots i 0 }
    {
        self.slots[i]
    }

    /// The number of the other line.
    #[inline(always)]
    pub fn next(&self) -> u32
        ensures { (es : List Entry) (next : ℕ) → IsLine self.now es next → result ≡ next }
    {
        self.slots[SLOTS]
    }

    /// Sets the number of the other line.
    #[tactic(auto, using(crate::proofs::LineLemmas::line_rules))]
    pub fn set_next(&mut self, next: u32)
        ensures { (es : List Entry) (old : ℕ) → IsLine self.old es old → IsLine self.new es next }
    {
        self.slots[SLOTS] = next;
    }

    /// Adds an entry behind the `count` that there are.
    #[inline(always)]
    #[tactic(auto, using(crate::proofs::LineLemmas::line_rules))]
    pub fn put(&mut self, count: usize, tag: u8, slot: u32)
        requires { count < 11 }
        ensures { (es : List Entry) (next hash : ℕ) → IsLine self.old es next → count ≡ length es →
            tag ≡ tag_of hash → IsLine self.new ((hash, slot) ∷ es) next }
    {
        self.tags[count] = tag;
        self.slots[count] = slot;
    }

    /// Removes the last entry, behind the `count` others.
    pub fn remove(&mut self, count: usize)
        requires { count < 11 }
        ensures { (e : Entry) (es : List Entry) (next : ℕ) → IsLine self.old (e ∷ es) next →
            count ≡ length es → IsLine self.new es next }
    {
        self.tags[count] = 0;
    }
}
