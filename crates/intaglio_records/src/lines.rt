//! Entries in chains of lines.
ghost use Rattle.std.specs.Prelude.{◌≡◌, ◌≢◌, ◌+◌, ◌*◌, ◌%◌, ◌^◌, ◌<◌, ◌≤◌, [], vec_capacity, IfOk, IsOk};
ghost use Rattle.std.specs.Int.{IsPowerOfTwo};
ghost use Rattle.intaglio_records.specs.Search.{IsSearchFor, FindsAll};
ghost use Rattle.intaglio_records.specs.Chains.{AreLines, HaveRoom, IsPlaced, IsFirstFull, AreOthersFull};
ghost use Rattle.intaglio_records.specs.Chains.{IsFilled, places_of, IsNewest, AreEmpty, IsRemoved, EndWith};

use crate::line::{Line, SLOTS, tag_of};
use crate::search::Candidates;
use std::alloc::{AllocError, Global};

/// Entries of a hash and a slot, found by the hash.
///
/// Two hashes are of one class if they are equal modulo the number of first lines. Each class has a first
/// line, which has the oldest of its entries, at most eleven. The others are in overflow lines of the class:
/// the first line leads to the newest of these, and each to the one before it. So placing an entry and
/// removing the newest one read two lines at most, also if all hashes are equal. There are at most as many
/// overflow lines as an eleventh of the entries, and the memory for them is allocated with the first lines.
#[derive(Drop)]
pub struct Lines {
    lines: Vec<Line>,
    // How many first lines there are: a power of two, or 0.
    base: usize,
}

// How many entries a first line is made for.
const MEAN: usize = 8;

// How many first lines there are for so many entries.
#[tactic(auto, using(std::proofs::lemmas::Grind::common_steps, crate::proofs::Rounded::rounded_within))]
fn first_lines(places: usize) -> usize
    requires { places ≤ 2 ^ 32 }
    ensures power { 0 < result → IsPowerOfTwo result }
    ensures small { result ≤ 2 ^ 29 }
    ensures enough { places ≤ 8 * result }
    ensures none { places ≡ 0 → result ≡ 0 }
    ensures tight { 4 * result ≤ places + 3 }
{
    if places == 0 {
        return 0;
    }
    ((places + (MEAN - 1)) / MEAN).next_power_of_two()
}

// So many lines without entries, and memory for more, up to `most` in total.
fn empty_lines(alloc: Global, count: usize, most: usize) -> Result<Vec<Line>, AllocError>
    requires { count ≤ most }
    ensures made { IfOk result (λ lines. AreEmpty lines.items count) }
    ensures room { IfOk result (λ lines. vec_capacity lines ≡ most) }
    ensures none_needed { most ≡ 0 → IsOk result }
{
    let mut lines = Vec::with_capacity(alloc, most)?;
    for _i in 0..count {
        lines.push_reserved(Line::empty(0));
    }
    Ok(lines)
}

impl Lines {
    /// No entries, and room for at least so many, and for at most twice as many and six. Without places nothing
    /// is allocated.
    ///
    /// # Errors
    ///
    /// [`AllocError`] if the allocation fails.
    pub fn with_places(alloc: Global, places: usize) -> Result<Lines, AllocError>
        requires { places ≤ 2 ^ 32 }
        ensures empty { IfOk result (λ lines. IsFilled lines []) }
        ensures enough { IfOk result (λ lines. places ≤ places_of lines) }
        ensures tight { IfOk result (λ lines. places_of lines ≤ 2 * places + 6) }
        ensures none_needed { places ≡ 0 → IsOk result }
    {
        let base = first_lines(places);
        // Of n entries at most n / 11 are the first of an overflow line.
        let lines = empty_lines(alloc, base, base + base * MEAN / SLOTS)?;
        Ok(Lines { lines, base })
    }

    /// How many entries there is room for.
    pub fn places(&self) -> usize
        requires { AreLines self.now }
        ensures { result ≡ places_of self.now }
    {
        8 * self.base
    }

    // The class of a hash.
    #[inline(always)]
    fn class(&self, hash: u64) -> usize
        requires made { AreLines self.now }
        requires some { 0 < self.now.base }
        ensures { result ≡ hash % self.now.base }
    {
        (hash & (self.base as u64 - 1)) as usize
    }

    /// A search for the entries that may have a hash: those of its class and its tag, each once.
    #[inline(always)]
    pub fn find(&self, hash: u64) -> Candidates<'_>
        requires { AreLines self.now }
        ensures left { IsSearchFor hash self.now result }
        ensures found { FindsAll hash self.now }
    {
        let tag = tag_of(hash);
        if self.base == 0 {
            return Candidates {
                lines: &self.lines,
                line: 0,
                equal: 0,
                next: 0,
                tag,
            };
        }
        let first = self.class(hash);
        let line = &self.lines[first];
        Candidates {
            lines: &self.lines,
            line: first,
            equal: line.equal(tag),
            next: line.next() as usize,
            tag,
        }
    }

    /// Adds an entry, for which there is room. Nothing is allocated.
    #[inline(always)]
    pub fn place(&mut self, hash: u64, slot: u32)
        requires free { HaveRoom self.old }
        ensures placed { IsPlaced hash slot self.old self.new }
        ensures room { places_of self.new ≡ places_of self.old }
    {
        let first = self.class(hash);
        let count = self.lines[first].count();
        if count >= SLOTS {
            self.place_behind(first, hash, slot);
            return;
        }
        self.lines[first].put(count, tag_of(hash), slot);
    }

    // As `place`, where the first line is full.
    #[inline(never)]
    fn place_behind(&mut self, first: usize, hash: u64, slot: u32)
        requires free { HaveRoom self.old }
        requires class { first ≡ hash % self.old.base }
        requires full { IsFirstFull first self.old }
        ensures placed { IsPlaced hash slot self.old self.new }
        ensures room { places_of self.new ≡ places_of self.old }
    {
        let newest = self.lines[first].next() as usize;
        if newest != 0 {
            let count = self.lines[newest].count();
            if count < SLOTS {
                self.lines[newest].put(count, tag_of(hash), slot);
                return;
            }
        }
        self.place_in_new(first, newest as u32, hash, slot);
    }

    // As `place`, where all lines of the chain are full.
    fn place_in_new(&mut self, first: usize, newest: u32, hash: u64, slot: u32)
        requires free { HaveRoom self.old }
        requires class { first ≡ hash % self.old.base }
        requires full { IsFirstFull first self.old }
        requires others_full { AreOthersFull first self.old }
        requires newest { IsNewest first newest self.old }
        ensures placed { IsPlaced hash slot self.old self.new }
        ensures room { places_of self.new ≡ places_of self.old }
    {
        let number = self.lines.len();
        let mut line = Line::empty(newest);
        line.put(0, tag_of(hash), slot);
        self.lines.push_reserved(line);
        self.lines[first].set_next(number as u32);
    }

    /// Removes the newest entry, which has this hash. The lines then have the entries that they had before.
    pub fn remove_newest(&mut self, hash: u64)
        requires { EndWith hash self.old }
        ensures removed { IsRemoved hash self.old self.new }
        ensures room { places_of self.new ≡ places_of self.old }
    {
        let first = self.class(hash);
        let newest = self.lines[first].next() as usize;
        if newest != 0 {
            self.remove_behind(first, newest, hash);
            return;
        }
        let count = self.lines[first].count();
        self.lines[first].remove(count - 1);
    }

    // As `remove_newest`, from an overflow line. `hash` is for the contract alone.
    fn remove_behind(&mut self, first: usize, newest: usize, hash: u64)
        requires there { EndWith hash self.old }
        requires class { first ≡ hash % self.old.base }
        requires newest { IsNewest first newest self.old }
        requires some { newest ≢ 0 }
        ensures removed { IsRemoved hash self.old self.new }
        ensures room { places_of self.new ≡ places_of self.old }
    {
        let _ = hash;
        let count = self.lines[newest].count();
        if count > 1 {
            self.lines[newest].remove(count - 1);
            return;
        }
        let older = self.lines[newest].next();
        self.lines[first].set_next(older);
        self.lines.truncate(newest);
    }

    /// Removes all entries. The room stays.
    pub fn clear(&mut self)
        requires { AreLines self.old }
        ensures empty { IsFilled self.new [] }
        ensures room { places_of self.new ≡ places_of self.old }
    {
        self.lines.truncate(self.base);
        self.lines.fill(Line::empty(0));
    }
}
