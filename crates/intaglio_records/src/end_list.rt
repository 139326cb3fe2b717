//! Where the strings of a packed list end.
ghost use Rattle.std.specs.Prelude.{◌≡◌, ◌⊎◌, ◌+◌, ◌-◌, ◌*◌, ◌<◌, ◌≤◌, [], ◌∷◌, ◌++◌, length, max, min, take, drop, get_or, true, false};
ghost use Rattle.std.specs.Prelude.{IfOk, IsOk, OnOk, OnErr, vec_capacity};
ghost use Rattle.intaglio_records.specs.EndList.{largest_end, BeginsWith};
ghost use Rattle.intaglio_content.specs.Growth.{Doubles};

use intaglio_content::doubled;
use std::alloc::{AllocError, Global};
use std::marker::Model;

// The least room for ends after a growth.
const LEAST: usize = 4;

/// The ends of strings in one buffer: a list of short ends, of 4 bytes each, or of long ones, of 8 bytes.
///
/// In front of the ends is a 0, as soon as there is room for any. So a string begins at the number
/// before its end, the first one too.
///
/// A contract sees the ends, for how many there is room in total, and the largest number that an end can be.
#[derive(Drop)]
pub struct StringEnds {
    short: Vec<u32>,
    long: Vec<usize>,
    is_long: bool,
}

impl Model for StringEnds {
    ghost use Rattle.std.specs.Prelude.{◌-◌, if◌then◌else◌, drop, vec_capacity};
    ghost use Rattle.intaglio_records.specs.EndList.{EndList, end_list_code, largest_end, BeginsWith};

    ghost Value = { EndList };

    ghost coded = { end_list_code };

    ghost view = { λ e. record {
      list = if e.is_long then drop 1 e.long.items else drop 1 e.short.items;
      most = if e.is_long then vec_capacity e.long - 1 else vec_capacity e.short - 1;
      largest = largest_end e.is_long;
    } };

    ghost invariant = { λ e. record {
      short : BeginsWith 0 (vec_capacity e.short) e.short.items;
      long : BeginsWith 0 (vec_capacity e.long) e.long.items;
    } };
}

impl StringEnds {
    /// An empty list of short ends, which allocates nothing.
    pub fn new(alloc: Global) -> StringEnds
        ensures { result ≡ record { list = []; most = 0; largest = largest_end false } }
    {
        StringEnds {
            short: Vec::new(alloc),
            long: Vec::new(alloc),
            is_long: false,
        }
    }

    /// An empty list with room for this many ends, long ones if `is_long`. With room for none it allocates
    /// nothing.
    ///
    /// # Errors
    ///
    /// [`AllocError`] if the allocation fails.
    pub fn with_capacity(
        alloc: Global,
        capacity: usize,
        is_long: bool,
    ) -> Result<StringEnds, AllocError>
        ensures empty { IfOk result (λ ends. ends.list ≡ []) }
        ensures most { IfOk result (λ ends. ends.most ≡ capacity) }
        ensures largest { IfOk result (λ ends. ends.largest ≡ largest_end is_long) }
        ensures none_needed { capacity ≡ 0 → IsOk result }
    {
        let long = with_first(alloc, 0, if is_long { capacity } else { 0 })?;
        let short = with_first(alloc, 0, if is_long { 0 } else { capacity })?;
        Ok(StringEnds {
            short,
            long,
            is_long,
        })
    }

    /// The number of ends.
    #[inline(always)]
    pub fn len(&self) -> usize
        ensures { result ≡ length self.now.list }
    {
        if self.is_long {
            self.long.len().saturating_sub(1)
        } else {
            self.short.len().saturating_sub(1)
        }
    }

    /// How many ends there is room for in total.
    #[inline(always)]
    pub fn capacity(&self) -> usize
        ensures room { result ≡ self.now.most }
        ensures within { length self.now.list ≤ result }
    {
        if self.is_long {
            self.long.capacity().saturating_sub(1)
        } else {
            self.short.capacity().saturating_sub(1)
        }
    }

    /// The largest number that an end can be.
    #[inline(always)]
    pub fn largest(&self) -> usize
        ensures largest { result ≡ self.now.largest }
        ensures short_or_long { (result ≡ largest_end false) ⊎ (result ≡ largest_end true) }
    {
        if self.is_long {
            usize::MAX
        } else {
            u32::MAX as usize
        }
    }

    /// Where a string that is there begins, which is where the one before it ends.
    #[inline(always)]
    pub fn start(&self, i: usize) -> usize
        requires { i < length self.now.list }
        ensures { result ≡ get_or (0 ∷ self.now.list) i 0 }
    {
        if self.is_long {
            return long_end(&self.long, i);
        }
        self.short[i] as usize
    }

    /// Where a string that is there ends.
    #[inline(always)]
    pub fn end(&self, i: usize) -> usize
        requires { i < length self.now.list }
        ensures { result ≡ get_or self.now.list i 0 }
    {
        if self.is_long {
            return long_end(&self.long, i + 1);
        }
        self.short[i + 1] as usize
    }

    /// Makes room for this many more ends. If the list has to grow, its room at least doubles.
    ///
    /// # Errors
    ///
    /// [`AllocError`] if the allocation fails. Then nothing has changed.
    pub fn reserve(&mut self, additional: usize) -> Result<(), AllocError>
        ensures list { self.new.list ≡ self.old.list }
        ensures largest { self.new.largest ≡ self.old.largest }
        ensures most { self.old.most ≤ self.new.most }
        ensures grows { Doubles (length self.old.list + additional) self.old.most self.new.most }
        ensures free { OnOk result (length self.new.list + additional ≤ self.new.most) }
        ensures err { OnErr result (self.new.most ≡ self.old.most) }
        ensures none_needed { length self.old.list + additional ≤ self.old.most → IsOk result }
    {
        if self.is_long {
            reserve_behind(&mut self.long, 0, additional)
        } else {
            reserve_behind(&mut self.short, 0, additional)
        }
    }

    /// Adds an end, for which there is room.
    #[inline(always)]
    pub fn push_reserved(&mut self, end: usize)
        requires room { length self.old.list < self.old.most }
        requires fits { end ≤ self.old.largest }
        ensures list { self.new.list ≡ self.old.list ++ end ∷ [] }
        ensures most { self.new.most ≡ self.old.most }
        ensures largest { self.new.largest ≡ self.old.largest }
    {
        if self.is_long {
            self.long.push_reserved(end);
        } else {
            self.short.push_reserved(end as u32);
        }
    }

    /// Drops all ends but the first `n`.
    pub fn truncate(&mut self, n: usize)
        ensures list { self.new.list ≡ take n self.old.list }
        ensures most { self.new.most ≡ self.old.most }
        ensures largest { self.new.largest ≡ self.old.largest }
    {
        if self.is_long {
            truncate_behind(&mut self.long, n);
        } else {
            truncate_behind(&mut self.short, n);
        }
    }

    /// Shrinks the room to `min_capacity` ends, or to those that there are if they are more. A failed
    /// allocation isn't reported, and leaves more room.
    pub fn shrink_to(&mut self, min_capacity: usize)
        ensures list { self.new.list ≡ self.old.list }
        ensures largest { self.new.largest ≡ self.old.largest }
        ensures most { min min_capacity self.old.most ≤ self.new.most }
        ensures no_more { self.new.most ≤ self.old.most }
        ensures frees { length self.old.list ≡ 0 → min_capacity ≡ 0 → self.new.most ≡ 0 }
    {
        if self.is_long {
            shrink_behind(&mut self.long, min_capacity);
        } else {
            shrink_behind(&mut self.short, min_capacity);
        }
    }

    /// The same ends as long ones, with room for as many.
    ///
    /// # Errors
    ///
    /// [`AllocError`] if the allocation fails.
    pub fn to_long(&self, alloc: Global) -> Result<StringEnds, AllocError>
        ensures list { IfOk result (λ long. long.list ≡ self.now.list) }
        ensures most { IfOk result (λ long. long.most ≡ self.now.most) }
        ensures largest { IfOk result (λ long. long.largest ≡ largest_end true) }
    {
        let mut ends = StringEnds::with_capacity(alloc, self.capacity(), true)?;
        for i in 0..self.len() {
            ends.push_reserved(self.end(i));
        }
        Ok(ends)
    }
}

// A list with this item in front, and with room for this many behind it. With room for none it is empty, and
// allocates nothing.
fn with_first<T: Copy>(alloc: Global, first: T, capacity: usize) -> Result<Vec<T>, AllocError>
    ensures begins { IfOk result (λ list. BeginsWith first (vec_capacity list) list.items) }
    ensures empty { IfOk result (λ list. drop 1 list.items ≡ []) }
    ensures room { IfOk result (λ list. vec_capacity list - 1 ≡ capacity) }
    ensures none_needed { capacity ≡ 0 → IsOk result }
{
    if capacity == 0 {
        return Ok(Vec::new(alloc));
    }
    let Some(room) = capacity.checked_add(1) else {
        return Err(AllocError);
    };
    let mut list = Vec::with_capacity(alloc, room)?;
    list.push_reserved(first);
    Ok(list)
}

// Makes room for this many more items behind the first one. If the list has to
// grow, that room at least doubles.
#[inline(always)]
fn reserve_behind<T: Copy>(list: &mut Vec<T>, first: T, additional: usize) -> Result<(), AllocError>
    requires { BeginsWith first (vec_capacity list.old) list.old.items }
    ensures begins { BeginsWith first (vec_capacity list.new) list.new.items }
    ensures items { drop 1 list.new.items ≡ drop 1 list.old.items }
    ensures grows { let needed = length (drop 1 list.old.items) + additional in
        Doubles needed (vec_capacity list.old - 1) (vec_capacity list.new - 1) }
    ensures free { let needed = length (drop 1 list.old.items) + additional in
        OnOk result (needed ≤ vec_capacity list.new - 1) }
    ensures err { OnErr result (vec_capacity list.new ≡ vec_capacity list.old) }
    ensures none_needed { let needed = length (drop 1 list.old.items) + additional in
        needed ≤ vec_capacity list.old - 1 → IsOk result }
{
    if additional <= list.capacity() - list.len() {
        return Ok(());
    }
    double_behind(list, first, additional)
}

// The part of `reserve_behind` that allocates. Apart, so that the test is inlined.
#[cold]
#[inline(never)]
fn double_behind<T: Copy>(list: &mut Vec<T>, first: T, additional: usize) -> Result<(), AllocError>
    requires begins { BeginsWith first (vec_capacity list.old) list.old.items }
    requires missing { vec_capacity list.old < length list.old.items + additional }
    ensures begins { BeginsWith first (vec_capacity list.new) list.new.items }
    ensures items { drop 1 list.new.items ≡ drop 1 list.old.items }
    ensures grown { let needed = length (drop 1 list.old.items) + additional in
        OnOk result (vec_capacity list.new ≡ 1 + max 4 (max needed (2 * (vec_capacity list.old - 1)))) }
    ensures err { OnErr result (vec_capacity list.new ≡ vec_capacity list.old) }
{
    let len = list.len().saturating_sub(1);
    let most = list.capacity().saturating_sub(1);
    let Some(room) = doubled(len, most, additional, LEAST)?.checked_add(1) else {
        return Err(AllocError);
    };
    list.reserve_exact(room - list.len())?;
    if list.is_empty() {
        list.push_reserved(first);
    }
    Ok(())
}

// Drops all items behind the first one but `n` of them.
fn truncate_behind<T: Copy>(list: &mut Vec<T>, n: usize)
    ensures items { drop 1 list.new.items ≡ take n (drop 1 list.old.items) }
    ensures first { take 1 list.new.items ≡ take 1 list.old.items }
    ensures capacity { vec_capacity list.new ≡ vec_capacity list.old }
{
    if n < list.len() {
        list.truncate(n + 1);
    }
}

// Shrinks the room of a list to this many items behind the first one. The first one goes too where nothing is
// behind it and no room is asked for.
fn shrink_behind<T: Copy>(list: &mut Vec<T>, min_capacity: usize)
    ensures items { drop 1 list.new.items ≡ drop 1 list.old.items }
    ensures first { 0 < vec_capacity list.new → list.new.items ≡ list.old.items }
    ensures most { min min_capacity (vec_capacity list.old - 1) ≤ vec_capacity list.new - 1 }
    ensures no_more { vec_capacity list.new ≤ vec_capacity list.old }
    ensures frees { length (drop 1 list.old.items) ≡ 0 → min_capacity ≡ 0 → vec_capacity list.new ≡ 0 }
{
    if min_capacity == 0 && list.len() <= 1 {
        list.clear();
        list.shrink_to(0);
    } else {
        list.shrink_to(min_capacity.saturating_add(1));
    }
}

// A long end, or the 0. Apart, so that the code that reads a short one is short.
#[cold]
#[inline(never)]
fn long_end(ends: &[usize], i: usize) -> usize
    requires { i < length ends.now }
    ensures { result ≡ get_or ends.now i 0 }
{
    ends[i]
}
