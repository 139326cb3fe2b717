//! Construction and capacity.
ghost use Rattle.std.specs.Prelude.{◌≡◌, ◌<◌, ◌≤◌, [], length, replicate, max, vec_capacity, IfOk, IsOk, OnErr, OnOk};
ghost use Rattle.intaglio_index.specs.Change.{KeepsPlaces, KeepsBuckets, PlacesEach};

use super::Index;
use super::head::Head;
use super::modulus::Modulus;
use intaglio_content::Work;
use intaglio_symbol::Symbol;
use std::alloc::{AllocError, Global};

impl Index {
    /// An index with exactly `count` empty buckets, and capacity for as many symbols. With `count` 0
    /// nothing is allocated.
    ///
    /// # Errors
    ///
    /// [`AllocError`] if one of its four allocations fails. Then nothing stays allocated.
    pub fn with_buckets(alloc: Global, count: usize) -> Result<Index, AllocError>
        ensures made { IfOk result (λ index. index ≡ record { count = count; hashes = []; room = count }) }
        ensures none_needed { count ≡ 0 → IsOk result }
    {
        let heads = repeated(
            alloc,
            Head {
                first: 0,
                second: 0,
            },
            count,
        )?;
        let filters = repeated(alloc, 0, count)?;
        let hashes = Vec::with_capacity(alloc, count)?;
        let links = Vec::with_capacity(alloc, count)?;
        Ok(Index {
            heads,
            hashes,
            links,
            filters,
            modulus: Modulus::new(count),
            alloc,
        })
    }

    /// Reserves capacity for `count` symbols in total (not for `count` more, as `Vec::reserve` does). Placed
    /// symbols stay placed.
    ///
    /// New buckets are made only if there are fewer than `count`: then there are exactly `count`. All symbols
    /// are placed again by their stored hashes: one placement each.
    ///
    /// # Errors
    ///
    /// [`AllocError`] if an allocation fails. Then the buckets and the symbols in them are unchanged.
    pub fn reserve(&mut self, count: usize, work: &mut Work) -> Result<(), AllocError>
        ensures kept { KeepsPlaces self.old self.new }
        ensures enough { OnOk result (count ≤ self.new.room) }
        ensures made { OnOk result (self.new.count ≡ max self.old.count count) }
        ensures places { OnOk result (self.old.count < count → PlacesEach self.old work.old work.new) }
        ensures err { OnErr result (KeepsBuckets self.old self.new work.old work.new) }
        ensures quiet { count ≤ self.old.count → work.new.events ≡ work.old.events }
        ensures none_needed { count ≤ self.old.room → IsOk result }
        ensures unchanged { count ≤ self.old.room → self.new ≡ self.old }
    {
        if count > self.heads.len() {
            return self.rebuild(count, work);
        }
        reserve_total(&mut self.hashes, count)?;
        reserve_total(&mut self.links, count)?;
        Ok(())
    }

    /// Makes exactly `count` buckets, with capacity for as many symbols. All symbols are placed again by
    /// their stored hashes: one placement each.
    ///
    /// # Errors
    ///
    /// [`AllocError`] if an allocation fails. Then the index is unchanged.
    pub fn rebuild(&mut self, count: usize, work: &mut Work) -> Result<(), AllocError>
        requires placed { length self.old.hashes ≤ count }
        ensures count { OnOk result (self.new.count ≡ count) }
        ensures room { OnOk result (self.new.room ≡ count) }
        ensures hashes { self.new.hashes ≡ self.old.hashes }
        ensures err { OnErr result (self.new ≡ self.old) }
        ensures quiet { OnErr result (work.new.events ≡ work.old.events) }
        ensures places { OnOk result (PlacesEach self.old work.old work.new) }
        ensures none_needed { count ≡ 0 → IsOk result }
    {
        *self = self.rebuilt(count, work)?;
        Ok(())
    }

    // An index with the same symbols in new buckets.
    fn rebuilt(&self, count: usize, work: &mut Work) -> Result<Index, AllocError>
        requires placed { length self.now.hashes ≤ count }
        ensures made { IfOk result (λ index.
            index ≡ record { count = count; hashes = self.now.hashes; room = count }) }
        ensures quiet { OnErr result (work.new.events ≡ work.old.events) }
        ensures places { OnOk result (PlacesEach self.now work.old work.new) }
        ensures none_needed { count ≡ 0 → IsOk result }
    {
        let mut index = Index::with_buckets(self.alloc, count)?;
        for (i, hash) in self.hashes.iter().enumerate() {
            index.place(*hash, Symbol::new(i as u32), work);
        }
        Ok(index)
    }
}

// A list of `count` copies of a value.
fn repeated<T: Copy>(alloc: Global, value: T, count: usize) -> Result<Vec<T>, AllocError>
    ensures made { IfOk result (λ list. list.items ≡ replicate count value) }
    ensures none_needed { count ≡ 0 → IsOk result }
{
    let mut list = Vec::with_capacity(alloc, count)?;
    for _i in 0..count {
        list.push_reserved(value);
    }
    Ok(list)
}

// Reserves capacity for `count` items in total.
fn reserve_total<T>(list: &mut Vec<T>, count: usize) -> Result<(), AllocError>
    ensures items { list.new.items ≡ list.old.items }
    ensures capacity { vec_capacity list.old ≤ vec_capacity list.new }
    ensures enough { OnOk result (count ≤ vec_capacity list.new) }
    ensures none_needed { count ≤ vec_capacity list.old → IsOk result }
    ensures unchanged { count ≤ vec_capacity list.old → list.new ≡ list.old }
{
    if count > list.capacity() {
        list.reserve(count - list.len())?;
    }
    Ok(())
}
