//! The index, and its sizes.
ghost use Rattle.std.specs.Prelude.{◌≡◌, ◌≤◌, length};

mod capacity;
mod filter;
mod head;
mod link;
mod lookup;
mod modulus;
mod placement;

use head::Head;
use intaglio_symbol::Symbol;
use modulus::Modulus;
use std::alloc::Global;
use std::marker::Model;

/// A hash index: symbols in buckets, found by the hashes of their contents.
///
/// A bucket takes 17 bytes and a placed symbol 12: its hash and a link. No symbol is reserved as "none", so
/// all 2^32 can be placed. There are at least as many buckets as symbols can be placed.
///
/// ```
/// # use intaglio::{Index, Symbol, Work};
/// let mut work = Work::new();
/// let mut index = Index::with_buckets(rt.alloc(), 4)?;
/// index.place(6, Symbol::new(0), &mut work);
/// index.place(2, Symbol::new(1), &mut work);
/// // Both are in bucket 2, as a symbol of hash 10 would be. `first` returns the first symbol of the
/// // bucket, whatever its hash. The smaller hash comes first.
/// assert_eq!(rt; index.first(10, &mut work), Some((Symbol::new(1), 2)));
/// assert_eq!(rt; index.after(Symbol::new(1), &mut work), Some((Symbol::new(0), 6)));
/// // `find` returns only a symbol with exactly this hash.
/// assert_eq!(rt; index.find(6, &mut work), Some(Symbol::new(0)));
/// assert_eq!(rt; index.find(10, &mut work), None);
/// ```
#[derive(Drop)]
pub struct Index {
    heads: Vec<Head>,
    // By their numbers, the hashes of the symbols.
    hashes: Vec<u64>,
    // By their numbers, the next symbols in their buckets. The last of a bucket has itself.
    links: Vec<Symbol>,
    filters: Vec<u8>,
    modulus: Modulus,
    alloc: Global,
}

impl Model for Index {
    ghost use Rattle.std.specs.Prelude.{◌≡◌, ◌+◌, min, length, vec_capacity};
    ghost use Rattle.intaglio_index.specs.Placed.{Placed, placed_code};

    ghost Value = { Placed };

    ghost coded = { placed_code };

    ghost use Rattle.intaglio_index.specs.Links.{IsLinked};
    ghost use Rattle.intaglio_index.specs.Filter.{IsFiltered};
    ghost use Rattle.intaglio_index.specs.Heads.{IsHeaded};
    ghost use Rattle.intaglio_index.specs.Modulus.{IsModulus};

    ghost view = { λ index. record {
      count = length index.heads.items;
      hashes = index.hashes.items;
      room = min (length index.heads.items) (min (vec_capacity index.hashes) (vec_capacity index.links));
    } };

    ghost invariant = { λ index. record {
      modulus : IsModulus index.modulus;
      counted : index.modulus.count ≡ length index.heads.items;
      linked : IsLinked (length index.heads.items) index.hashes.items index.links.items;
      headed : IsHeaded (index.modulus.mask + 1) index.heads.items index.filters.items index.hashes.items;
      filtered : IsFiltered index.filters.items (length index.heads.items) index.hashes.items;
    } };
}

impl Index {
    /// The number of buckets.
    pub fn bucket_count(&self) -> usize
        ensures { result ≡ self.now.count }
    {
        self.heads.len()
    }

    /// How many symbols can be placed in total: the smallest of the number of buckets and the capacities of
    /// the lists of hashes and links.
    pub fn room(&self) -> usize
        ensures room { result ≡ self.now.room }
        ensures placed { length self.now.hashes ≤ result }
        ensures fits { result ≤ self.now.count }
    {
        let capacity = self.hashes.capacity().min(self.links.capacity());
        capacity.min(self.heads.len())
    }

    fn placed(&self) -> usize
        ensures { result ≡ length self.now.hashes }
    {
        self.hashes.len()
    }
}
