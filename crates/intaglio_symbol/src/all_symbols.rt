//! The symbols of a table, in order.
ghost use Rattle.std.specs.Prelude.{◌≡◌, ◌+◌, ◌^◌, ◌≤◌, ◌==◌, ◌++◌, length, IfSome, Some, ⊤};
ghost use Rattle.std.proofs.Common.{rules};
ghost use Rattle.std.specs.Cmp.Lexicographic.{pointwise};
ghost use Rattle.std.specs.Cmp.Rules.{comparing, hashing};
ghost use Rattle.std.specs.Hash as fed;
ghost use Rattle.std.specs.Iterator.{YieldsFirst, YieldsLast, item_count, at_most, UpTo};
ghost use Rattle.std.specs.Iterator.SizeHint.{IsWithinCount};
ghost use Rattle.intaglio_symbol.specs.AllSymbols.{numbers_from, first_or_zero};

use crate::symbol::Symbol;
use std::alloc::AllocError;
use std::hash::{Hash, Hasher};
use std::iter::FusedIterator;
use std::marker::Model;

/// The symbols of a table that are not yet yielded, in increasing order.
///
/// A contract sees it as the list of their numbers. Two iterators are equal exactly if the same symbols are
/// left, so all exhausted ones are equal; equal ones hash alike. After the last symbol, `next` and
/// `next_back` return `None`. There is no `len`; `size_hint` is exact.
#[derive(Drop)]
pub struct AllSymbols<'a> {
    // The number of the next symbol from the front. Like `back`, it can be one more than `u32::MAX`.
    front: u64,
    // One more than the number of the next symbol from the back.
    back: u64,
    // Never read: it borrows the table, so that no symbol is added while its symbols are iterated over.
    table: &'a (),
}

impl<'a> Model for AllSymbols<'a> {
    ghost use Rattle.std.specs.Prelude.{ℕ, ◌-◌, ◌^◌, ◌≤◌, List};
    ghost use Rattle.intaglio_symbol.specs.AllSymbols.{numbers_from};

    ghost Value = { List ℕ };

    ghost view = { λ all. numbers_from all.front (all.back - all.front) };

    ghost invariant = { λ all. (all.front ≤ all.back) × (all.back ≤ 2 ^ 32) };
}

impl<'a> AllSymbols<'a> {
    /// The symbols from 0 to `count - 1`, of a table that stays borrowed while they are iterated over.
    #[tactic(auto, using(crate::proofs::NumbersLemmas::numbers_steps))]
    pub fn over<T>(_table: &'a T, count: usize) -> AllSymbols<'a>
        requires { count ≤ 2 ^ 32 }
        ensures all { result ≡ numbers_from 0 count }
        ensures len { length result ≡ count }
    {
        AllSymbols {
            front: 0,
            back: count as u64,
            table: &(),
        }
    }
}

impl<'a> Iterator for AllSymbols<'a> {
    type Item = Symbol;

    ghost next_gives = { YieldsFirst (λ symbols. symbols) };

    ghost remaining = { item_count (λ symbols. symbols) };

    #[tactic(auto, using(crate::proofs::NumbersLemmas::numbers_steps))]
    fn next(&mut self) -> Option<Symbol> {
        if self.front == self.back {
            return None;
        }
        let number = self.front;
        self.front += 1;
        Some(Symbol::new(number as u32))
    }

    #[tactic(auto, using(crate::proofs::NumbersLemmas::numbers_steps))]
    fn size_hint(&self) -> (usize, Option<usize>)
        ensures exact { result ≡ (length self.now, Some (length self.now)) }
        ensures lower { IsWithinCount result.0 (at_most (length self.now)) }
        ensures upper { IfSome result.1 (UpTo (at_most (length self.now))) }
    {
        let left = (self.back - self.front) as usize;
        (left, Some(left))
    }
}

impl<'a> DoubleEndedIterator for AllSymbols<'a> {
    ghost next_back_gives = { YieldsLast (λ symbols. symbols) };

    #[tactic(auto, using(crate::proofs::NumbersLemmas::numbers_steps))]
    fn next_back(&mut self) -> Option<Symbol> {
        if self.front == self.back {
            return None;
        }
        self.back -= 1;
        Some(Symbol::new(self.back as u32))
    }
}

impl<'a> FusedIterator for AllSymbols<'a> {}

impl<'a> Clone for AllSymbols<'a> {
    ghost is_clone = { λ all copy. copy ≡ all };

    ghost is_infallible = { λ _. ⊤ };

    fn clone(&self) -> Result<AllSymbols<'a>, AllocError> {
        Ok(AllSymbols {
            front: self.front,
            back: self.back,
            table: self.table,
        })
    }
}

impl<'a> PartialEq for AllSymbols<'a> {
    ghost eq = { pointwise ◌==◌ };

    ghost laws = { Prim.search (comparing, rules) };

    #[tactic(auto, using(crate::proofs::NumbersLemmas::numbers_steps, std::proofs::lemmas::Bool::Decides::nat_tests))]
    fn eq(&self, other: &AllSymbols<'a>) -> bool {
        let left = self.back - self.front;
        left == other.back - other.front && (left == 0 || self.front == other.front)
    }
}

impl<'a> Eq for AllSymbols<'a> {
    ghost laws = { Prim.search (comparing, rules) };
}

impl<'a> Hash for AllSymbols<'a> {
    ghost hash_input = { λ symbols. fed.u64 (first_or_zero symbols) ++ fed.u64 (length symbols) };

    ghost respects_eq = { Prim.search (hashing, rules) };

    #[tactic(auto, using(crate::proofs::NumbersLemmas::numbers_steps))]
    fn hash<H: Hasher>(&self, state: &mut H) {
        let left = self.back - self.front;
        let first = if left == 0 { 0 } else { self.front };
        state.write_u64(first);
        state.write_u64(left);
    }
}
