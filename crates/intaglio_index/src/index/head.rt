//! What a bucket stores of its first two symbols.
ghost use Rattle.std.specs.Prelude.{◌≡◌, ◌≢◌, ◌↔◌, ℕ, ◌+◌, ◌/◌, ◌≤◌, length, List, [], Some, IsTrue, nat_eq};
ghost use Rattle.intaglio_index.specs.Heads.{IsWord, IsHead};
ghost use Rattle.intaglio_index.specs.Links.{IsThread};
ghost use Rattle.intaglio_index.specs.Modulus.{IsModulus};
ghost use Rattle.intaglio_index.specs.Placed.{first_symbol_of, symbols_of, insert_sorted};
ghost use Rattle.intaglio_index.specs.Placed.{BeginsAtOrAbove, IsPredecessor};
ghost use Rattle.std.specs.List.{IsDistinct};

use super::link::next;
use super::modulus::Modulus;
use intaglio_symbol::Symbol;

/// The words of a bucket's first two symbols. If there is no second symbol, both are the first one's.
#[derive(Clone, Copy)]
pub(super) struct Head {
    pub(super) first: u64,
    pub(super) second: u64,
}

impl Head {
    // The word that agrees with the hash, if one does: the first, or else the second.
    pub(super) fn matching_word(self, modulus: Modulus, hash: u64) -> u64
        requires { IsModulus modulus }
        ensures first { self.first / (modulus.mask + 1) ≡ hash / (modulus.mask + 1) → result ≡ self.first }
        ensures second { self.first / (modulus.mask + 1) ≢ hash / (modulus.mask + 1) → result ≡ self.second }
    {
        if modulus.agrees(self.first, hash) {
            self.first
        } else {
            self.second
        }
    }

    // The head after the symbol of `word` was inserted before all others. `alone`: there are no others.
    pub(super) fn with_first(self, alone: bool, word: u64) -> Head
        ensures { (size s h : ℕ) (path : List (ℕ × ℕ)) → IsHead size self path → IsTrue alone ↔ (path ≡ []) →
            BeginsAtOrAbove h path → IsWord size (s, h) word → IsHead size result (insert_sorted s h path) }
    {
        let second = if alone { word } else { self.first };
        Head {
            first: word,
            second,
        }
    }

    // The head after the symbol of `word` was inserted after `last`.
    pub(super) fn with_after(self, first_symbol: Option<Symbol>, last: Symbol, word: u64) -> Head
        ensures { (size s h : ℕ) (path : List (ℕ × ℕ)) → IsHead size self path →
            first_symbol ≡ first_symbol_of path → IsDistinct nat_eq (symbols_of path) →
            IsPredecessor h path last → IsWord size (s, h) word →
            IsHead size result (insert_sorted s h path) }
    {
        match first_symbol {
            None => self,
            Some(first) => {
                if first == last {
                    Head {
                        first: self.first,
                        second: word,
                    }
                } else {
                    self
                }
            }
        }
    }

    // The head of the bucket whose first symbol is `first_symbol`.
    pub(super) fn read(
        modulus: Modulus,
        hashes: &[u64],
        links: &[Symbol],
        first_symbol: Symbol,
    ) -> Head
        requires made { IsModulus modulus }
        requires few { length hashes.now ≤ modulus.mask + 1 }
        requires linked { (path : List (ℕ × ℕ)) × IsThread hashes.now links.now (Some first_symbol) path }
        ensures { (path : List (ℕ × ℕ)) → IsThread hashes.now links.now (Some first_symbol) path →
            IsHead (modulus.mask + 1) result path }
    {
        let first = modulus.word(hashes[first_symbol.id() as usize], first_symbol);
        let second = match next(links, first_symbol) {
            None => first,
            Some(symbol) => modulus.word(hashes[symbol.id() as usize], symbol),
        };
        Head { first, second }
    }
}
