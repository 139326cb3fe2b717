//! The strings of a frozen table, in order.
ghost use Rattle.std.specs.Prelude.{◌≡◌, ◌+◌, ◌*◌, ◌^◌, ◌≤◌, length, zip, IfSome, Some, ⊤};
ghost use Rattle.std.specs.Iterator.{YieldsFirstBy, item_count, at_most, UpTo};
ghost use Rattle.std.specs.Iterator.SizeHint.{IsWithinCount};
ghost use Rattle.intaglio_symbol.specs.AllSymbols.{numbers_from};
ghost use Rattle.intaglio_frozen.specs.Strings.{strings_from, AreEnds};
ghost use Rattle.intaglio_frozen.specs.Layout.{numbers_at};

use intaglio_hash::numbers::read_u32;
use intaglio_records::part;
use intaglio_symbol::{AllSymbols, Symbol};
use std::alloc::AllocError;
use std::iter::FusedIterator;
use std::marker::Model;

/// An iterator over the strings of a frozen table, in the order of their symbols.
///
/// A contract sees it as the list of the strings that are left. After the last string, `next` returns `None`.
/// `size_hint` is exact, and a clone allocates nothing. There is no `next_back`.
#[derive(Drop)]
pub struct FrozenStrings<'a> {
    bytes: &'a [u8],
    text: &'a [u8],
    // Where the end of the next string stands in the bytes.
    at: usize,
    // Where the next string begins in the text.
    start: usize,
    left: usize,
}

impl<'a> Model for FrozenStrings<'a> {
    ghost use Rattle.std.specs.Prelude.{ℕ, List};
    ghost use Rattle.intaglio_frozen.specs.Strings.{strings_from};
    ghost use Rattle.intaglio_frozen.specs.Layout.{numbers_at};
    ghost use Rattle.intaglio_frozen.specs.Left.{IsLeft};

    ghost Value = { List (List ℕ) };

    ghost view = { λ s. strings_from s.start s.text.now (numbers_at s.bytes.now s.at s.left) };

    ghost invariant = { IsLeft };
}

#[tactic(auto, using(crate::proofs::Places::length_left))]
impl<'a> FrozenStrings<'a> {
    // The strings of this text with the ends at a position in the bytes.
    pub(crate) fn of(bytes: &'a [u8], text: &'a [u8], at: usize, count: usize) -> FrozenStrings<'a>
        requires within { at + 4 * count ≤ length bytes.now }
        requires ends { AreEnds 0 (length text.now) (numbers_at bytes.now at count) }
        ensures { result ≡ strings_from 0 text.now (numbers_at bytes.now at count) }
    {
        FrozenStrings {
            bytes,
            text,
            at,
            start: 0,
            left: count,
        }
    }

    // The number of strings that are left.
    #[inline(always)]
    fn left(&self) -> usize
        ensures { result ≡ length self.now }
    {
        self.left
    }
}

impl<'a> Iterator for FrozenStrings<'a> {
    type Item = &'a [u8];

    ghost next_gives = { YieldsFirstBy (λ string. string.now) (λ rest. rest) };

    ghost remaining = { item_count (λ rest. rest) };

    #[inline]
    #[tactic(auto, using(std::proofs::lemmas::Grind::common_steps, crate::proofs::Places::next_number, crate::proofs::Places::ends_within))]
    fn next(&mut self) -> Option<&'a [u8]> {
        if self.left == 0 {
            return None;
        }
        let start = self.start;
        let end = read_u32(self.bytes, self.at) as usize;
        self.at += 4;
        self.start = end;
        self.left -= 1;
        Some(part(self.text, start, end))
    }

    fn size_hint(&self) -> (usize, Option<usize>)
        ensures exact { result ≡ (length self.now, Some (length self.now)) }
        ensures lower { IsWithinCount result.0 (at_most (length self.now)) }
        ensures upper { IfSome result.1 (UpTo (at_most (length self.now))) }
    {
        let left = self.left();
        (left, Some(left))
    }
}

impl<'a> FusedIterator for FrozenStrings<'a> {}

impl<'a> Clone for FrozenStrings<'a> {
    ghost is_clone = { λ strings copy. copy ≡ strings };

    ghost is_infallible = { λ _. ⊤ };

    fn clone(&self) -> Result<FrozenStrings<'a>, AllocError> {
        Ok(FrozenStrings {
            bytes: self.bytes,
            text: self.text,
            at: self.at,
            start: self.start,
            left: self.left,
        })
    }
}

/// An iterator over the symbols of a frozen table with their strings, in order.
///
/// A contract sees it as the list of the numbers and strings that are left. After the last pair, `next`
/// returns `None`. `size_hint` is exact, and a clone allocates nothing. There is no `next_back`.
#[derive(Drop)]
pub struct FrozenPairs<'a> {
    symbols: AllSymbols<'a>,
    strings: FrozenStrings<'a>,
}

impl<'a> Model for FrozenPairs<'a> {
    ghost use Rattle.std.specs.Prelude.{◌≡◌, ℕ, List, length, zip};

    ghost Value = { List (ℕ × List ℕ) };

    ghost view = { λ pairs. zip pairs.symbols pairs.strings };

    ghost invariant = { λ pairs. length pairs.symbols ≡ length pairs.strings };
}

impl<'a> FrozenPairs<'a> {
    // Strings with the symbols from 0 on.
    #[tactic(auto, using(intaglio_content::proofs::PairsLemmas::pair_lengths))]
    pub(crate) fn of(strings: FrozenStrings<'a>) -> FrozenPairs<'a>
        requires { length strings ≤ 2 ^ 32 }
        ensures all { result ≡ zip (numbers_from 0 (length strings.entry)) strings.entry }
        ensures len { length result ≡ length strings.entry }
    {
        FrozenPairs {
            symbols: AllSymbols::over(&(), strings.left()),
            strings,
        }
    }
}

impl<'a> Iterator for FrozenPairs<'a> {
    type Item = (Symbol, &'a [u8]);

    ghost next_gives = { YieldsFirstBy (λ pair. (pair.0, pair.1.now)) (λ rest. rest) };

    ghost remaining = { item_count (λ rest. rest) };

    #[inline]
    fn next(&mut self) -> Option<(Symbol, &'a [u8])> {
        let symbol = self.symbols.next()?;
        let string = self.strings.next()?;
        Some((symbol, string))
    }

    #[tactic(auto, using(intaglio_content::proofs::PairsLemmas::pair_lengths))]
    fn size_hint(&self) -> (usize, Option<usize>)
        ensures exact { result ≡ (length self.now, Some (length self.now)) }
        ensures lower { IsWithinCount result.0 (at_most (length self.now)) }
        ensures upper { IfSome result.1 (UpTo (at_most (length self.now))) }
    {
        self.strings.size_hint()
    }
}

impl<'a> FusedIterator for FrozenPairs<'a> {}

impl<'a> Clone for FrozenPairs<'a> {
    ghost is_clone = { λ pairs copy. copy ≡ pairs };

    ghost is_infallible = { λ _. ⊤ };

    fn clone(&self) -> Result<FrozenPairs<'a>, AllocError> {
        Ok(FrozenPairs {
            symbols: self.symbols.clone()?,
            strings: self.strings.clone()?,
        })
    }
}
