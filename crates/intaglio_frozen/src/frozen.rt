//! A frozen table.
ghost use Rattle.std.specs.Prelude.{◌≡◌, ℕ, List, length, slice_get, map, zip, [], ◌∷◌, IfOk, IfErr, IsOk, Some, ◌^◌, ◌<◌, ◌≤◌, is_some, option_copied};
ghost use Rattle.intaglio_symbol.specs.AllSymbols.{numbers_from};
ghost use Rattle.intaglio_interner.specs.State.{first, AreDistinct};
ghost use Rattle.intaglio_frozen.specs.Layout.{strings};
ghost use Rattle.intaglio_frozen.specs.IsFrozen.{IsFrozen};
ghost use Rattle.intaglio_frozen.specs.Fault.{IsFault};

use crate::batch::find_all;
use crate::block::Block;
use crate::checking::{first_no_text, first_not_found};
use crate::error::FrozenError;
use crate::iter::{FrozenPairs, FrozenStrings};
use crate::list::StringList;
use intaglio_symbol::Symbol;
use std::alloc::{AllocError, Global};
use std::marker::Model;

/// A read-only symbol table over bytes.
///
/// A contract sees it as the list of its strings, in the order of their symbols.
#[derive(Drop)]
pub struct Frozen<'a> {
    block: Block<'a>,
}

impl<'a> Model for Frozen<'a> {
    ghost use Rattle.std.specs.Prelude.{ℕ, List};
    ghost use Rattle.intaglio_frozen.specs.Layout.{strings};
    ghost use Rattle.intaglio_frozen.specs.IsFrozen.{IsFrozen};

    ghost Value = { List (List ℕ) };

    ghost view = { λ f. strings f.block };

    ghost invariant = { λ f. IsFrozen f.block };
}

impl<'a> Frozen<'a> {
    /// The table of these bytes, after a check of all of them: that each string is found at its symbol, that
    /// the places without a string are empty, that each string is UTF-8 if the kind is text, and that the
    /// identity in the header is that of the strings.
    ///
    /// # Errors
    ///
    /// What is wrong with the bytes, if they are no frozen table.
    pub fn open(bytes: &'a [u8]) -> Result<Frozen<'a>, FrozenError>
        ensures strings { IfOk result (λ f. f ≡ strings bytes.now) }
        ensures frozen { IfOk result (λ f. IsFrozen bytes.now) }
        ensures only { IsFrozen bytes.now → IsOk result }
        ensures err { IfErr result (IsFault bytes.now) }
    {
        let block = Block::read(bytes)?;
        if !block.has_unused() {
            return Err(FrozenError::Unused);
        }
        if let Some(i) = first_not_found(&block) {
            return Err(FrozenError::NotFound(i));
        }
        if let Some(i) = first_no_text(&block) {
            return Err(FrozenError::NotUtf8(i));
        }
        if !block.has_id() {
            return Err(FrozenError::OtherIdentity);
        }
        Ok(Frozen { block })
    }

    /// The number of strings.
    #[inline]
    pub fn len(&self) -> usize
        ensures count { result ≡ length self.now }
        ensures few { result ≤ 2 ^ 32 }
    {
        self.block.len()
    }

    /// The string of a symbol.
    #[inline]
    pub fn get(&self, symbol: Symbol) -> Option<&'a [u8]>
        ensures { option_copied result ≡ slice_get self.now symbol }
    {
        if symbol.id() as usize >= self.block.len() {
            return None;
        }
        Some(self.block.string(symbol.id() as usize))
    }

    /// All symbols with their strings, in order.
    ///
    /// ```
    /// # use intaglio::{StrContent, SymbolTable};
    /// # use intaglio_frozen::{Frozen, FrozenKind, freeze};
    /// # let mut words = SymbolTable::new(rt.alloc())?;
    /// # let _symbol = words.intern(StrContent::from("abc"))?;
    /// # let bytes = freeze(rt.alloc(), &words, FrozenKind::Text, 1, 2)?;
    /// let table = Frozen::open(&bytes)?;
    /// for (symbol, string) in table.iter() {
    ///     assert!(rt; table.get(symbol) == Some(string));
    /// }
    /// ```
    pub fn iter(&self) -> FrozenPairs<'a>
        ensures all { result ≡ zip (numbers_from 0 (length self.now)) self.now }
        ensures bound { length result ≤ 2 ^ 32 }
    {
        // The number of strings is at most 2^32.
        let _count = self.len();
        FrozenPairs::of(self.strings())
    }

    /// All strings, in the order of their symbols.
    pub fn strings(&self) -> FrozenStrings<'a>
        ensures { result ≡ self.now }
    {
        self.block.strings()
    }

    // As `strings`, with what holds of them.
    #[tactic(auto, using(std::proofs::lemmas::Grind::common_steps, crate::proofs::Found::all_distinct))]
    pub(crate) fn distinct_strings(&self) -> FrozenStrings<'a>
        ensures all { result ≡ self.now }
        ensures distinct { AreDistinct (map (λ w. w ∷ []) self.now) }
        ensures few { length self.now ≤ 2 ^ 32 }
    {
        // The number of strings is at most 2^32.
        let _count = self.len();
        self.block.strings()
    }

    /// The symbol of a string, if it is in the table.
    #[inline]
    pub fn check_interned(&self, string: &[u8]) -> Option<Symbol>
        ensures value { result ≡ first (λ w. w ∷ []) self.now (string.now ∷ []) }
        ensures distinct { AreDistinct (map (λ w. w ∷ []) self.now) }
    {
        self.block.find(string)
    }

    /// Whether a string is in the table.
    #[inline]
    pub fn is_interned(&self, string: &[u8]) -> bool
        ensures { result ≡ is_some (first (λ w. w ∷ []) self.now (string.now ∷ [])) }
    {
        self.check_interned(string).is_some()
    }

    /// The symbol of each string of a batch, where it is in the table.
    ///
    /// If the table has at least 2^14 strings, then in groups of 64 all are hashed before the
    /// first is looked up, so the cache misses of several look-ups overlap. It allocates the list
    /// that it returns, and nothing else.
    ///
    /// # Errors
    ///
    /// [`AllocError`] if the allocation of the list fails.
    ///
    /// ```
    /// # use intaglio::{StrContent, SymbolTable};
    /// # use intaglio_frozen::{Frozen, FrozenKind, freeze};
    /// # let mut words = SymbolTable::new(rt.alloc())?;
    /// # let symbol = words.intern(StrContent::from("abc"))?;
    /// # let bytes = freeze(rt.alloc(), &words, FrozenKind::Text, 1, 2)?;
    /// let table = Frozen::open(&bytes)?;
    /// let strings = [b"abc".as_slice(), b"x".as_slice()];
    /// let found = table.check_all(rt.alloc(), &strings)?;
    /// assert!(rt; found.as_slice() == [Some(symbol), None].as_slice());
    /// ```
    pub fn check_all(
        &self,
        alloc: Global,
        strings: &[&[u8]],
    ) -> Result<Vec<Option<Symbol>>, AllocError>
        ensures { IfOk result (λ found. found.items
            ≡ map (λ w. first (λ w. w ∷ []) self.now (w.now ∷ [])) strings.now) }
    {
        find_all(alloc, &self.block, strings)
    }
}

impl<'b, 'a> IntoIterator for &'b Frozen<'a> {
    type Item = (Symbol, &'a [u8]);

    type IntoIter = FrozenPairs<'a>;

    ghost into_iter_gives = { λ table pairs. pairs ≡ zip (numbers_from 0 (length table.now)) table.now };

    fn into_iter(self) -> FrozenPairs<'a> {
        self.iter()
    }
}

impl StringList for Frozen<'_> {
    ghost strings = { λ table. table };

    #[inline(always)]
    fn len(&self) -> usize {
        Frozen::len(self)
    }

    #[inline(always)]
    fn string(&self, i: usize) -> &[u8] {
        self.block.string(i)
    }
}
