//! What look-ups need of a dictionary.
ghost use Rattle.std.specs.Prelude.{◌≡◌, ◌^◌, ◌≤◌, ℕ, List, length, map, slice_get, IfOk, IfSome, Some, option_copied};
ghost use Rattle.intaglio_frozen.specs.IsFrozen.{IsFrozen};
ghost use Rattle.intaglio_frozen.specs.Layout.{strings as strings_of_bytes};
ghost use Rattle.intaglio_frozen.specs.Shards.{joined};
ghost use Rattle.intaglio_columns.specs.Answers.{position_in};

use intaglio_frozen::{Frozen, Shards, TrustedFrozen};
use intaglio_symbol::Symbol;
use std::alloc::{AllocError, Global};

/// A dictionary in which lines and symbols are looked up: a frozen table that was checked, or one whose bytes
/// are trusted, or frozen tables that are the shards of one dictionary.
pub trait Dictionary {
    // Its strings, in the order of their symbols.
    ghost strings: { Self → List (List ℕ) };

    // What look-ups rely on to find each string. It holds of every table that was checked.
    ghost is_whole: { Self → Type 0 };

    /// The number of strings.
    fn len(&self) -> usize
        ensures count { result ≡ length (strings self.now) }
        ensures few { result ≤ 2 ^ 32 };

    /// The string of a symbol. If the dictionary isn't whole, a symbol below `len` may have none.
    fn string(&self, symbol: Symbol) -> Option<&[u8]>
        ensures found { IfSome result (λ s. slice_get (strings self.now) symbol ≡ Some s.now) }
        ensures whole { is_whole self.now → option_copied result ≡ slice_get (strings self.now) symbol };

    /// The symbol of a string, if it is found. If the dictionary isn't whole, a
    /// string of a symbol may not be.
    fn symbol(&self, string: &[u8]) -> Option<Symbol>
        ensures found { IfSome result (λ s. slice_get (strings self.now) s ≡ Some string.now) }
        ensures whole { is_whole self.now → result ≡ position_in (strings self.now) string.now };
}

impl Dictionary for Frozen<'_> {
    ghost strings = { λ table. table };

    ghost is_whole = { λ _. Unit {0} };

    #[inline(always)]
    fn len(&self) -> usize {
        Frozen::len(self)
    }

    #[inline(always)]
    fn string(&self, symbol: Symbol) -> Option<&[u8]> {
        self.get(symbol)
    }

    #[inline(always)]
    fn symbol(&self, string: &[u8]) -> Option<Symbol> {
        self.check_interned(string)
    }
}

impl Dictionary for TrustedFrozen<'_> {
    ghost strings = { λ table. strings_of_bytes table };

    ghost is_whole = { λ table. IsFrozen table };

    #[inline(always)]
    fn len(&self) -> usize {
        TrustedFrozen::len(self)
    }

    #[inline(always)]
    fn string(&self, symbol: Symbol) -> Option<&[u8]> {
        self.get(symbol)
    }

    #[inline(always)]
    fn symbol(&self, string: &[u8]) -> Option<Symbol> {
        self.check_interned(string)
    }
}

impl Dictionary for Shards<'_> {
    ghost strings = { λ shards. joined shards };

    ghost is_whole = { λ _. Unit {0} };

    #[inline(always)]
    fn len(&self) -> usize {
        Shards::len(self)
    }

    #[inline(always)]
    fn string(&self, symbol: Symbol) -> Option<&[u8]> {
        self.get(symbol)
    }

    #[inline(always)]
    fn symbol(&self, string: &[u8]) -> Option<Symbol> {
        self.check_interned(string)
    }
}

/// A dictionary of which all was checked: a frozen table, or the shards of one dictionary. Each
/// string and each symbol is found.
pub trait WholeDictionary: Dictionary {
    /// For contracts alone: all of it was checked.
    fn whole(&self)
        ensures { Self.is_whole self.now };

    /// The string of a symbol.
    #[inline(always)]
    fn string_of(&self, symbol: Symbol) -> Option<&[u8]>
        ensures { option_copied result ≡ slice_get (Self.strings self.now) symbol }
    {
        self.whole();
        self.string(symbol)
    }

    /// The symbol of a string, if it is in the dictionary.
    #[inline(always)]
    fn symbol_of(&self, string: &[u8]) -> Option<Symbol>
        ensures { result ≡ position_in (Self.strings self.now) string.now }
    {
        self.whole();
        self.symbol(string)
    }

    /// The symbol of each string of a batch, where it is in the dictionary.
    ///
    /// # Errors
    ///
    /// [`AllocError`] if the allocation of the list fails.
    fn symbols_of(&self, alloc: Global, batch: &[&[u8]]) -> Result<Vec<Option<Symbol>>, AllocError>
        ensures { IfOk result (λ found.
            found.items ≡ map (λ w. position_in (Self.strings self.now) w.now) batch.now) };
}

impl WholeDictionary for Frozen<'_> {
    #[inline(always)]
    fn whole(&self) {}

    #[inline(always)]
    fn symbols_of(
        &self,
        alloc: Global,
        batch: &[&[u8]],
    ) -> Result<Vec<Option<Symbol>>, AllocError> {
        self.check_all(alloc, batch)
    }
}

impl WholeDictionary for Shards<'_> {
    #[inline(always)]
    fn whole(&self) {}

    #[inline(always)]
    fn symbols_of(
        &self,
        alloc: Global,
        batch: &[&[u8]],
    ) -> Result<Vec<Option<Symbol>>, AllocError> {
        self.check_all(alloc, batch)
    }
}
