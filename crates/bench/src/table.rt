//! Tables of texts, as the operations call them.
ghost use Rattle.std.specs.Prelude.{◌≡◌, ℕ, length};

use crate::operations::{forms, sum_of};
use intaglio::{InternError, StrContent, Symbol, SymbolTable, packed};
use intaglio_frozen::{Frozen, TrustedFrozen};
use std::alloc::{AllocError, Global};
use std::hash::BuildHasher;

/// A table that is searched.
pub trait Searched {
    /// The symbol of a word, if it is there.
    fn find(&self, word: &str) -> Option<Symbol>;

    /// The bytes of a symbol's text.
    fn bytes(&self, symbol: Symbol) -> Option<&[u8]>;
}

/// The symbols of the words of a batch.
pub type Symbols = Result<Vec<Symbol>, InternError>;

/// A table of texts, over a `Vec` or over one buffer.
pub trait WordTable: Searched {
    ghost count: { Self → ℕ };

    /// Interns an owned word.
    fn intern_word(&mut self, word: String) -> Result<Symbol, InternError>;

    /// Interns owned words.
    fn intern_words(&mut self, alloc: Global, words: Vec<StrContent>) -> Symbols;

    /// Interns a borrowed word.
    fn intern_form(&mut self, word: &str) -> Result<Symbol, InternError>;

    /// Interns borrowed words.
    fn intern_forms(&mut self, words: &[&str]) -> Symbols;

    /// The symbols of words, where they are there.
    fn find_all(&self, words: &[&str]) -> Result<Vec<Option<Symbol>>, AllocError>;

    /// The numbers of all symbols and the lengths of all texts, added up.
    fn sum(&self) -> u64;

    /// The number of texts.
    fn len(&self) -> usize
        ensures { result ≡ count self.now };

    /// Drops all texts.
    fn clear(&mut self)
        ensures { count self.new ≡ 0 };
}

impl<S: BuildHasher> Searched for SymbolTable<S> {
    fn find(&self, word: &str) -> Option<Symbol> {
        self.check_interned(word)
    }

    fn bytes(&self, symbol: Symbol) -> Option<&[u8]> {
        self.get(symbol).map(|text| text.as_bytes())
    }
}

impl<S: BuildHasher> Searched for packed::SymbolTable<S> {
    fn find(&self, word: &str) -> Option<Symbol> {
        self.check_interned(word)
    }

    fn bytes(&self, symbol: Symbol) -> Option<&[u8]> {
        self.get(symbol).map(|text| text.as_bytes())
    }
}

impl Searched for Frozen<'_> {
    fn find(&self, word: &str) -> Option<Symbol> {
        self.check_interned(word.as_bytes())
    }

    fn bytes(&self, symbol: Symbol) -> Option<&[u8]> {
        self.get(symbol)
    }
}

impl Searched for TrustedFrozen<'_> {
    fn find(&self, word: &str) -> Option<Symbol> {
        self.check_interned(word.as_bytes())
    }

    fn bytes(&self, symbol: Symbol) -> Option<&[u8]> {
        self.get(symbol)
    }
}

impl<S: BuildHasher> WordTable for SymbolTable<S> {
    ghost count = { λ table. length table.state.contents };

    fn intern_word(&mut self, word: String) -> Result<Symbol, InternError> {
        self.intern(StrContent::from(word))
    }

    fn intern_words(&mut self, _alloc: Global, words: Vec<StrContent>) -> Symbols {
        self.intern_all(words)
    }

    fn intern_form(&mut self, word: &str) -> Result<Symbol, InternError> {
        self.get_or_intern(word)
    }

    fn intern_forms(&mut self, words: &[&str]) -> Symbols {
        self.get_or_intern_all(words)
    }

    fn find_all(&self, words: &[&str]) -> Result<Vec<Option<Symbol>>, AllocError> {
        self.check_all(words)
    }

    fn sum(&self) -> u64 {
        sum_of(self.iter())
    }

    fn len(&self) -> usize {
        SymbolTable::len(self)
    }

    fn clear(&mut self) {
        SymbolTable::clear(self);
    }
}

impl<S: BuildHasher> WordTable for packed::SymbolTable<S> {
    ghost count = { λ table. length table.state.contents };

    fn intern_word(&mut self, word: String) -> Result<Symbol, InternError> {
        self.intern(StrContent::from(word))
    }

    fn intern_words(&mut self, alloc: Global, words: Vec<StrContent>) -> Symbols {
        self.get_or_intern_all(&forms(alloc, &words)?)
    }

    fn intern_form(&mut self, word: &str) -> Result<Symbol, InternError> {
        self.get_or_intern(word)
    }

    fn intern_forms(&mut self, words: &[&str]) -> Symbols {
        self.get_or_intern_all(words)
    }

    fn find_all(&self, words: &[&str]) -> Result<Vec<Option<Symbol>>, AllocError> {
        self.check_all(words)
    }

    fn sum(&self) -> u64 {
        sum_of(self.iter())
    }

    fn len(&self) -> usize {
        packed::SymbolTable::len(self)
    }

    fn clear(&mut self) {
        packed::SymbolTable::clear(self);
    }
}
