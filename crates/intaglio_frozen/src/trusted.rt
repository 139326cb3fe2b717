//! A frozen table whose bytes are trusted.
ghost use Rattle.std.specs.Prelude.{◌≡◌, ◌^◌, ◌≤◌, length, slice_get, [], ◌∷◌, IfOk, IfErr, IfSome, IsOk, Some, option_copied};
ghost use Rattle.intaglio_interner.specs.State.{first};
ghost use Rattle.intaglio_frozen.specs.Layout.{strings};
ghost use Rattle.intaglio_frozen.specs.LookUp.{hash};
ghost use Rattle.intaglio_frozen.specs.IsFrozen.{HasSections, IsFrozen};
ghost use Rattle.intaglio_frozen.specs.Fault.{IsFault};

use crate::ahead::HashesAhead;
use crate::error::FrozenError;
use crate::reader::Reader;
use intaglio_symbol::Symbol;
use std::marker::Model;

/// A frozen table whose bytes are trusted: only its header is checked, so it opens in
/// constant time. No clause bears that, since none can say what a call reads; a test opens
/// a table whose other bytes can't be read.
///
/// Any bytes that have a header and are as long as it requires can be opened. No call panics or reads outside
/// them, and what a look-up finds is equal to what was sought. Each string is found at its symbol only if the
/// bytes are a frozen table. A contract sees the bytes.
///
/// ```
/// # use intaglio::{StrContent, SymbolTable};
/// # use intaglio_frozen::{FrozenKind, TrustedFrozen, freeze};
/// # let mut words = SymbolTable::new(rt.alloc())?;
/// # let symbol = words.intern(StrContent::from("abc"))?;
/// let bytes = freeze(rt.alloc(), &words, FrozenKind::Text, 1, 2)?;
/// let table = TrustedFrozen::open(&bytes)?;
/// assert!(rt; table.check_interned(b"abc") == Some(symbol));
/// assert!(rt; table.get(symbol) == Some(b"abc".as_slice()));
/// ```
#[derive(Drop)]
pub struct TrustedFrozen<'a> {
    reader: Reader<'a>,
}

impl<'a> Model for TrustedFrozen<'a> {
    ghost use Rattle.std.specs.Prelude.{ℕ, List};
    ghost use Rattle.intaglio_frozen.specs.Sections.{AreSectionsOf};

    ghost Value = { List ℕ };

    ghost view = { λ f. f.reader.bytes.now };

    ghost invariant = { λ f. AreSectionsOf f.reader.bytes.now f.reader.sections };
}

#[tactic(auto, using(crate::proofs::Places::strings_length))]
impl<'a> TrustedFrozen<'a> {
    /// The table of these bytes, after a check of the header and of the length that it requires.
    /// Nothing behind the header is read.
    ///
    /// # Errors
    ///
    /// What is wrong with the header, or `Truncated` or `TooLong` if there aren't as many bytes as it requires.
    pub fn open(bytes: &'a [u8]) -> Result<TrustedFrozen<'a>, FrozenError>
        ensures bytes { IfOk result (λ f. f ≡ bytes.now) }
        ensures sections { IfOk result (λ _. HasSections bytes.now) }
        ensures only { HasSections bytes.now → IsOk result }
        ensures frozen { IsFrozen bytes.now → IsOk result }
        ensures err { IfErr result (IsFault bytes.now) }
    {
        let reader = Reader::read(bytes)?;
        Ok(TrustedFrozen { reader })
    }

    /// The number of strings.
    #[inline]
    pub fn len(&self) -> usize
        ensures count { result ≡ length (strings self.now) }
        ensures few { result ≤ 2 ^ 32 }
    {
        self.reader.sections.count
    }

    /// The string of a symbol. If the bytes aren't a frozen table, a symbol below `len` may have none.
    #[inline]
    pub fn get(&self, symbol: Symbol) -> Option<&'a [u8]>
        ensures found { IfSome result (λ s. slice_get (strings self.now) symbol ≡ Some s.now) }
        ensures frozen { IsFrozen self.now → option_copied result ≡ slice_get (strings self.now) symbol }
    {
        self.reader.string(symbol.id() as usize)
    }

    /// The symbol of a string, if it is found. If the bytes aren't a frozen table, a
    /// string of a symbol may not be found.
    #[inline]
    pub fn check_interned(&self, string: &[u8]) -> Option<Symbol>
        ensures found { IfSome result (λ s. slice_get (strings self.now) s ≡ Some string.now) }
        ensures frozen { IsFrozen self.now →
            result ≡ first (λ w. w ∷ []) (strings self.now) (string.now ∷ []) }
    {
        self.check_hashed(self.hash(string), string)
    }

    /// The hash of a string under the keys of the table. For batches of a caller's own: the hashes of some
    /// dozens of strings, then [`touch_hashed`](TrustedFrozen::touch_hashed) of each, then
    /// [`check_hashed`](TrustedFrozen::check_hashed) of each.
    #[inline]
    pub fn hash(&self, string: &[u8]) -> u64
        ensures { result ≡ hash self.now string.now }
    {
        self.reader.hash(string)
    }

    /// Reads what a look-up by this hash will read, so that the cache misses of several look-ups
    /// overlap. The byte is one of those that were read, or 0; a caller who keeps it keeps the
    /// compiler from leaving out the reads.
    #[inline]
    pub fn touch_hashed(&self, hashed: u64) -> u8 {
        self.reader.touch(hashed)
    }

    /// As [`check_interned`](TrustedFrozen::check_interned), by the string's hash.
    #[inline]
    pub fn check_hashed(&self, hashed: u64, string: &[u8]) -> Option<Symbol>
        requires { hashed ≡ hash self.now string.now }
        ensures found { IfSome result (λ s. slice_get (strings self.now) s ≡ Some string.now) }
        ensures frozen { IsFrozen self.now →
            result ≡ first (λ w. w ∷ []) (strings self.now) (string.now ∷ []) }
    {
        self.reader.check_hashed(hashed, string)
    }
}

impl HashesAhead for TrustedFrozen<'_> {
    ghost is_hash = { λ bytes string n. n ≡ hash bytes string };

    #[inline(always)]
    fn hash(&self, string: &[u8]) -> u64 {
        TrustedFrozen::hash(self, string)
    }

    fn count(&self) -> usize {
        self.len()
    }

    #[inline(always)]
    fn touch(&self, hash: u64) -> u8 {
        self.touch_hashed(hash)
    }
}
