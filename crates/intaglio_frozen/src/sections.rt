//! Where the sections of a frozen table are, for callers that read its header once.
ghost use Rattle.std.specs.Prelude.{◌≡◌, slice_get, [], ◌∷◌, IfOk, IfErr, IfSome, IsOk, Some, option_copied};
ghost use Rattle.intaglio_interner.specs.State.{first};
ghost use Rattle.intaglio_frozen.specs.Layout.{strings};
ghost use Rattle.intaglio_frozen.specs.IsFrozen.{HasSections, IsFrozen};
ghost use Rattle.intaglio_frozen.specs.Sections.{AreSectionsOf};
ghost use Rattle.intaglio_frozen.specs.Fault.{IsFault};

use crate::error::FrozenError;
use crate::header::{HEADER, Header};
use crate::kind::FrozenKind;
use crate::numbers::{groups_for, places_for};
use crate::reader::Reader;
use intaglio_symbol::Symbol;

/// What the header of a frozen table says, and where its sections begin: read once, for
/// many look-ups in the same bytes.
///
/// The numbers are plain, so that a caller in C can keep them. Each call is passed the bytes again, and reads
/// their sections and not their header. Whatever the numbers and the bytes are, no call panics or reads
/// outside the bytes. If the numbers were read from the bytes of a frozen table, and the calls are passed the
/// same bytes, they return what [`TrustedFrozen`](crate::TrustedFrozen) returns.
///
/// ```
/// # use intaglio::{StrContent, SymbolTable};
/// # use intaglio_frozen::{FrozenKind, Sections, freeze};
/// # let mut words = SymbolTable::new(rt.alloc())?;
/// # let symbol = words.intern(StrContent::from("abc"))?;
/// let bytes = freeze(rt.alloc(), &words, FrozenKind::Text, 1, 2)?;
/// let sections = Sections::read(&bytes)?;
/// assert!(rt; sections.check_interned(&bytes, b"abc") == Some(symbol));
/// assert!(rt; sections.get(&bytes, symbol) == Some(b"abc".as_slice()));
/// ```
#[repr(C)]
#[derive(Debug, Clone, Copy, PartialEq, Eq)]
pub struct Sections {
    /// The first key of the hasher.
    pub key0: u64,
    /// The second key of the hasher.
    pub key1: u64,
    /// How many strings there are.
    pub count: usize,
    /// Where the starts of the strings begin, four bytes each: the start of the first is always 0, whatever
    /// stands there, and that of each other is the end of the one before.
    pub starts_at: usize,
    /// Where the pilots begin, two bytes each.
    pub pilots_at: usize,
    /// Where the tags begin, a byte each.
    pub tags_at: usize,
    /// Where the text begins.
    pub text_at: usize,
    /// How many places there are.
    pub places: u32,
    /// How many groups of hashes there are.
    pub groups: u32,
    /// What the strings are: 1 if they are texts, and 0 if they are any bytes.
    pub kind: u32,
}

impl Sections {
    /// The sections of these bytes, after a check of the header and of the length that it requires.
    /// Nothing behind the header is read.
    ///
    /// # Errors
    ///
    /// What is wrong with the header, or `Truncated` or `TooLong` if there aren't as many bytes as it requires.
    pub fn read(bytes: &[u8]) -> Result<Sections, FrozenError>
        ensures sections { IfOk result (AreSectionsOf bytes.now) }
        ensures only { HasSections bytes.now → IsOk result }
        ensures err { IfErr result (IsFault bytes.now) }
    {
        let header = Header::read(bytes)?;
        let count = header.count as usize;
        let places = places_for(header.count);
        let groups = groups_for(header.count);
        let ends_at = HEADER + 4 * places as usize;
        let pilots_at = ends_at + 4 * count;
        let tags_at = pilots_at + 2 * groups as usize;
        let text_at = tags_at + places as usize;
        if text_at > bytes.len() || ((bytes.len() - text_at) as u64) < header.text_length {
            return Err(FrozenError::Truncated);
        }
        if (bytes.len() - text_at) as u64 > header.text_length {
            return Err(FrozenError::TooLong);
        }
        Ok(Sections {
            key0: header.key0,
            key1: header.key1,
            count,
            starts_at: ends_at - 4,
            pilots_at,
            tags_at,
            text_at,
            places: places as u32,
            groups: groups as u32,
            kind: match header.kind {
                FrozenKind::Bytes => 0,
                FrozenKind::Text => 1,
            },
        })
    }

    /// The string of a symbol. If the bytes aren't a frozen table, a symbol below `count` may have none.
    #[inline]
    pub fn get<'a>(&self, bytes: &'a [u8], symbol: Symbol) -> Option<&'a [u8]>
        ensures found { AreSectionsOf bytes.now self.now
            → IfSome result (λ s. slice_get (strings bytes.now) symbol ≡ Some s.now) }
        ensures frozen { AreSectionsOf bytes.now self.now → IsFrozen bytes.now
            → option_copied result ≡ slice_get (strings bytes.now) symbol }
    {
        Reader::by(bytes, self)?.string(symbol.id() as usize)
    }

    /// The symbol of a string, if it is found. If the bytes aren't a frozen table, a
    /// string of a symbol may not be found.
    #[inline]
    pub fn check_interned(&self, bytes: &[u8], string: &[u8]) -> Option<Symbol>
        ensures found { AreSectionsOf bytes.now self.now
            → IfSome result (λ s. slice_get (strings bytes.now) s ≡ Some string.now) }
        ensures frozen { AreSectionsOf bytes.now self.now → IsFrozen bytes.now
            → result ≡ first (λ w. w ∷ []) (strings bytes.now) (string.now ∷ []) }
    {
        let reader = Reader::by(bytes, self)?;
        reader.check_hashed(reader.hash(string), string)
    }
}
