//! Bytes whose strings can be read.
ghost use Rattle.std.specs.Prelude.{◌≡◌, false, ◌↔◌, ◌^◌, ◌<◌, ◌≤◌, IsTrue, length, slice_get, Some, IfOk, IfErr, IsOk};
ghost use Rattle.intaglio_frozen.specs.Layout.{kind, ends, strings};
ghost use Rattle.intaglio_frozen.specs.LookUp.{find, hash};
ghost use Rattle.intaglio_frozen.specs.IsFrozen.{number_of, HasUnused, IsBlock, AreTexts};
ghost use Rattle.intaglio_frozen.specs.Checked.{IsHashAt, IsFoundAt, IsNotFoundAt, AreCharEnds};
ghost use Rattle.intaglio_frozen.specs.Fault.{IsFault};
ghost use Rattle.intaglio_frozen.specs.Identity.{HasId};

use crate::ahead::HashesAhead;
use crate::error::FrozenError;
use crate::header::HEADER;
use crate::iter::FrozenStrings;
use crate::kind::FrozenKind;
use crate::list::StringList;
use crate::numbers::NO_SYMBOL;
use crate::reader::Reader;
use intaglio_content::same_bytes;
use intaglio_hash::numbers::read_u32;
use intaglio_records::part;
use intaglio_symbol::Symbol;
use std::marker::Model;
use std::str;

/// Bytes with the header of a frozen table, whose strings fill their text. A contract sees the bytes.
///
/// Its strings can be read in order. Whether each is found at its symbol, and whether those of a table of
/// texts are UTF-8, only [`Frozen::open`](crate::Frozen::open) checks.
///
/// ```
/// # use intaglio::{StrContent, SymbolTable};
/// # use intaglio_frozen::{Block, FrozenKind, StringList, freeze};
/// # let mut words = SymbolTable::new(rt.alloc())?;
/// # let _symbol = words.intern(StrContent::from("abc"))?;
/// let bytes = freeze(rt.alloc(), &words, FrozenKind::Text, 1, 2)?;
/// let block = Block::read(&bytes)?;
/// assert!(rt; StringList::len(&block) == 1);
/// ```
#[derive(Drop)]
pub struct Block<'a> {
    reader: Reader<'a>,
}

impl<'a> Model for Block<'a> {
    ghost use Rattle.std.specs.Prelude.{ℕ, List};
    ghost use Rattle.intaglio_frozen.specs.IsFrozen.{IsBlock};
    ghost use Rattle.intaglio_frozen.specs.Sections.{AreSectionsOf};

    ghost Value = { List ℕ };

    ghost view = { λ b. b.reader.bytes.now };

    ghost invariant = { λ b. AreSectionsOf b.reader.bytes.now b.reader.sections × IsBlock b.reader.bytes.now };
}

#[tactic(auto, using(crate::proofs::Places::strings_length))]
impl<'a> Block<'a> {
    /// Reads the header, and checks that the strings fill the text. Of each string only its end is read.
    ///
    /// # Errors
    ///
    /// What is wrong with the header, `Truncated`, `TooLong` or `Ends`.
    pub fn read(bytes: &'a [u8]) -> Result<Block<'a>, FrozenError>
        ensures read { IfOk result (λ b. b ≡ bytes.now) }
        ensures block { IfOk result (λ b. IsBlock bytes.now) }
        ensures only { IsBlock bytes.now → IsOk result }
        ensures err { IfErr result (IsFault bytes.now) }
    {
        let reader = Reader::read(bytes)?;
        if !reader.has_ends() {
            return Err(FrozenError::Ends);
        }
        Ok(Block { reader })
    }

    // What the strings are.
    pub(crate) fn kind(&self) -> FrozenKind
        ensures value { number_of result ≡ kind self.now }
        ensures block { IsBlock self.now }
    {
        if self.reader.sections.kind == 0 {
            FrozenKind::Bytes
        } else {
            FrozenKind::Text
        }
    }

    // The number of strings.
    #[inline(always)]
    pub(crate) fn len(&self) -> usize
        ensures count { result ≡ length (strings self.now) }
        ensures few { result ≤ 2 ^ 32 }
    {
        self.reader.sections.count
    }

    // A string that is there.
    #[inline(always)]
    #[tactic(auto, using(std::proofs::lemmas::Grind::common_steps, crate::proofs::Places::strings_length, crate::proofs::Places::ends_order, crate::proofs::Places::string_in))]
    pub(crate) fn string(&self, i: usize) -> &'a [u8]
        requires { i < length (strings self.now) }
        ensures { slice_get (strings self.now) i ≡ Some result.now }
    {
        part(
            self.reader.text,
            self.reader.start_of(i),
            self.reader.end_of(i),
        )
    }

    // All strings, in order.
    #[tactic(auto, unfolding(crate::specs::Layout::strings))]
    pub(crate) fn strings(&self) -> FrozenStrings<'a>
        ensures { result ≡ strings self.now }
    {
        let sections = &self.reader.sections;
        FrozenStrings::of(
            self.reader.bytes,
            self.reader.text,
            sections.starts_at + 4,
            sections.count,
        )
    }

    // Whether the places that no string has are empty.
    pub(crate) fn has_unused(&self) -> bool
        ensures { IsTrue result ↔ HasUnused self.now }
    {
        let mut used = 0usize;
        for place in 0..self.reader.sections.places as usize {
            if read_u32(self.reader.bytes, HEADER + 4 * place) != NO_SYMBOL {
                used += 1;
            } else if self.reader.bytes[self.reader.sections.tags_at + place] != 0 {
                return false;
            }
        }
        used == self.reader.sections.count
    }

    // Whether the identity in the header is that of the strings.
    pub(crate) fn has_id(&self) -> bool
        ensures { IsTrue result ↔ HasId self.now }
    {
        self.reader.has_id()
    }

    // Whether all of the text is UTF-8, and each string ends where a character does.
    pub(crate) fn is_text(&self) -> bool
        ensures { IsTrue result → AreTexts (strings self.now) }
    {
        let Ok(text) = str::from_utf8(self.reader.text) else {
            return false;
        };
        self.has_char_ends(text)
    }

    // Whether each string ends where a character of this text does.
    #[tactic(auto, using(std::proofs::lemmas::Grind::common_steps, crate::proofs::Places::numbers_length))]
    fn has_char_ends(&self, text: &str) -> bool
        ensures { IsTrue result → AreCharEnds text.now (ends self.now) }
    {
        for i in 0..self.reader.sections.count {
            if !text.is_char_boundary(self.reader.end_of(i)) {
                return false;
            }
        }
        true
    }

    // The hash of a string that is there.
    #[inline(always)]
    pub(crate) fn hash(&self, i: usize) -> u64
        requires { i < length (strings self.now) }
        ensures { IsHashAt self.now i result }
    {
        self.reader.hash(self.string(i))
    }

    // Whether the string of a symbol is found at it, by the string's hash. No string is compared: what has
    // the symbol in its place is the string itself.
    #[inline(always)]
    pub(crate) fn is_at(&self, hash: u64, i: usize) -> bool
        requires there { i < length (strings self.now) }
        requires hash { IsHashAt self.now i hash }
        ensures found { IsTrue result → IsFoundAt self.now i }
        ensures not_found { result ≡ false → IsBlock self.now × IsNotFoundAt self.now i }
    {
        match self.reader.symbol(hash) {
            Some(symbol) => symbol as usize == i,
            None => false,
        }
    }

    // The hash of a string that is sought.
    #[inline(always)]
    pub(crate) fn hash_sought(&self, string: &[u8]) -> u64
        ensures { result ≡ hash self.now string.now }
    {
        self.reader.hash(string)
    }

    // What a look-up finds.
    #[inline(always)]
    pub(crate) fn find(&self, string: &[u8]) -> Option<Symbol>
        ensures { result ≡ find self.now string.now }
    {
        self.find_hashed(self.hash_sought(string), string)
    }

    // The same by the string's hash.
    #[inline(always)]
    pub(crate) fn find_hashed(&self, hashed: u64, string: &[u8]) -> Option<Symbol>
        requires { hashed ≡ hash self.now string.now }
        ensures { result ≡ find self.now string.now }
    {
        let symbol = self.reader.candidate(hashed)?;
        if same_bytes(self.string(symbol as usize), string) {
            Some(Symbol::new(symbol))
        } else {
            None
        }
    }
}

impl<'a> HashesAhead for Block<'a> {
    ghost is_hash = { λ block string n. n ≡ hash block string };

    #[inline(always)]
    fn hash(&self, string: &[u8]) -> u64 {
        self.hash_sought(string)
    }

    fn count(&self) -> usize {
        Block::len(self)
    }

    #[inline(always)]
    fn touch(&self, hash: u64) -> u8 {
        self.reader.touch(hash)
    }
}

impl<'a> StringList for Block<'a> {
    ghost strings = { λ block. strings block };

    #[inline(always)]
    fn len(&self) -> usize {
        Block::len(self)
    }

    #[inline(always)]
    fn string(&self, i: usize) -> &[u8] {
        Block::string(self, i)
    }
}
