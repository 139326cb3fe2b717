//! The reader of a frozen table's bytes.
ghost use Rattle.std.specs.Prelude.{◌≡◌, ℕ, List, ◌↔◌, ◌+◌, ◌-◌, ◌*◌, ◌<◌, ◌≤◌, ◌∷◌, IsTrue, length, drop, get_or, slice_get, option_copied, Some, IfOk, IfErr, IfSome, IsOk, IsSome};
ghost use Rattle.intaglio_frozen.specs.Strings.{AreEnds};
ghost use Rattle.intaglio_frozen.specs.Layout.{numbers_at, text_at, ends, strings};
ghost use Rattle.intaglio_frozen.specs.LookUp.{hash, place, find, IsCandidate};
ghost use Rattle.intaglio_frozen.specs.IsFrozen.{HasSections, IsBlock};
ghost use Rattle.intaglio_frozen.specs.Fault.{IsFault};
ghost use Rattle.intaglio_frozen.specs.Identity.{HasId};
ghost use Rattle.intaglio_frozen.specs.Sections.{AreSectionsOf, AreWithin};

use crate::error::FrozenError;
use crate::header::HEADER;
use crate::id::DictionaryId;
use crate::numbers::{hash_by, mixed, scaled};
use crate::sections::Sections;
use intaglio_content::same_bytes;
use intaglio_hash::KeyedState;
use intaglio_hash::numbers::{read_u16, read_u32, read_u64};
use intaglio_symbol::Symbol;

/// Bytes, and sections within them. Only if the sections are those of the bytes, a call returns
/// what the format says. Else it returns something, and reads nothing outside the bytes.
#[derive(Drop)]
pub(crate) struct Reader<'a> {
    pub(crate) bytes: &'a [u8],
    pub(crate) text: &'a [u8],
    pub(crate) sections: Sections,
    ghost within: { AreWithin (length bytes.now) sections },
    ghost behind: { text.now ≡ drop sections.text_at bytes.now },
}

impl<'a> Reader<'a> {
    // Reads the header, and checks that the sections are within the bytes.
    pub(crate) fn read(bytes: &'a [u8]) -> Result<Reader<'a>, FrozenError>
        ensures read { IfOk result (λ r. r.bytes.now ≡ bytes.now) }
        ensures sections { IfOk result (λ r. AreSectionsOf r.bytes.now r.sections) }
        ensures only { HasSections bytes.now → IsOk result }
        ensures err { IfErr result (IsFault bytes.now) }
    {
        let sections = Sections::read(bytes)?;
        Ok(Reader::of(bytes, sections))
    }

    // Takes sections that may be those of other bytes, if they are within these.
    #[inline(always)]
    pub(crate) fn by(bytes: &'a [u8], sections: &Sections) -> Option<Reader<'a>>
        ensures bytes { IfSome result (λ r. r.bytes.now ≡ bytes.now) }
        ensures sections { IfSome result (λ r. r.sections ≡ sections.now) }
        ensures some { AreSectionsOf bytes.now sections.now → IsSome result }
    {
        let places = sections.places as usize;
        let groups = sections.groups as usize;
        if sections.count >= places || groups == 0 || sections.text_at > bytes.len() {
            return None;
        }
        if sections.starts_at != HEADER - 4 + 4 * places
            || sections.pilots_at != sections.starts_at + 4 + 4 * sections.count
            || sections.tags_at != sections.pilots_at + 2 * groups
            || sections.text_at != sections.tags_at + places
        {
            return None;
        }
        Some(Reader::of(bytes, *sections))
    }

    #[inline(always)]
    fn of(bytes: &'a [u8], sections: Sections) -> Reader<'a>
        requires { AreWithin (length bytes.now) sections }
        ensures bytes { result.bytes.now ≡ bytes.now }
        ensures sections { result.sections ≡ sections }
    {
        Reader {
            bytes,
            text: &bytes[sections.text_at..],
            sections,
        }
    }

    // Whether the strings fill the text.
    pub(crate) fn has_ends(&self) -> bool
        requires { AreSectionsOf self.now.bytes.now self.now.sections }
        ensures { let bytes = self.now.bytes.now in
            IsTrue result ↔ AreEnds 0 (length bytes - text_at bytes) (ends bytes) }
    {
        are_ends(
            self.bytes,
            self.sections.starts_at + 4,
            self.sections.count,
            self.text.len(),
        )
    }

    // Whether the identity in the header is that of the strings.
    pub(crate) fn has_id(&self) -> bool
        requires { AreSectionsOf self.now.bytes.now self.now.sections }
        ensures { IsTrue result ↔ HasId self.now.bytes.now }
    {
        let ends = &self.bytes[self.sections.starts_at + 4..self.sections.pilots_at];
        let is_text = self.sections.kind == 1;
        let id = DictionaryId::of(is_text, self.sections.count as u64, ends, self.text);
        id.hash0 == read_u64(self.bytes, 48) && id.hash1 == read_u64(self.bytes, 56)
    }

    // A string, if it is there and lies within the text.
    #[inline(always)]
    #[tactic(auto, using(std::proofs::lemmas::Grind::common_steps, std::proofs::lemmas::Option::slice_get_past, crate::proofs::Places::strings_length, crate::proofs::Places::part_whole))]
    pub(crate) fn string(&self, i: usize) -> Option<&'a [u8]>
        ensures found { AreSectionsOf self.now.bytes.now self.now.sections
            → IfSome result (λ s. slice_get (strings self.now.bytes.now) i ≡ Some s.now) }
        ensures block { AreSectionsOf self.now.bytes.now self.now.sections → IsBlock self.now.bytes.now
            → option_copied result ≡ slice_get (strings self.now.bytes.now) i }
    {
        if i >= self.sections.count {
            return None;
        }
        self.text.get(self.start_of(i)..self.end_of(i))
    }

    // The symbol of a string, if it is found, by the string's hash.
    #[inline(always)]
    pub(crate) fn check_hashed(&self, hashed: u64, string: &[u8]) -> Option<Symbol>
        ensures found { AreSectionsOf self.now.bytes.now self.now.sections
            → IfSome result (λ s. slice_get (strings self.now.bytes.now) s ≡ Some string.now) }
        ensures block { AreSectionsOf self.now.bytes.now self.now.sections → IsBlock self.now.bytes.now
            → hashed ≡ hash self.now.bytes.now string.now → result ≡ find self.now.bytes.now string.now }
    {
        let symbol = self.candidate(hashed)?;
        let stored = self.string(symbol as usize)?;
        if same_bytes(stored, string) {
            Some(Symbol::new(symbol))
        } else {
            None
        }
    }

    // The only symbol that a string with this hash can have: that of its place, if the place has its tag.
    #[inline(always)]
    pub(crate) fn symbol(&self, hashed: u64) -> Option<u32>
        ensures { AreSectionsOf self.now.bytes.now self.now.sections → (w : List ℕ)
            → hashed ≡ hash self.now.bytes.now w → IsCandidate self.now.bytes.now w result }
    {
        let place = self.place(hashed);
        if self.bytes[self.sections.tags_at + place] != (hashed % 256) as u8 {
            return None;
        }
        Some(read_u32(self.bytes, HEADER + 4 * place))
    }

    // The same, if there is a string with this symbol.
    #[inline(always)]
    #[tactic(auto, using(std::proofs::lemmas::Grind::common_steps, std::proofs::lemmas::Option::slice_get_past, crate::proofs::Places::strings_length))]
    pub(crate) fn candidate(&self, hashed: u64) -> Option<u32>
        ensures found { AreSectionsOf self.now.bytes.now self.now.sections → (w : List ℕ)
            → hashed ≡ hash self.now.bytes.now w → IsCandidate self.now.bytes.now w result }
        ensures below { IfSome result (λ s. s < self.now.sections.count) }
    {
        let symbol = self.symbol(hashed)?;
        if symbol as usize >= self.sections.count {
            return None;
        }
        Some(symbol)
    }

    // Reads what a look-up by this hash will read, and returns the first byte
    // of the string that it will compare.
    #[inline(always)]
    pub(crate) fn touch(&self, hashed: u64) -> u8 {
        let Some(symbol) = self.candidate(hashed) else {
            return 0;
        };
        match self.text.get(self.start_of(symbol as usize)) {
            Some(byte) => *byte,
            None => 0,
        }
    }

    #[inline(always)]
    #[tactic(auto, unfolding(crate::specs::LookUp::hash))]
    pub(crate) fn hash(&self, string: &[u8]) -> u64
        ensures { AreSectionsOf self.now.bytes.now self.now.sections
            → result ≡ hash self.now.bytes.now string.now }
    {
        hash_by(
            &KeyedState::with_keys(self.sections.key0, self.sections.key1),
            string,
        )
    }

    #[inline(always)]
    #[tactic(auto, unfolding(crate::specs::LookUp::place))]
    fn place(&self, hash: u64) -> usize
        ensures value { AreSectionsOf self.now.bytes.now self.now.sections
            → result ≡ place self.now.bytes.now hash }
        ensures below { result < self.now.sections.places }
    {
        let group = scaled(self.sections.groups as u64, hash);
        let pilot = read_u16(self.bytes, self.sections.pilots_at + 2 * group);
        scaled(self.sections.places as u64, mixed(hash, pilot))
    }

    // Where a string begins.
    #[inline(always)]
    pub(crate) fn start_of(&self, i: usize) -> usize
        requires { i < self.now.sections.count }
        ensures { AreSectionsOf self.now.bytes.now self.now.sections
            → result ≡ get_or (0 ∷ ends self.now.bytes.now) i 0 }
    {
        // The number is read for the first string too: then no branch is needed.
        let before = read_u32(self.bytes, self.sections.starts_at + 4 * i) as usize;
        if i == 0 { 0 } else { before }
    }

    // Where a string ends.
    #[inline(always)]
    #[tactic(auto, using(std::proofs::lemmas::Grind::common_steps, crate::proofs::Places::end_is))]
    pub(crate) fn end_of(&self, i: usize) -> usize
        requires { i < self.now.sections.count }
        ensures { AreSectionsOf self.now.bytes.now self.now.sections
            → result ≡ get_or (ends self.now.bytes.now) i 0 }
    {
        read_u32(self.bytes, self.sections.starts_at + 4 * i + 4) as usize
    }
}

// Whether no end lies before the one before it, and the last is `all`.
#[tactic(auto, using(std::proofs::lemmas::Grind::common_steps, crate::proofs::Places::numbers_step))]
fn are_ends(bytes: &[u8], at: usize, count: usize, all: usize) -> bool
    requires { at + 4 * count ≤ length bytes.now }
    ensures { IsTrue result ↔ AreEnds 0 all (numbers_at bytes.now at count) }
{
    let mut before = 0;
    for i in 0..count {
        let end = read_u32(bytes, at + 4 * i) as usize;
        if end < before {
            return false;
        }
        before = end;
    }
    before == all
}
