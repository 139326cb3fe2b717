//! Strings as their bytes.
ghost use Rattle.std.specs.Prelude.{◌≡◌, ◌∷◌};
ghost use Rattle.intaglio_c.specs.Cited.{[], None, Some, IfOk, IfErr, slice_get, option_map, components, IsNumberIn, found, IsHash, fault, keyed_hash, utf8_fault, IsFaultless, TakesStep, contents_of, look_up, rule_of, seen, Interns, InternsStatic};

use super::AnyTable;
use crate::ahead::{LookUps, or_absent};
use crate::kind::{Rule, text_of};
use crate::refusal::{Refusal, symbol_answer};
use intaglio_bytes::bytes::BytesContent;
use intaglio_core::{BaseInterner, Sought, Symbol, Work};
use intaglio_cstr::{CStr, CStrError};
use intaglio_frozen::ahead::HashesAhead;
use intaglio_hash::KeyedState;
use intaglio_path::{Path, PathContent};

// The hash of a key that is these bytes.
fn hash_bytes(keys: &KeyedState, bytes: &[u8]) -> u64
    ensures hash { result ≡ keyed_hash keys.now (bytes.now ∷ []) }
{
    Sought::<BytesContent>::hash_with(&bytes, keys, &mut Work::new())
}

// The hash of a path.
fn hash_path(keys: &KeyedState, text: &str) -> u64
    ensures hash { result ≡ keyed_hash keys.now (components text.now) }
{
    Sought::<PathContent>::hash_with(&Path::new(text), keys, &mut Work::new())
}

// The text with bytes that were checked.
#[tactic(auto, using(crate::proofs::Faults::is_text))]
#[inline(always)]
fn text_in(bytes: &[u8]) -> &str
    requires text { utf8_fault bytes.now ≡ None }
    ensures text { result.now ≡ bytes.now }
{
    unsafe { str::from_utf8_unchecked(bytes) }
}

// All that a call from C needs is inlined into it, so that it has one frame.
impl AnyTable {
    // The bytes of a symbol's string.
    #[inline(always)]
    pub(crate) fn bytes_at(&self, symbol: Symbol) -> Option<&[u8]>
        ensures bytes { option_map (λ bytes. bytes.now) result ≡ slice_get (contents_of self.now) symbol }
    {
        match self {
            AnyTable::Owned(_, table) => table.get(symbol),
            AnyTable::Path(table) => Some(table.get(symbol)?.as_str().as_bytes()),
            AnyTable::Packed(_, table) => table.get(symbol),
        }
    }

    // What the strings are.
    pub(crate) fn rule(&self) -> Rule
        ensures { result ≡ rule_of (seen self.now).kind }
    {
        match self {
            AnyTable::Owned(rule, _) | AnyTable::Packed(rule, _) => *rule,
            AnyTable::Path(_) => Rule::Text,
        }
    }

    // Checks that the bytes are what the table takes.
    #[inline(always)]
    fn check(&self, bytes: &[u8]) -> Result<(), Refusal>
        ensures faultless { IfOk result (λ _. fault (seen self.now).kind bytes.now ≡ None) }
        ensures err { IfErr result (λ refusal. fault (seen self.now).kind bytes.now ≡ Some refusal) }
    {
        match self.rule() {
            Rule::Bytes => Ok(()),
            Rule::Text => text_of(bytes).and(Ok(())),
            // The only zero of a C string is its last byte.
            Rule::CStr => match CStr::from_bytes_with_nul(bytes) {
                Ok(_) => Ok(()),
                Err(CStrError::InnerZero(_)) => Err(Refusal::InnerZero),
                Err(CStrError::MissingZero) => Err(Refusal::MissingZero),
            },
        }
    }

    // The symbol of the string that is equal to these bytes, by their hash, if there is one. Only those of a
    // path are tested: a table has only strings that its kind takes, so it has none that is equal to others.
    #[inline(always)]
    pub(crate) fn find(&self, hash: u64, bytes: &[u8]) -> Option<Symbol>
        requires hash { IsHash (seen self.now).kind (seen self.now).hasher bytes.now hash }
        ensures found { IsFaultless (seen self.now) → result ≡ found (look_up (seen self.now) bytes.now) }
    {
        let work = &mut Work::new();
        match self {
            AnyTable::Owned(_, table) => table.search_hashed(hash, &bytes, work),
            AnyTable::Path(table) => match text_of(bytes) {
                Ok(text) => table.search_hashed(hash, &Path::new(text), work),
                Err(_) => None,
            },
            AnyTable::Packed(_, table) => table.search_hashed(hash, &bytes, work),
        }
    }

    // Interns these bytes by their hash. They are copied if they are new.
    #[inline(always)]
    pub(crate) fn intern(&mut self, hash: u64, bytes: &[u8]) -> Result<Symbol, Refusal>
        requires hash { IsHash (seen self.old).kind (seen self.old).hasher bytes.now hash }
        ensures step { TakesStep self.old self.new result (Interns bytes.now) }
    {
        self.check(bytes)?;
        let work = &mut Work::new();
        match self {
            AnyTable::Owned(_, table) => symbol_answer(table.intern_hashed(hash, bytes, work)),
            AnyTable::Path(table) => {
                let path = Path::new(text_in(bytes));
                symbol_answer(table.intern_hashed(hash, path, work))
            }
            AnyTable::Packed(_, table) => symbol_answer(table.intern_hashed(hash, bytes, work)),
        }
    }

    // Interns bytes that never change, without a copy unless the table is packed.
    pub(crate) fn intern_static(&mut self, bytes: &'static [u8]) -> Result<Symbol, Refusal>
        ensures step { TakesStep self.old self.new result (InternsStatic bytes.now) }
    {
        self.check(bytes)?;
        match self {
            AnyTable::Owned(_, table) => symbol_answer(table.intern(BytesContent::Borrowed(bytes))),
            AnyTable::Path(table) => {
                symbol_answer(table.intern(PathContent::Borrowed(text_in(bytes))))
            }
            AnyTable::Packed(_, table) => symbol_answer(table.get_or_intern(bytes)),
        }
    }
}

impl HashesAhead for AnyTable {
    ghost is_hash = { λ table. IsHash (seen table).kind (seen table).hasher };

    // Any number if the bytes have no key.
    #[inline(always)]
    fn hash(&self, string: &[u8]) -> u64 {
        match self {
            AnyTable::Owned(_, table) => hash_bytes(table.hasher(), string),
            AnyTable::Path(table) => match text_of(string) {
                Ok(text) => hash_path(table.hasher(), text),
                Err(_) => 0,
            },
            AnyTable::Packed(_, table) => hash_bytes(table.hasher(), string),
        }
    }

    fn count(&self) -> usize {
        self.len()
    }

    #[inline(always)]
    fn touch(&self, hash: u64) -> u8 {
        on_table!(self, table => table.touch_hashed(hash))
    }
}

impl LookUps for AnyTable {
    // A table that has a string which its kind doesn't take may find it.
    ghost is_sound = { λ table. IsFaultless (seen table) };

    ghost may_be = { λ table. IsNumberIn (seen table) };

    #[inline(always)]
    fn find_number(&self, hash: u64, bytes: &[u8]) -> u64 {
        or_absent(self.find(hash, bytes))
    }
}
