//! The kinds of tables, and what each wants of the bytes that come in.
ghost use Rattle.std.specs.Prelude.{◌≡◌};
ghost use Rattle.intaglio_c.specs.Cited.{IfOk, IfErr, None, Some, kind_of, utf8_fault};

use crate::refusal::Refusal;

/// What the strings of a table are.
#[derive(Clone, Copy)]
pub enum Rule {
    /// Any bytes.
    Bytes,
    /// UTF-8 texts.
    Text,
    /// C strings: bytes whose only zero is the last one.
    CStr,
}

/// A kind of table.
#[derive(Clone, Copy)]
pub enum TableKind {
    /// Each string is in a place of its own.
    Owned(Rule),
    /// Texts, equal if their components as paths are.
    Path,
    /// All strings are in one buffer.
    Packed(Rule),
}

impl TableKind {
    // The kind with this number in C, which has two numbers for texts and two for bytes.
    pub(crate) fn of(number: u32) -> Option<TableKind>
        ensures kind { result ≡ kind_of number }
    {
        match number {
            0 | 4 => Some(TableKind::Owned(Rule::Text)),
            1 | 5 => Some(TableKind::Owned(Rule::Bytes)),
            2 => Some(TableKind::Owned(Rule::CStr)),
            3 => Some(TableKind::Path),
            6 => Some(TableKind::Packed(Rule::Text)),
            7 => Some(TableKind::Packed(Rule::Bytes)),
            _ => None,
        }
    }
}

// The text with these bytes.
#[tactic(auto, using(crate::proofs::Faults::texts))]
#[inline(always)]
pub(crate) fn text_of(bytes: &[u8]) -> Result<&str, Refusal>
    ensures ok { IfOk result (λ text. text.now ≡ bytes.now) }
    ensures faultless { IfOk result (λ _. utf8_fault bytes.now ≡ None) }
    ensures err { IfErr result (λ refusal. utf8_fault bytes.now ≡ Some refusal) }
{
    match str::from_utf8(bytes) {
        Ok(text) => Ok(text),
        Err(_) => Err(Refusal::NotUtf8),
    }
}
