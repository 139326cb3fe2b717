//! Plain codes.
ghost use Rattle.std.specs.Prelude.{◌≡◌, ◌==◌, ◌%◌, ◌<◌, ◌≤◌, [], ◌∷◌, ◌++◌, drop, is_some, length, slice_get, take, IfSome, None, OnOk, Some};
ghost use Rattle.intaglio_lines.specs.Puts.{Puts, WritesFront};
ghost use Rattle.intaglio_columns.specs.Columns.{code_bytes, code_of, code_pieces, codes_of};
ghost use Rattle.intaglio_columns.specs.Translation.{StartsWith, last_piece};

use crate::CodeList;
pub use crate::MISSING;
use intaglio_lines::write::put;
use std::io;
use std::io::Write;
use std::marker::Model;

/// How many bytes a code has.
pub const CODE: usize = 4;

/// Plain codes, in bytes. A contract sees the codes.
#[derive(Drop)]
pub struct PlainCodes<'a> {
    bytes: &'a [u8],
}

impl<'a> Model for PlainCodes<'a> {
    ghost use Rattle.std.specs.Prelude.{◌≡◌, ◌*◌, ℕ, List, length};
    ghost use Rattle.intaglio_columns.specs.Columns.{codes_of};

    ghost Value = { List ℕ };

    ghost view = { λ m. codes_of m.bytes.now };

    ghost invariant = { λ m. length m.bytes.now ≡ 4 * length (codes_of m.bytes.now) };
}

impl<'a> PlainCodes<'a> {
    /// The codes in these bytes, if their number is a multiple of 4.
    pub fn of(bytes: &'a [u8]) -> Option<PlainCodes<'a>>
        ensures codes { IfSome result (λ m. m ≡ codes_of bytes.now) }
        ensures whole { is_some result ≡ (length bytes.now % 4 == 0) }
    {
        if bytes.len() % CODE != 0 {
            return None;
        }
        Some(PlainCodes { bytes })
    }

    /// How many there are.
    pub fn len(&self) -> usize
        ensures { result ≡ length self.now }
    {
        self.bytes.len() / CODE
    }

    /// The code at a position.
    #[inline]
    pub fn get(&self, code: u32) -> Option<u32>
        ensures { result ≡ slice_get self.now code }
    {
        if code as usize >= self.len() {
            return None;
        }
        Some(self.read(code as usize))
    }

    // The code at a position that is there.
    #[inline(always)]
    fn read(&self, i: usize) -> u32
        requires { i < length self.now }
        ensures { slice_get self.now i ≡ Some result }
    {
        let bytes = self.bytes;
        let at = CODE * i;
        u32::from_le_bytes([bytes[at], bytes[at + 1], bytes[at + 2], bytes[at + 3]])
    }
}

impl CodeList for PlainCodes<'_> {
    ghost codes = { λ map. map };

    #[inline(always)]
    fn len(&self) -> usize {
        PlainCodes::len(self)
    }

    #[inline(always)]
    fn code(&self, i: usize) -> u32 {
        self.read(i)
    }
}

// Writes a code.
pub(crate) fn put_code<W: Write>(code: u32, block: &mut Vec<u8>, writer: &mut W) -> io::Result<()>
    ensures put { OnOk result (Puts W.contents writer.old block.old writer.new block.new (code_bytes code)) }
    ensures front { WritesFront W.contents writer.old writer.new (block.old.items ++ code_bytes code) }
{
    put(&code.to_le_bytes(), block, writer)
}

// The code of bytes, if they are four.
#[inline]
pub(crate) fn code_of(bytes: &[u8]) -> Option<u32>
    ensures value { IfSome result (λ code. code ≡ code_of bytes.now) }
    ensures four { is_some result ≡ (length bytes.now == 4) }
{
    if bytes.len() != CODE {
        return None;
    }
    Some(u32::from_le_bytes([bytes[0], bytes[1], bytes[2], bytes[3]]))
}

// Where the first code of the bytes ends.
pub(crate) fn first_code(bytes: &[u8]) -> Option<(usize, usize)>
    ensures whole { IfSome result (λ cut.
        StartsWith code_pieces bytes.now (take cut.0 bytes.now ∷ []) (drop cut.1 bytes.now)) }
    ensures order { IfSome result (λ cut. cut.0 ≤ cut.1) }
    ensures some { IfSome result (λ cut. 0 < cut.1) }
    ensures within { IfSome result (λ cut. cut.1 ≤ length bytes.now) }
    ensures none { result ≡ None → code_pieces bytes.now ≡ last_piece bytes.now }
{
    if bytes.len() < CODE {
        return None;
    }
    Some((CODE, CODE))
}
