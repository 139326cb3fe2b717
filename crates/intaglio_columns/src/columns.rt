//! Plain codes: encodes lines, and decodes codes.
ghost use Rattle.std.specs.Prelude.{◌≡◌, ◌==◌, ◌&&◌, ◌||◌, ℕ, List, Bool, [], false, is_some, option_map, slice_get, unwrap_or, IfErr, IfOk, IfSome, OnErr, OnOk};
ghost use Rattle.std.proofs.Common.{refl};
ghost use Rattle.std.specs.Io.KnownBytes.{IsAtEnd};
ghost use Rattle.intaglio_lines.specs.Lines.{lines_of};
ghost use Rattle.intaglio_lines.specs.Puts.{Writes};
ghost use Rattle.intaglio_frozen.specs.Merging.{missing};
ghost use Rattle.intaglio_columns.specs.Columns.{DecodesToInput, ReportsCode, ReportsLine, code_pieces, decoded_column, encoded_column, encoded_line, has_code, has_string, line_of};
ghost use Rattle.intaglio_columns.specs.Translation.{AllFit, ReportsMisfit, WritesPart, count_of};

use crate::codes::{CODE, MISSING, code_of, first_code};
use crate::dictionary::WholeDictionary;
use crate::encoding::Encoding;
use crate::error::CodesError;
use crate::translate::{FrontTranslator, TranslateError, Translator, translate, translate_pieces};
use intaglio_core::GROUP;
use intaglio_lines::write::put_line;
use intaglio_symbol::Symbol;
use std::alloc::Global;
use std::io;
use std::io::{Read, Write};

// Codes to lines.
#[derive(Drop)]
pub struct Decoding<'a, D> {
    table: &'a D,
    text: Option<&'a [u8]>,
}

impl<D: WholeDictionary> Translator for Decoding<'_, D> {
    ghost pieces = { code_pieces };

    ghost fits = { λ decoding piece.
        has_string (D.strings decoding.table.now) (option_map (λ t. t.now) decoding.text) piece };

    ghost translated = { λ decoding piece.
        line_of (D.strings decoding.table.now) (option_map (λ t. t.now) decoding.text) piece };

    ghost no_pieces = { refl };

    fn first(bytes: &[u8]) -> Option<(usize, usize)> {
        first_code(bytes)
    }

    #[inline(always)]
    fn look_ahead(&self, bytes: &[u8], at: usize) {
        if at % (CODE * GROUP) == 0 {
            self.touch_each(bytes, &mut [0; GROUP]);
        }
    }

    fn put<W: Write>(&self, piece: &[u8], block: &mut Vec<u8>, writer: &mut W) -> io::Result<bool> {
        let Some(code) = code_of(piece) else {
            return Ok(false);
        };
        let Some(string) = self.string_of(code) else {
            return Ok(false);
        };
        put_line(string, block, writer)?;
        Ok(true)
    }
}

impl<D: WholeDictionary> FrontTranslator for Decoding<'_, D> {
    fn put_front<W: Write>(
        &self,
        _alloc: Global,
        bytes: &[u8],
        _seen: usize,
        number: u64,
        block: &mut Vec<u8>,
        writer: &mut W,
    ) -> Result<(usize, u64), TranslateError> {
        translate_pieces(self, bytes, number, block, writer)
    }
}

impl<'a, D: WholeDictionary> Decoding<'a, D> {
    // Reads the first byte of the string of each of the first codes. The bytes that are read are written, and
    // the call isn't inlined, so that the compiler can't leave out the reads.
    #[inline(never)]
    fn touch_each(&self, codes: &[u8], touched: &mut [u8]) {
        for i in 0..touched.len().min(codes.len() / CODE) {
            touched[i] = self.touch(&codes[CODE * i..][..CODE]);
        }
    }

    // The first byte of the string of a code.
    #[inline(always)]
    fn touch(&self, piece: &[u8]) -> u8 {
        match code_of(piece) {
            Some(code) => match self.table.string_of(Symbol::new(code)) {
                Some([first, ..]) => *first,
                _ => 0,
            },
            None => 0,
        }
    }

    // The string of a code, or the text of the missing code.
    fn string_of(&self, code: u32) -> Option<&'a [u8]>
        ensures found { let text = option_map (λ t. t.now) self.now.text in
            let strings = D.strings self.now.table.now in
            is_some result ≡ (is_some (slice_get strings code) || (is_some text && (code == missing))) }
        ensures string { let text = option_map (λ t. t.now) self.now.text in
            let strings = D.strings self.now.table.now in
            IfSome result (λ s. s.now ≡ unwrap_or (slice_get strings code) (unwrap_or text [])) }
    {
        match self.table.string_of(Symbol::new(code)) {
            Some(string) => Some(string),
            None => { if code == MISSING { self.text } else { None } }
        }
    }
}

/// Writes the code of each line of an input, the symbol of its string, and returns how many lines
/// there are, or `u64::MAX` if there are more. If `missing` is true, the code of a line that
/// isn't in the table is [`MISSING`].
///
/// The input is read in blocks of 64 KiB, and only a line that isn't read to its end is kept. Lines are
/// looked up in groups of 64, so that the cache misses of their look-ups overlap; for each group a list of
/// its lines and one of their symbols are allocated.
///
/// # Errors
///
/// `NoSymbol` for the first line that isn't in the table, unless `missing` is true; `Memory`, `Read` or
/// `Write`. What was written then is the front of the codes of the lines before that one.
pub fn encode_column<D: WholeDictionary, R: Read, W: Write>(
    alloc: Global,
    table: &D,
    missing: bool,
    reader: &mut R,
    writer: &mut W,
) -> Result<u64, CodesError>
    ensures written { OnOk result (IfSome (R.remaining reader.old)
        (λ input. Writes W.contents writer.old writer.new (encoded_column (D.strings table.now) input))) }
    ensures known { OnOk result (IfSome (R.remaining reader.old)
        (λ input. AllFit (has_code (D.strings table.now) missing) (lines_of input))) }
    ensures count { IfOk result (λ count. IfSome (R.remaining reader.old)
        (λ input. count ≡ count_of (lines_of input))) }
    ensures all_read { OnOk result (IsAtEnd (R.remaining reader.new)) }
    ensures unknown { IfErr result (λ e. IfSome (R.remaining reader.old)
        (λ input. ReportsLine (has_code (D.strings table.now) missing) e (lines_of input))) }
    ensures part { let Part = WritesPart (has_code (D.strings table.now) missing)
        (encoded_line (D.strings table.now)) in
        OnErr result (IfSome (R.remaining reader.old)
        (λ input. Part (W.contents writer.old) [] (W.contents writer.new) (lines_of input))) }

    // What is written is decoded to the input, its last line ended.
    ensures decodes { missing ≡ false → OnOk result (IfSome (R.remaining reader.old)
        (λ input. DecodesToInput (D.strings table.now) input)) }
{
    // The number of strings is at most 2^32.
    let _count = table.len();
    match translate(alloc, &Encoding { table, missing }, reader, writer) {
        Ok(count) => Ok(count),
        Err(stopped) => Err(line_error(stopped)),
    }
}

/// Writes the string of each code of an input, each on a line, and returns how many codes there are, or
/// `u64::MAX` if there are more. If `missing` is a text, it is what [`MISSING`] stands for.
///
/// The input is read in blocks of 64 KiB.
///
/// # Errors
///
/// `NoString` for the first code that no string has, `ShortCode` if the input ends within a code; `Memory`,
/// `Read` or `Write`. What was written then is the front of the lines of the codes before that one.
///
/// ```
/// # use intaglio::SymbolTable;
/// # use intaglio_columns::columns::decode_column;
/// # use intaglio_frozen::{Frozen, FrozenKind, freeze};
/// # let mut table = SymbolTable::new(rt.alloc())?;
/// # let _rose = table.get_or_intern("rose")?;
/// # let _thorn = table.get_or_intern("thorn")?;
/// let bytes = freeze(rt.alloc(), &table, FrozenKind::Text, 0, 0)?;
/// let dictionary = Frozen::open(&bytes)?;
/// let codes = [1, 0, 0, 0, 0xff, 0xff, 0xff, 0xff, 0, 0, 0, 0];
/// let mut lines = Vec::new(rt.alloc());
/// let count = decode_column(rt.alloc(), &dictionary, Some(b"?"), &mut codes.as_slice(), &mut lines)?;
/// assert!(rt; count == 3);
/// assert!(rt; lines.as_slice() == b"thorn\n?\nrose\n".as_slice());
/// ```
pub fn decode_column<D: WholeDictionary, R: Read, W: Write>(
    alloc: Global,
    table: &D,
    missing: Option<&[u8]>,
    reader: &mut R,
    writer: &mut W,
) -> Result<u64, CodesError>
    ensures written { let text = option_map (λ t. t.now) missing.entry in
        OnOk result (IfSome (R.remaining reader.old)
        (λ input.
        Writes W.contents writer.old writer.new (decoded_column (D.strings table.now) text input))) }
    ensures known { let text = option_map (λ t. t.now) missing.entry in
        OnOk result (IfSome (R.remaining reader.old)
        (λ input. AllFit (has_string (D.strings table.now) text) (code_pieces input))) }
    ensures count { IfOk result (λ count. IfSome (R.remaining reader.old)
        (λ input. count ≡ count_of (code_pieces input))) }
    ensures all_read { OnOk result (IsAtEnd (R.remaining reader.new)) }
    ensures unknown { let text = option_map (λ t. t.now) missing.entry in
        IfErr result (λ e. IfSome (R.remaining reader.old)
        (λ input. ReportsCode (has_string (D.strings table.now) text) e (code_pieces input))) }
    ensures part { let text = option_map (λ t. t.now) missing.entry in
        let Part = WritesPart (has_string (D.strings table.now) text) (line_of (D.strings table.now) text) in
        OnErr result (IfSome (R.remaining reader.old)
        (λ input. Part (W.contents writer.old) [] (W.contents writer.new) (code_pieces input))) }
{
    let decoding = Decoding {
        table,
        text: missing,
    };
    match translate(alloc, &decoding, reader, writer) {
        Ok(count) => Ok(count),
        Err(stopped) => Err(code_error(stopped)),
    }
}

// Why lines weren't translated.
fn line_error(stopped: TranslateError) -> CodesError
    ensures { (fits : List ℕ → Bool) (lines : List (List ℕ)) →
        ReportsMisfit fits stopped lines → ReportsLine fits result lines }
{
    match stopped {
        TranslateError::Misfit(position, _) => CodesError::NoSymbol(position.saturating_add(1)),
        TranslateError::Stream(failure) => CodesError::Stream(failure),
    }
}

// Why codes weren't translated.
fn code_error(stopped: TranslateError) -> CodesError
    ensures { (fits : List ℕ → Bool) (codes : List (List ℕ)) →
        ReportsMisfit fits stopped codes → ReportsCode fits result codes }
{
    match stopped {
        TranslateError::Misfit(position, size) => {
            let number = position.saturating_add(1);
            if size < CODE {
                CodesError::ShortCode(number)
            } else {
                CodesError::NoString(number)
            }
        }
        TranslateError::Stream(failure) => CodesError::Stream(failure),
    }
}
