//! Lines to codes, a group of lines at a time.
ghost use Rattle.std.specs.Prelude.{◌≡◌, ◌+◌, ◌-◌, ◌^◌, ◌<◌, ◌≤◌, ◌||◌, [], ◌∷◌, ◌++◌, true, false, Ok, drop, is_some, length, map, min, take, unwrap_or, IfErr, IfOk, IfSome, None, OnErr, OnOk};
ghost use Rattle.std.proofs.Common.{refl};
ghost use Rattle.std.specs.List.{flat_map};
ghost use Rattle.intaglio_lines.specs.Lines.{lines_of};
ghost use Rattle.intaglio_lines.specs.Puts.{Puts, WritesFront};
ghost use Rattle.intaglio_frozen.specs.Merging.{missing};
ghost use Rattle.intaglio_columns.specs.Columns.{HasNoEnd, code_bytes, encoded_line, has_code};
ghost use Rattle.intaglio_columns.specs.Translation.{AllFit, GoesOn, IsFailure, ReportsAmong, ReportsPiece, StartsWith, StopsIn, WritesIn, WritesPart, last_piece};
ghost use Rattle.intaglio_columns.specs.Answers.{position_in};

use crate::codes::{MISSING, put_code};
use crate::dictionary::WholeDictionary;
use crate::translate::{FrontTranslator, TranslateError, Translator};
use intaglio_core::GROUP;
use intaglio_lines::error::StreamError;
use intaglio_lines::lines::end_of_line;
use intaglio_symbol::Symbol;
use std::alloc::Global;
use std::io;
use std::io::Write;

// Lines to codes.
#[derive(Drop)]
pub struct Encoding<'a, D> {
    pub table: &'a D,
    pub missing: bool,
}

// Lines at the front of bytes, and where the rest begins.
#[derive(Drop)]
struct FrontLines<'a> {
    lines: Vec<&'a [u8]>,
    size: usize,
}

impl<D: WholeDictionary> Translator for Encoding<'_, D> {
    ghost pieces = { lines_of };

    ghost fits = { λ encoding line. has_code (D.strings encoding.table.now) encoding.missing line };

    ghost translated = { λ encoding line. encoded_line (D.strings encoding.table.now) line };

    ghost no_pieces = { refl };

    fn first(bytes: &[u8]) -> Option<(usize, usize)> {
        first_whole_line(bytes, 0)
    }

    // Lines are looked up in groups.
    #[inline(always)]
    fn look_ahead(&self, _bytes: &[u8], _at: usize) {}

    fn put<W: Write>(&self, line: &[u8], block: &mut Vec<u8>, writer: &mut W) -> io::Result<bool> {
        self.put_found(self.table.symbol_of(line), block, writer)
    }
}

impl<D: WholeDictionary> FrontTranslator for Encoding<'_, D> {
    fn put_front<W: Write>(
        &self,
        alloc: Global,
        bytes: &[u8],
        seen: usize,
        number: u64,
        block: &mut Vec<u8>,
        writer: &mut W,
    ) -> Result<(usize, u64), TranslateError> {
        self.put_lines(alloc, bytes, seen, number, block, writer)
    }
}

impl<D: WholeDictionary> Encoding<'_, D> {
    // Writes the codes of the lines at the front of the bytes, but for a last one that may go on. Returns
    // where that begins, and how many were written with those before. Of the bytes so many were searched for
    // a line end before, and have none.
    fn put_lines<W: Write>(
        &self,
        alloc: Global,
        bytes: &[u8],
        seen: usize,
        number: u64,
        block: &mut Vec<u8>,
        writer: &mut W,
    ) -> Result<(usize, u64), TranslateError>
        requires within { seen ≤ length bytes.now }
        requires seen { HasNoEnd (take seen bytes.now) }
        ensures ok { let On = GoesOn lines_of (has_code (D.strings self.now.table.now) self.now.missing)
            (encoded_line (D.strings self.now.table.now)) in
            IfOk result (λ end. On (W.contents writer.old) block.old.items bytes.now number
            (W.contents writer.new) block.new.items (drop end.0 bytes.now) end.1) }
        ensures within { IfOk result (λ end. end.0 ≤ length bytes.now) }
        ensures last { IfOk result (λ end. lines_of (drop end.0 bytes.now)
            ≡ last_piece (drop end.0 bytes.now)) }
        ensures misfit { let Stops = StopsIn lines_of
            (has_code (D.strings self.now.table.now) self.now.missing)
            (encoded_line (D.strings self.now.table.now)) in
            IfErr result (Stops (W.contents writer.old) block.old.items bytes.now number) }
        ensures part { let Part = WritesIn lines_of (has_code (D.strings self.now.table.now) self.now.missing)
            (encoded_line (D.strings self.now.table.now)) in
            OnErr result
            (Part (W.contents writer.old) block.old.items bytes.now number (W.contents writer.new)) }
    {
        let mut at = 0;
        let mut count = number;
        let mut skip = seen;
        while at < bytes.len() {
            let group = first_lines(alloc, &bytes[at..], skip)?;
            if group.lines.is_empty() {
                return Ok((at, count));
            }
            count = self.put_group(alloc, &group.lines, count, block, writer)?;
            at += group.size;
            skip = 0;
        }
        Ok((at, count))
    }

    // Writes the codes of lines, before which there are so many, and returns how many there are with them.
    fn put_group<W: Write>(
        &self,
        alloc: Global,
        lines: &[&[u8]],
        number: u64,
        block: &mut Vec<u8>,
        writer: &mut W,
    ) -> Result<u64, TranslateError>
        ensures fit { let has_code = has_code (D.strings self.now.table.now) self.now.missing in
            OnOk result (AllFit has_code (map (λ line. line.now) lines.now)) }
        ensures put { let codes = flat_map (encoded_line (D.strings self.now.table.now))
            (map (λ line. line.now) lines.now) in
            OnOk result (Puts W.contents writer.old block.old writer.new block.new codes) }
        ensures count { IfOk result (λ count. count ≡ min (number + length lines.now) (2 ^ 64 - 1)) }
        ensures misfit { let has_code = has_code (D.strings self.now.table.now) self.now.missing in
            IfErr result (λ e. ReportsAmong has_code e (map (λ line. line.now) lines.now) number) }
        ensures front { let codes = flat_map (encoded_line (D.strings self.now.table.now))
            (map (λ line. line.now) lines.now) in
            OnOk result (WritesFront W.contents writer.old writer.new (block.old.items ++ codes)) }
        ensures part { let lines = map (λ line. line.now) lines.now in
            let Part = WritesPart (has_code (D.strings self.now.table.now) self.now.missing)
            (encoded_line (D.strings self.now.table.now)) in
            OnErr result (Part (W.contents writer.old) block.old.items (W.contents writer.new) lines) }
    {
        let Ok(found) = self.table.symbols_of(alloc, lines) else {
            return Err(TranslateError::Stream(StreamError::Memory));
        };
        self.put_each(lines, &found, number, block, writer)
    }

    // The same, by their symbols.
    fn put_each<W: Write>(
        &self,
        lines: &[&[u8]],
        found: &[Option<Symbol>],
        number: u64,
        block: &mut Vec<u8>,
        writer: &mut W,
    ) -> Result<u64, TranslateError>
        requires { found.now ≡ map (λ line. position_in (D.strings self.now.table.now) line.now) lines.now }
        ensures fit { let has_code = has_code (D.strings self.now.table.now) self.now.missing in
            OnOk result (AllFit has_code (map (λ line. line.now) lines.now)) }
        ensures put { let codes = flat_map (encoded_line (D.strings self.now.table.now))
            (map (λ line. line.now) lines.now) in
            OnOk result (Puts W.contents writer.old block.old writer.new block.new codes) }
        ensures count { IfOk result (λ count. count ≡ min (number + length lines.now) (2 ^ 64 - 1)) }
        ensures misfit { let has_code = has_code (D.strings self.now.table.now) self.now.missing in
            IfErr result (λ e. ReportsAmong has_code e (map (λ line. line.now) lines.now) number) }
        ensures front { let codes = flat_map (encoded_line (D.strings self.now.table.now))
            (map (λ line. line.now) lines.now) in
            OnOk result (WritesFront W.contents writer.old writer.new (block.old.items ++ codes)) }
        ensures part { let lines = map (λ line. line.now) lines.now in
            let Part = WritesPart (has_code (D.strings self.now.table.now) self.now.missing)
            (encoded_line (D.strings self.now.table.now)) in
            OnErr result (Part (W.contents writer.old) block.old.items (W.contents writer.new) lines) }
    {
        for i in 0..lines.len() {
            self.put_next(
                lines[i],
                found[i],
                number.saturating_add(i as u64),
                block,
                writer,
            )?;
        }
        Ok(number.saturating_add(lines.len() as u64))
    }

    // Writes the code of a line, before which there are so many, by its symbol.
    #[inline(always)]
    fn put_next<W: Write>(
        &self,
        line: &[u8],
        found: Option<Symbol>,
        number: u64,
        block: &mut Vec<u8>,
        writer: &mut W,
    ) -> Result<(), TranslateError>
        requires { found ≡ position_in (D.strings self.now.table.now) line.now }
        ensures fits { OnOk result
            (has_code (D.strings self.now.table.now) self.now.missing line.now ≡ true) }
        ensures put { let code = encoded_line (D.strings self.now.table.now) line.now in
            OnOk result (Puts W.contents writer.old block.old writer.new block.new code) }
        ensures misfit { let has_code = has_code (D.strings self.now.table.now) self.now.missing in
            IfErr result (λ e. ReportsPiece has_code e line.now number) }
        ensures front { has_code (D.strings self.now.table.now) self.now.missing line.now ≡ true →
            WritesFront W.contents
            writer.old writer.new (block.old.items ++ encoded_line (D.strings self.now.table.now) line.now) }
        ensures unfit { has_code (D.strings self.now.table.now) self.now.missing line.now ≡ false →
            writer.new ≡ writer.old }
    {
        match self.put_found(found, block, writer) {
            Ok(true) => Ok(()),
            Ok(false) => Err(TranslateError::Misfit(number, line.len())),
            Err(_) => Err(TranslateError::Stream(StreamError::Write)),
        }
    }

    // Writes the code of a line, by its symbol, and returns whether it has one.
    #[inline(always)]
    fn put_found<W: Write>(
        &self,
        found: Option<Symbol>,
        block: &mut Vec<u8>,
        writer: &mut W,
    ) -> io::Result<bool>
        ensures fits { IfOk result (λ fit. fit ≡ (self.now.missing || is_some found)) }
        ensures put { result ≡ Ok true →
            Puts W.contents writer.old block.old writer.new block.new (code_bytes (unwrap_or found missing)) }
        ensures front { let code = code_bytes (unwrap_or found missing) in
            (self.now.missing || is_some found) ≡ true →
            WritesFront W.contents writer.old writer.new (block.old.items ++ code) }
        ensures unfit { (self.now.missing || is_some found) ≡ false → writer.new ≡ writer.old }
    {
        let code = match found {
            Some(symbol) => symbol.id(),
            None => {
                if !self.missing {
                    return Ok(false);
                }
                MISSING
            }
        };
        put_code(code, block, writer)?;
        Ok(true)
    }
}

// The lines at the front of the bytes: a group of them, or all that are whole if they are fewer. So many
// bytes at the front have no line end.
fn first_lines<'a>(
    alloc: Global,
    bytes: &'a [u8],
    seen: usize,
) -> Result<FrontLines<'a>, TranslateError>
    requires within { seen ≤ length bytes.now }
    requires seen { HasNoEnd (take seen bytes.now) }
    ensures whole { IfOk result (λ group.
        StartsWith lines_of bytes.now (map (λ line. line.now) group.lines.items)
        (drop group.size bytes.now)) }
    ensures within { IfOk result (λ group. group.size ≤ length bytes.now) }
    ensures some { IfOk result (λ group. length group.lines.items ≤ group.size) }
    ensures none { IfOk result (λ group.
        group.lines.items ≡ [] → lines_of bytes.now ≡ last_piece bytes.now) }
    ensures err { IfErr result IsFailure }
{
    let mut lines = Vec::with_capacity(alloc, GROUP)?;
    let mut size = 0;
    let mut skip = seen;
    while lines.len() < GROUP {
        let Some((end, next)) = first_whole_line(&bytes[size..], skip) else {
            return Ok(FrontLines { lines, size });
        };
        lines.push_reserved(&bytes[size..][..end]);
        size += next;
        skip = 0;
    }
    Ok(FrontLines { lines, size })
}

// Where the first line of the bytes ends, and where the next begins. So many
// bytes at the front have no line end.
fn first_whole_line(bytes: &[u8], seen: usize) -> Option<(usize, usize)>
    requires within { seen ≤ length bytes.now }
    requires seen { HasNoEnd (take seen bytes.now) }
    ensures whole { IfSome result (λ cut.
        StartsWith lines_of bytes.now (take cut.0 bytes.now ∷ []) (drop cut.1 bytes.now)) }
    ensures order { IfSome result (λ cut. cut.0 ≤ cut.1) }
    ensures some { IfSome result (λ cut. 0 < cut.1) }
    ensures within { IfSome result (λ cut. cut.1 ≤ length bytes.now) }
    ensures none { result ≡ None → lines_of bytes.now ≡ last_piece bytes.now }
{
    match end_of_line(&bytes[seen..]) {
        Some(end) => Some((seen + end, seen + end + 1)),
        None => None,
    }
}
