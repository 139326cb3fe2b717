//! Translates an input piece by piece, in blocks.
ghost use Rattle.std.specs.Prelude.{◌≡◌, ◌+◌, ◌-◌, ◌^◌, ◌<◌, ◌≤◌, [], ◌∷◌, ◌++◌, ℕ, List, Bool, false, true, Ok, Option, None, drop, length, min, take, IfErr, IfOk, IfSome, OnErr, OnOk};
ghost use Rattle.std.specs.List.{flat_map};
ghost use Rattle.std.specs.Io.KnownBytes.{IsAtEnd};
ghost use Rattle.intaglio_lines.specs.Puts.{Puts, Writes, WritesFront};
ghost use Rattle.intaglio_lines.specs.declared.error.StreamError.TheVariants.{Memory};
ghost use Rattle.intaglio_columns.specs.Translation.{AllFit, GoesOn, HasTranslated, IsFailure, ReadsMore, ReportsMisfit, ReportsPiece, StartsWith, StopsIn, WritesIn, WritesPart, count_of, last_piece};
ghost use Rattle.intaglio_columns.specs.declared.translate.TranslateError.TheVariants.{Stream};

use intaglio_lines::error::StreamError;
use intaglio_lines::write::write_bytes;
use std::alloc::{AllocError, Global};
use std::io;
use std::io::{ErrorKind, Read, Write};

// How many bytes a read may return, and how many are buffered before they are written.
const BLOCK: usize = 64 * 1024;

/// Why an input wasn't translated.
#[derive(Clone, Copy, Debug, PartialEq, Eq)]
pub enum TranslateError {
    /// The piece at this position, counted from 0, which has this many bytes, can't be translated.
    Misfit(u64, usize),
    /// An allocation, a read or a write failed.
    Stream(StreamError),
}

impl From<AllocError> for TranslateError {
    ghost from_gives = { λ _ error. error ≡ Stream Memory };

    fn from(_error: AllocError) -> TranslateError {
        TranslateError::Stream(StreamError::Memory)
    }
}

/// How the pieces of an input, such as lines or codes, are translated.
pub trait Translator {
    ghost pieces: { List ℕ → List (List ℕ) };

    // whether a piece can be translated, and what it is translated to
    ghost fits: { Self → List ℕ → Bool };

    ghost translated: { Self → List ℕ → List ℕ };

    ghost no_pieces: { pieces [] ≡ [] };

    /// Where the first piece of the bytes ends, whatever may follow them, and where the rest begins. If there
    /// is none, the bytes are a part of a piece, or the last piece of an input.
    fn first(bytes: &[u8]) -> Option<(usize, usize)>
        ensures whole { IfSome result (λ cut.
            StartsWith pieces bytes.now (take cut.0 bytes.now ∷ []) (drop cut.1 bytes.now)) }
        ensures order { IfSome result (λ cut. cut.0 ≤ cut.1) }
        ensures some { IfSome result (λ cut. 0 < cut.1) }
        ensures within { IfSome result (λ cut. cut.1 ≤ length bytes.now) }
        ensures none { result ≡ None → pieces bytes.now ≡ last_piece bytes.now };

    /// Reads what the translation of pieces that come soon will read, so that their cache misses overlap:
    /// these are the bytes from `at` on. Called before each piece is translated.
    fn look_ahead(&self, bytes: &[u8], at: usize);

    /// Writes what a piece is translated to, and returns whether it can be translated. If
    /// it can't be, nothing is written.
    fn put<W: Write>(&self, piece: &[u8], block: &mut Vec<u8>, writer: &mut W) -> io::Result<bool>
        ensures fits { IfOk result (λ fit. fit ≡ fits self.now piece.now) }
        ensures put { result ≡ Ok true →
            Puts W.contents writer.old block.old writer.new block.new (translated self.now piece.now) }
        ensures front { fits self.now piece.now ≡ true →
            WritesFront W.contents writer.old writer.new (block.old.items ++ translated self.now piece.now) }
        ensures unfit { fits self.now piece.now ≡ false → writer.new ≡ writer.old };
}

/// How the pieces at the front of bytes are translated: one by one, as by [`translate_pieces`], or in groups.
pub trait FrontTranslator: Translator {
    /// Writes what the pieces at the front of the bytes are translated to, but for a last one that may go on.
    /// Returns where that begins, and how many were translated with those before. No piece ends within the
    /// first `seen` bytes, so they needn't be searched again.
    ///
    /// # Errors
    ///
    /// Those of [`translate`].
    fn put_front<W: Write>(
        &self,
        alloc: Global,
        bytes: &[u8],
        seen: usize,
        number: u64,
        block: &mut Vec<u8>,
        writer: &mut W,
    ) -> Result<(usize, u64), TranslateError>
        requires within { seen ≤ length bytes.now }
        requires seen { Self.pieces (take seen bytes.now) ≡ last_piece (take seen bytes.now) }
        ensures ok { let On = GoesOn Self.pieces (Self.fits self.now) (Self.translated self.now) in
            IfOk result (λ end. On (W.contents writer.old) block.old.items bytes.now number
            (W.contents writer.new) block.new.items (drop end.0 bytes.now) end.1) }
        ensures within { IfOk result (λ end. end.0 ≤ length bytes.now) }
        ensures last { IfOk result
            (λ end. Self.pieces (drop end.0 bytes.now) ≡ last_piece (drop end.0 bytes.now)) }
        ensures misfit { let Stops = StopsIn Self.pieces (Self.fits self.now) (Self.translated self.now) in
            IfErr result (Stops (W.contents writer.old) block.old.items bytes.now number) }
        ensures part { let Part = WritesIn Self.pieces (Self.fits self.now) (Self.translated self.now) in
            OnErr result
            (Part (W.contents writer.old) block.old.items bytes.now number (W.contents writer.new)) };
}

/// Reads an input to its end, writes what its pieces are translated to, and returns how many there are, or
/// `u64::MAX` if there are more.
///
/// The input is read in blocks of 64 KiB, and what is written is buffered in one; a part of a piece is kept
/// until the piece is whole. The bytes of a piece are searched for its end once.
///
/// # Errors
///
/// `Misfit` for the first piece that can't be translated, `Memory`, `Read` or `Write`. What was written then
/// is the front of what the pieces before that one are translated to.
pub fn translate<T: FrontTranslator, R: Read, W: Write>(
    alloc: Global,
    translator: &T,
    reader: &mut R,
    writer: &mut W,
) -> Result<u64, TranslateError>
    ensures written { let translated = flat_map (T.translated translator.now) in
        OnOk result (IfSome (R.remaining reader.old)
        (λ input. Writes W.contents writer.old writer.new (translated (T.pieces input)))) }
    ensures fit { OnOk result (IfSome (R.remaining reader.old)
        (λ input. AllFit (T.fits translator.now) (T.pieces input))) }
    ensures count { IfOk result (λ count. IfSome (R.remaining reader.old)
        (λ input. count ≡ count_of (T.pieces input))) }
    ensures all_read { OnOk result (IsAtEnd (R.remaining reader.new)) }
    ensures misfit { IfErr result (λ e. IfSome (R.remaining reader.old)
        (λ input. ReportsMisfit (T.fits translator.now) e (T.pieces input))) }
    ensures part { let Part = WritesPart (T.fits translator.now) (T.translated translator.now) in
        OnErr result (IfSome (R.remaining reader.old)
        (λ input. Part (W.contents writer.old) [] (W.contents writer.new) (T.pieces input))) }
{
    let mut block = Vec::with_capacity(alloc, BLOCK)?;
    let (last, count) = translate_whole(alloc, translator, reader, &mut block, writer)?;
    let count = translate_last(translator, &last, count, &mut block, writer)?;
    match write_out(&block, writer) {
        Ok(()) => Ok(count),
        Err(_) => Err(TranslateError::Stream(StreamError::Write)),
    }
}

// Reads an input to its end, translates its pieces but for a last one that may go on, and returns
// that and how many were translated.
fn translate_whole<T: FrontTranslator, R: Read, W: Write>(
    alloc: Global,
    translator: &T,
    reader: &mut R,
    block: &mut Vec<u8>,
    writer: &mut W,
) -> Result<(Vec<u8>, u64), TranslateError>
    requires { block.old.items ≡ [] }
    ensures ok { IfOk result
        (λ end. HasTranslated T.pieces (T.fits translator.now) (T.translated translator.now)
        (R.remaining reader.old) (W.contents writer.old) (W.contents writer.new) block.new.items
        end.0.items (R.remaining reader.new) end.1) }
    ensures last { IfOk result (λ end. T.pieces end.0.items ≡ last_piece end.0.items) }
    ensures all_read { OnOk result (IsAtEnd (R.remaining reader.new)) }
    ensures misfit { IfErr result (λ e. IfSome (R.remaining reader.old)
        (λ input. ReportsMisfit (T.fits translator.now) e (T.pieces input))) }
    ensures part { let Part = WritesPart (T.fits translator.now) (T.translated translator.now) in
        OnErr result (IfSome (R.remaining reader.old)
        (λ input. Part (W.contents writer.old) [] (W.contents writer.new) (T.pieces input))) }
{
    let mut bytes = Vec::new(alloc);
    let mut count = 0;
    for _ in 0..u64::MAX {
        let seen = bytes.len();
        let more = read_more(reader, &mut bytes)?;
        if !more {
            return Ok((bytes, count));
        }
        count = translate_front(alloc, translator, &mut bytes, seen, count, block, writer)?;
    }
    Err(TranslateError::Stream(StreamError::Read))
}

// Reads some bytes more, which are appended, and returns whether there may be others.
// An interrupted read gives none.
pub(crate) fn read_more<R: Read>(
    reader: &mut R,
    bytes: &mut Vec<u8>,
) -> Result<bool, TranslateError>
    ensures read { OnOk result
        (ReadsMore (R.remaining reader.old) (R.remaining reader.new) bytes.old.items bytes.new.items) }
    ensures same { IfOk result (λ more. more ≡ false → bytes.new.items ≡ bytes.old.items) }
    ensures end { IfOk result (λ more. more ≡ false → IsAtEnd (R.remaining reader.new)) }
    ensures err { IfErr result IsFailure }
{
    let mut block = [0u8; BLOCK];
    bytes.reserve(BLOCK)?;
    match reader.read(&mut block) {
        Ok(0) => Ok(false),
        Ok(n) => {
            bytes.extend_from_slice(&block[..n]).unwrap();
            Ok(true)
        }
        Err(e) => {
            if e.kind() == ErrorKind::Interrupted {
                Ok(true)
            } else {
                Err(TranslateError::Stream(StreamError::Read))
            }
        }
    }
}

// Translates the pieces at the front of the bytes, which are removed, and returns how many were
// translated with those before them.
fn translate_front<T: FrontTranslator, W: Write>(
    alloc: Global,
    translator: &T,
    bytes: &mut Vec<u8>,
    seen: usize,
    number: u64,
    block: &mut Vec<u8>,
    writer: &mut W,
) -> Result<u64, TranslateError>
    requires within { seen ≤ length bytes.old.items }
    requires seen { T.pieces (take seen bytes.old.items) ≡ last_piece (take seen bytes.old.items) }
    ensures ok { let On = GoesOn T.pieces (T.fits translator.now) (T.translated translator.now) in
        IfOk result (λ count. On (W.contents writer.old) block.old.items bytes.old.items number
        (W.contents writer.new) block.new.items bytes.new.items count) }
    ensures last { OnOk result (T.pieces bytes.new.items ≡ last_piece bytes.new.items) }
    ensures misfit { let Stops = StopsIn T.pieces (T.fits translator.now) (T.translated translator.now) in
        IfErr result (Stops (W.contents writer.old) block.old.items bytes.old.items number) }
    ensures part { let Part = WritesIn T.pieces (T.fits translator.now) (T.translated translator.now) in
        OnErr result (Part (W.contents writer.old) block.old.items bytes.old.items number
        (W.contents writer.new)) }
{
    let (size, count) = translator.put_front(alloc, bytes, seen, number, block, writer)?;
    drop_front(bytes, size);
    Ok(count)
}

/// Translates the pieces at the front of the bytes one by one, as [`FrontTranslator::put_front`] says.
///
/// # Errors
///
/// `Misfit` or `Write`.
pub fn translate_pieces<T: Translator, W: Write>(
    translator: &T,
    bytes: &[u8],
    number: u64,
    block: &mut Vec<u8>,
    writer: &mut W,
) -> Result<(usize, u64), TranslateError>
    ensures ok { let On = GoesOn T.pieces (T.fits translator.now) (T.translated translator.now) in
        IfOk result (λ end. On (W.contents writer.old) block.old.items bytes.now number
        (W.contents writer.new) block.new.items (drop end.0 bytes.now) end.1) }
    ensures within { IfOk result (λ end. end.0 ≤ length bytes.now) }
    ensures last { IfOk result (λ end. T.pieces (drop end.0 bytes.now) ≡ last_piece (drop end.0 bytes.now)) }
    ensures misfit { let Stops = StopsIn T.pieces (T.fits translator.now) (T.translated translator.now) in
        IfErr result (Stops (W.contents writer.old) block.old.items bytes.now number) }
    ensures part { let Part = WritesIn T.pieces (T.fits translator.now) (T.translated translator.now) in
        OnErr result (Part (W.contents writer.old) block.old.items bytes.now number (W.contents writer.new)) }
{
    let mut at = 0;
    let mut count = number;
    while let Some((size, next)) = T::first(&bytes[at..]) {
        translator.look_ahead(&bytes[at..], at);
        count = put_piece(translator, &bytes[at..][..size], count, block, writer)?;
        at += next;
    }
    Ok((at, count))
}

// Translates the last piece of an input, if there is one, and returns how many
// were translated with those before.
fn translate_last<T: Translator, W: Write>(
    translator: &T,
    last: &[u8],
    number: u64,
    block: &mut Vec<u8>,
    writer: &mut W,
) -> Result<u64, TranslateError>
    requires { T.pieces last.now ≡ last_piece last.now }
    ensures ok { let Before = HasTranslated T.pieces (T.fits translator.now) (T.translated translator.now) in
        IfOk result (λ count. (input old left : Option (List ℕ)) → IsAtEnd left →
        Before input old (W.contents writer.old) block.old.items last.now left number →
        Before input old (W.contents writer.new) block.new.items [] left count) }
    ensures misfit { let Before = HasTranslated T.pieces (T.fits translator.now)
        (T.translated translator.now) in
        IfErr result (λ e. (input old left : Option (List ℕ)) → IsAtEnd left →
        Before input old (W.contents writer.old) block.old.items last.now left number →
        IfSome input (λ input. ReportsMisfit (T.fits translator.now) e (T.pieces input))) }
    ensures part { let Before = HasTranslated T.pieces (T.fits translator.now)
        (T.translated translator.now) in
        let Part = WritesPart (T.fits translator.now) (T.translated translator.now) in
        OnErr result ((input old left : Option (List ℕ)) → IsAtEnd left →
        Before input old (W.contents writer.old) block.old.items last.now left number →
        IfSome input (λ input. Part old [] (W.contents writer.new) (T.pieces input))) }
{
    if last.is_empty() {
        return Ok(number);
    }
    put_piece(translator, last, number, block, writer)
}

// Translates a piece, before which there are so many, and returns how many there are with it.
fn put_piece<T: Translator, W: Write>(
    translator: &T,
    piece: &[u8],
    number: u64,
    block: &mut Vec<u8>,
    writer: &mut W,
) -> Result<u64, TranslateError>
    ensures fits { OnOk result (T.fits translator.now piece.now ≡ true) }
    ensures put { let translated = T.translated translator.now piece.now in
        OnOk result (Puts W.contents writer.old block.old writer.new block.new translated) }
    ensures count { IfOk result (λ count. count ≡ min (number + 1) (2 ^ 64 - 1)) }
    ensures misfit { IfErr result (λ e. ReportsPiece (T.fits translator.now) e piece.now number) }
    ensures front { T.fits translator.now piece.now ≡ true →
        WritesFront W.contents writer.old writer.new
        (block.old.items ++ T.translated translator.now piece.now) }
    ensures unfit { T.fits translator.now piece.now ≡ false → writer.new ≡ writer.old }
{
    match translator.put(piece, block, writer) {
        Ok(true) => Ok(number.saturating_add(1)),
        Ok(false) => Err(TranslateError::Misfit(number, piece.len())),
        Err(_) => Err(TranslateError::Stream(StreamError::Write)),
    }
}

// Writes what a block holds, and flushes.
fn write_out<W: Write>(block: &[u8], writer: &mut W) -> io::Result<()>
    ensures written { OnOk result (Writes W.contents writer.old writer.new block.now) }
    ensures front { WritesFront W.contents writer.old writer.new block.now }
{
    write_bytes(block, writer)?;
    writer.flush()
}

// Removes the first bytes. If there are none to be removed, the others aren't moved.
pub(crate) fn drop_front(bytes: &mut Vec<u8>, size: usize)
    requires { size ≤ length bytes.old.items }
    ensures { bytes.new.items ≡ drop size bytes.old.items }
{
    if size == 0 {
        return;
    }
    let count = bytes.len() - size;
    bytes.copy_within(size.., 0);
    bytes.truncate(count);
}
