//! Look-ups in a dictionary, from bytes read to bytes written.
ghost use Rattle.std.specs.Prelude.{◌≡◌, ◌≢◌, OnOk, IfOk, IfErr, IfSome, find, is_some, nat_le};
ghost use Rattle.std.specs.List.{flat_map, list_all};
ghost use Rattle.std.specs.Io.KnownBytes.{IsAtEnd};
ghost use Rattle.intaglio_lines.specs.Decoded.{decoded};
ghost use Rattle.intaglio_lines.specs.Output.{spelling_line};
ghost use Rattle.intaglio_lines.specs.Puts.{Writes};
ghost use Rattle.intaglio_lines.specs.StreamError.{IsWritingError};
ghost use Rattle.intaglio_lines.specs.declared.error.StreamError.TheVariants.{Write as WriteFailed};
ghost use Rattle.intaglio_columns.specs.Answers.{answers, unknown, AreSymbols, Reports, WritesFound};
ghost use Rattle.intaglio_columns.specs.declared.error.DictionaryError.TheVariants.{Stream};

use crate::answer::{Answers, look_up_lines};
use crate::dictionary::{Dictionary, WholeDictionary};
use crate::error::DictionaryError;
use crate::strings::{Listing, Selection, strings_of};
use intaglio_lines::error::StreamError;
use intaglio_lines::read::read_all;
use intaglio_lines::write::write_output;
use intaglio_symbol::Symbol;
use std::alloc::Global;
use std::io::{Read, Write};

/// Looks up each line of an input, and writes its symbol, or a dash if it isn't found.
/// Returns whether each line was found.
///
/// The whole input is read before anything is written.
///
/// # Errors
///
/// `Memory`, `Read` or `Write`. After each but `Write` nothing was written.
pub fn find_lines<D: Dictionary, R: Read, W: Write>(
    alloc: Global,
    table: &D,
    reader: &mut R,
    writer: &mut W,
) -> Result<bool, StreamError>
    ensures written { OnOk result (IfSome (R.remaining reader.old) (λ input. D.is_whole table.now
        → Writes W.contents writer.old writer.new (answers (D.strings table.now) input))) }
    ensures found { IfOk result (λ all. IfSome (R.remaining reader.old) (WritesFound
        (D.strings table.now) (D.is_whole table.now) all W.contents writer.old writer.new)) }
    ensures all_read { OnOk result (IsAtEnd (R.remaining reader.new)) }
    ensures nothing_written { IfErr result (λ e. e ≢ WriteFailed → writer.new ≡ writer.old) }
{
    let input = read_all(alloc, reader)?;
    let found = look_up_lines(alloc, table, &input)?;
    write_output(alloc, &Answers { found: &found }, writer)?;
    Ok(are_all_there(&found))
}

// Whether something was found of each line.
fn are_all_there(found: &[Option<Symbol>]) -> bool
    ensures { result ≡ list_all is_some found.now }
{
    found.iter().all(|it| it.is_some())
}

/// Writes the string of each of these symbols, each on a line.
///
/// # Errors
///
/// `NoString` for the first symbol that no string has, before anything is written; `Memory` or `Write`.
/// After each but `Write` nothing was written. If the dictionary isn't whole, `NoString` also for a
/// symbol whose string isn't there.
pub fn write_strings<D: Dictionary, W: Write>(
    alloc: Global,
    table: &D,
    symbols: &[Symbol],
    writer: &mut W,
) -> Result<(), DictionaryError>
    ensures written { OnOk result
        (Writes W.contents writer.old writer.new (decoded symbols.now (D.strings table.now))) }
    ensures known { OnOk result (AreSymbols symbols.now (D.strings table.now)) }
    ensures unknown { D.is_whole table.now
        → IfErr result (λ e. Reports e (unknown symbols.now (D.strings table.now))) }
    ensures nothing_written { IfErr result (λ e. e ≢ Stream WriteFailed → writer.new ≡ writer.old) }
{
    match first_from(symbols, table.len()) {
        Some(symbol) => Err(DictionaryError::NoString(symbol.id())),
        None => {
            let strings = strings_of(alloc, table, symbols)?;
            write_output(alloc, &Selection { strings: &strings }, writer)?;
            Ok(())
        }
    }
}

// The first symbol that isn't below this number.
fn first_from(symbols: &[Symbol], count: usize) -> Option<Symbol>
    ensures { result ≡ find (λ symbol. nat_le count symbol) symbols.now }
{
    symbols
        .iter()
        .copied()
        .find(|symbol| count <= symbol.id() as usize)
}

/// Writes all strings in the order of their symbols, each on a line.
///
/// # Errors
///
/// `Memory`, before anything is written, or `Write`.
pub fn list<D: WholeDictionary, W: Write>(
    alloc: Global,
    table: &D,
    writer: &mut W,
) -> Result<(), StreamError>
    ensures written { OnOk result
        (Writes W.contents writer.old writer.new (flat_map spelling_line (D.strings table.now))) }
    ensures nothing_written { IfErr result (λ e. e ≢ WriteFailed → writer.new ≡ writer.old) }
    ensures err { IfErr result IsWritingError }
{
    write_output(alloc, &Listing { table }, writer)
}
