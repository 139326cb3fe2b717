//! Parses an encoded output.
ghost use Rattle.std.specs.Prelude.{◌≡◌, ◌<◌, [], length, map, slice_index_or, is_some, None, OnOk, IfOk, IfErr, IfSome};
ghost use Rattle.std.specs.List.{list_any};
ghost use Rattle.intaglio_lines.specs.Lines.{lines_of};
ghost use Rattle.intaglio_lines.specs.Decoded.{Holds, decoded, is_ended};
ghost use Rattle.intaglio_lines.specs.Fault.{fault_of, first_fault, line_fault, is_blank, spellings_of, symbol_lines};
ghost use Rattle.intaglio_decode.specs.Parts.{symbols_in, spellings_in, AreSound};
ghost use Rattle.intaglio_decode.specs.RestoreError.{IsParsingError, Reports};

use crate::error::RestoreError;
use crate::number::number_of;
use intaglio_lines::lines::first_line;
use intaglio_lines::write::{Output, put_line};
use std::alloc::{AllocError, Global};
use std::io;
use std::io::Write;

/// The symbols and spellings of an encoded output.
#[derive(Drop)]
pub struct Parts<'a> {
    // The output. Its lines before the first empty one are the symbols.
    bytes: &'a [u8],
    // The spelling of each number.
    spellings: Vec<&'a [u8]>,
}

/// Parses an encoded output.
///
/// # Errors
///
/// The first fault of the input, or `Memory`.
pub fn parse(alloc: Global, bytes: &[u8]) -> Result<Parts<'_>, RestoreError>
    ensures holds { IfOk result (λ parts. Holds (symbols_in parts) (spellings_in parts) bytes.now) }
    ensures sound { IfOk result AreSound }
    ensures right { OnOk result (fault_of bytes.now ≡ None) }
    ensures fault { IfErr result (λ e. Reports e (fault_of bytes.now)) }
    ensures err { IfErr result IsParsingError }
{
    let Some(behind) = behind_blank(bytes) else {
        check_symbols(alloc, bytes, None)?;
        return Err(if ends_line(bytes) {
            RestoreError::NoEmptyLine
        } else {
            RestoreError::NotEnded
        });
    };
    let spellings = lines(alloc, behind)?;
    check_symbols(alloc, bytes, Some(spellings.len() as u64))?;
    if !ends_line(bytes) {
        return Err(RestoreError::NotEnded);
    }
    Ok(Parts { bytes, spellings })
}

// What follows the first empty line.
fn behind_blank(bytes: &[u8]) -> Option<&[u8]>
    ensures any { is_some result ≡ list_any is_blank (lines_of bytes.now) }
    ensures behind { IfSome result (λ behind. lines_of behind.now ≡ spellings_of bytes.now) }
{
    let mut rest = bytes;
    while !rest.is_empty() {
        let (line, after) = first_line(rest);
        if line.is_empty() {
            return Some(after);
        }
        rest = after;
    }
    None
}

// The lines of bytes.
fn lines(alloc: Global, bytes: &[u8]) -> Result<Vec<&[u8]>, AllocError>
    ensures { IfOk result (λ lines. map (λ line. line.now) lines.items ≡ lines_of bytes.now) }
{
    let ended = bytes.iter().filter(|byte| **byte == b'\n').count();
    let mut lines = Vec::with_capacity(alloc, ended + 1)?;
    let mut rest = bytes;
    while !rest.is_empty() {
        let (line, after) = first_line(rest);
        lines.push(line)?;
        rest = after;
    }
    Ok(lines)
}

// Whether each symbol is a number, and below the count of spellings if that is known.
fn check_symbols(alloc: Global, bytes: &[u8], count: Option<u64>) -> Result<(), RestoreError>
    ensures right { OnOk result (first_fault count 1 (symbol_lines bytes.now) ≡ None) }
    ensures fault { IfErr result (λ e. Reports e (first_fault count 1 (symbol_lines bytes.now))) }
    ensures err { IfErr result IsParsingError }
{
    let mut rest = bytes;
    let mut number = 0u64;
    while !rest.is_empty() {
        let (line, after) = first_line(rest);
        if line.is_empty() {
            return Ok(());
        }
        number += 1;
        check_symbol(alloc, line, number, count)?;
        rest = after;
    }
    Ok(())
}

// The same for the symbol on the line with this number.
#[tactic(auto, using(crate::proofs::Symbols::number_utf8))]
fn check_symbol(
    alloc: Global,
    line: &[u8],
    number: u64,
    count: Option<u64>,
) -> Result<(), RestoreError>
    ensures right { OnOk result (line_fault count number line.now ≡ None) }
    ensures fault { IfErr result (λ e. Reports e (line_fault count number line.now)) }
    ensures err { IfErr result IsParsingError }
{
    let Some(symbol) = number_of(line) else {
        return Err(RestoreError::NotANumber(number));
    };
    match count {
        Some(count) if symbol >= count => Err(RestoreError::NoString {
            line: number,
            number: String::from_utf8(Vec::from_slice(alloc, line)?).unwrap(),
        }),
        _ => Ok(()),
    }
}

// Whether the last byte is 10, or there is none.
#[tactic(auto, using(crate::proofs::Symbols::is_ended_last))]
fn ends_line(bytes: &[u8]) -> bool
    ensures { result ≡ is_ended bytes.now }
{
    match bytes {
        [.., last] => *last == b'\n',
        [] => true,
    }
}

impl<'a> Parts<'a> {
    // The spelling of this number.
    fn spelling(&self, number: u64) -> &'a [u8]
        requires { number < length (spellings_in self.now) }
        ensures { result.now ≡ slice_index_or (spellings_in self.now) number [] }
    {
        self.spellings[number as usize]
    }
}

impl Output for Parts<'_> {
    ghost bytes = { λ parts. decoded (symbols_in parts) (spellings_in parts) };

    ghost is_ready = { λ parts. AreSound parts };

    fn put_all<W: Write>(&self, block: &mut Vec<u8>, writer: &mut W) -> io::Result<()> {
        let mut rest = self.bytes;
        while !rest.is_empty() {
            let (line, after) = first_line(rest);
            if line.is_empty() {
                return Ok(());
            }
            let symbol = number_of(line).unwrap();
            put_line(self.spelling(symbol), block, writer)?;
            rest = after;
        }
        Ok(())
    }
}
