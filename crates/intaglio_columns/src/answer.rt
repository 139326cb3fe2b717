//! Looks up the lines of an input, and writes what was found.
ghost use Rattle.std.specs.Prelude.{OnOk, IfOk};
ghost use Rattle.std.specs.List.{flat_map};
ghost use Rattle.intaglio_lines.specs.Lines.{lines_of};
ghost use Rattle.intaglio_lines.specs.Puts.{Puts};
ghost use Rattle.intaglio_columns.specs.Answers.{answer_line, AreFound};

use crate::dictionary::Dictionary;
use intaglio_lines::lines::first_line;
use intaglio_lines::write::{Output, put, put_number};
use intaglio_symbol::Symbol;
use std::alloc::{AllocError, Global};
use std::io;
use std::io::Write;

/// What is found of each line of an input.
///
/// # Errors
///
/// [`AllocError`] if the allocation of the list fails.
pub(crate) fn look_up_lines<D: Dictionary>(
    alloc: Global,
    table: &D,
    input: &[u8],
) -> Result<Vec<Option<Symbol>>, AllocError>
    ensures { IfOk result (λ found.
        AreFound (D.strings table.now) (D.is_whole table.now) (lines_of input.now) found.items) }
{
    let mut found = Vec::new(alloc);
    let mut rest = input;
    while !rest.is_empty() {
        let (line, after) = first_line(rest);
        found.push(table.symbol(line))?;
        rest = after;
    }
    Ok(found)
}

/// The output: the symbol of each line of an input, or a dash if none was found.
#[derive(Drop)]
pub struct Answers<'a> {
    /// What was found of each line.
    pub found: &'a [Option<Symbol>],
}

impl Output for Answers<'_> {
    ghost bytes = { λ output. flat_map answer_line output.found.now };

    ghost is_ready = { λ _. Unit {0} };

    fn put_all<W: Write>(&self, block: &mut Vec<u8>, writer: &mut W) -> io::Result<()> {
        for found in self.found {
            put_answer(*found, block, writer)?;
        }
        Ok(())
    }
}

// Writes what a look-up of a line found.
fn put_answer<W: Write>(
    found: Option<Symbol>,
    block: &mut Vec<u8>,
    writer: &mut W,
) -> io::Result<()>
    ensures { OnOk result (Puts W.contents writer.old block.old writer.new block.new (answer_line found)) }
{
    match found {
        Some(symbol) => put_number(symbol.id() as u64, block, writer),
        None => put(b"-\n", block, writer),
    }
}
