//! Interns the lines of an input, and writes their symbols and the spellings.
ghost use Rattle.std.specs.Prelude.{◌≡◌, ◌≢◌, ◌<◌, [], OnOk, IfErr, map};
ghost use Rattle.std.specs.List.{flat_map};
ghost use Rattle.intaglio_lines.specs.Encoded.{encoded_by};
ghost use Rattle.intaglio_lines.specs.LineForms.{AllLinesFit, distinct_count};
ghost use Rattle.intaglio_lines.specs.Output.{output_of, number_line, spelling_line};
ghost use Rattle.intaglio_lines.specs.Puts.{Puts, Writes, WritesOnlyIf};
ghost use Rattle.intaglio_lines.specs.ToolError.{IsInterningOrWritingError, ReportsFirstUnfit};
ghost use Rattle.intaglio_lines.specs.declared.tool_error.ToolError.TheVariants.{Overflow, Write as WriteFailed};

use crate::from_line::FromLine;
use crate::intern_lines::intern_lines;
use crate::tool_error::ToolError;
use crate::write::{Output, put, put_line, put_number, write_output};
use intaglio_content::{Content, SpelledStore, Store};
use intaglio_interner::BaseInterner;
use intaglio_symbol::Symbol;
use std::alloc::Global;
use std::io;
use std::io::Write;

/// Interns the lines of an input into this empty table, and writes the symbol of each line, an empty line,
/// and the spelling of each symbol.
///
/// All lines are interned before anything is written, and nothing is allocated after the first write.
///
/// # Errors
///
/// Those of [`intern_lines`], `Memory` if the block can't be allocated, and `Write` if a write fails. After
/// each but `Write` nothing was written.
pub fn encode_lines<'a, T: BaseInterner + Drop, W: Write>(
    alloc: Global,
    mut table: T,
    input: &'a [u8],
    writer: &mut W,
) -> Result<(), ToolError>
where
    T::Content: FromLine<'a, T::Store>,
    T::Store: SpelledStore,
    requires allowed { T.Content.allows input.now }
    requires empty { (T.state table).contents ≡ [] }
    ensures written { OnOk result (Writes W.contents writer.old writer.new
        (encoded_by T.Content.key_of input.now)) }
    ensures zero { IfErr result (ReportsFirstUnfit T.Content.fits input.now) }
    ensures fit { WritesOnlyIf (AllLinesFit T.Content.fits input.now) result writer.old writer.new }
    ensures overflow { result ≡ Err Overflow →
        (T.state table).limit < distinct_count T.Content.key_of input.now }
    ensures nothing_written { IfErr result (λ e. e ≢ WriteFailed → writer.new ≡ writer.old) }
    ensures err { IfErr result IsInterningOrWritingError }
{
    let symbols = intern_lines(alloc, &mut table, input)?;
    let lines = EncodedLines {
        symbols: &symbols,
        contents: table.store(),
    };
    write_output(alloc, &lines, writer)?;
    Ok(())
}

// Each line's symbol, an empty line, and the spelling of each content.
#[derive(Drop)]
struct EncodedLines<'a, L> {
    symbols: &'a [Symbol],
    contents: &'a L,
}

impl<L: SpelledStore> Output for EncodedLines<'_, L>
where
    L::Content: Content,
{
    ghost bytes = { λ lines. output_of lines.symbols.now
        (map L.Content.spelling (L.contents lines.contents.now)) };

    ghost is_ready = { λ _. Unit {0} };

    fn put_all<W: Write>(&self, block: &mut Vec<u8>, writer: &mut W) -> io::Result<()> {
        put_symbols(self.symbols, block, writer)?;
        put(b"\n", block, writer)?;
        put_spellings(self.contents, block, writer)
    }
}

fn put_symbols<W: Write>(symbols: &[Symbol], block: &mut Vec<u8>, writer: &mut W) -> io::Result<()>
    ensures { OnOk result
        (Puts W.contents writer.old block.old writer.new block.new (flat_map number_line symbols.now)) }
{
    for symbol in symbols {
        put_number(symbol.id() as u64, block, writer)?;
    }
    Ok(())
}

fn put_spellings<L: SpelledStore, W: Write>(
    contents: &L,
    block: &mut Vec<u8>,
    writer: &mut W,
) -> io::Result<()>
where
    L::Content: Content,
    ensures { OnOk result (Puts W.contents writer.old block.old writer.new block.new
        (flat_map spelling_line (map L.Content.spelling (L.contents contents.now)))) }
{
    for place in 0..contents.len() {
        put_line(contents.spelling_at(place).unwrap(), block, writer)?;
    }
    Ok(())
}
