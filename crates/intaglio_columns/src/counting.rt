//! Writes how often each string of a column file occurs.
ghost use Rattle.std.specs.Prelude.{◌≡◌, ◌≢◌, ◌++◌, ◌≤◌, ◌^◌, false, get_or, length, map, IfErr, IfOk, OnOk};
ghost use Rattle.std.specs.List.{flat_map};
ghost use Rattle.intaglio_lines.specs.Puts.{Puts, Writes};
ghost use Rattle.intaglio_lines.specs.declared.error.StreamError.TheVariants.{Write as WriteFailed};
ghost use Rattle.intaglio_columns.specs.Layout.{codes, strings as strings_of};
ghost use Rattle.intaglio_columns.specs.Counting.{AreInOrder, IsCountsFault, IsRankFault, WritesCounts, count_line, missing_line, rank_line, ranks};
ghost use Rattle.intaglio_columns.specs.declared.error.DictionaryError.TheVariants.{Stream};

use crate::Column;
use crate::dictionary::Dictionary;
use crate::error::DictionaryError;
use intaglio_lines::error::StreamError;
use intaglio_lines::write::{Output, make_room, put_line, put_number, write_output};
use intaglio_symbol::Symbol;
use std::alloc::{AllocError, Global};
use std::io;
use std::io::Write;

// The length of the longest count: twenty digits and a tab.
const MAX_COUNT: usize = 21;

/// Writes how often each string of a column occurs: its count, a tab and the string, each on a
/// line, and at last the count of the missing rows alone. Strings that don't occur aren't
/// written, nor is a count of no missing rows.
///
/// The most frequent string comes first, and of equally frequent ones that of the lesser symbol; if
/// `by_symbol` is true, strings come in the order of their symbols.
///
/// # Errors
///
/// `NoString` for a symbol that occurs and has no string; `Memory` or `Write`. After each
/// but `Write` nothing was written.
///
/// ```
/// # use intaglio::SymbolTable;
/// # use intaglio_columns::{Column, column_bytes, id_of_table};
/// # use intaglio_columns::counting::write_counts;
/// # use intaglio_frozen::{Frozen, FrozenKind, freeze};
/// # let mut table = SymbolTable::new(rt.alloc())?;
/// # let (rose, thorn) = (table.get_or_intern("rose")?, table.get_or_intern("thorn")?);
/// # let bytes = freeze(rt.alloc(), &table, FrozenKind::Text, 0, 0)?;
/// # let dictionary = Frozen::open(&bytes)?;
/// let codes = [rose, thorn, rose];
/// let file = column_bytes(rt.alloc(), id_of_table(&bytes)?, &codes.as_slice())?;
/// let column = Column::open(&file)?;
/// let mut lines = Vec::new(rt.alloc());
/// write_counts(rt.alloc(), &dictionary, &column, false, &mut lines)?;
/// assert!(rt; lines.as_slice() == b"2\trose\n1\tthorn\n".as_slice());
/// ```
pub fn write_counts<D: Dictionary, W: Write>(
    alloc: Global,
    table: &D,
    column: &Column<'_>,
    by_symbol: bool,
    writer: &mut W,
) -> Result<(), DictionaryError>
    ensures written { let Counts = WritesCounts by_symbol (strings_of column.now) (D.strings table.now)
        (codes column.now) in
        OnOk result (Counts W.contents writer.old writer.new) }
    ensures err { let n = strings_of column.now in
        IfErr result (IsCountsFault (D.strings table.now) (D.is_whole table.now) n (codes column.now)) }
    ensures nothing_written { IfErr result (λ e. e ≢ Stream WriteFailed → writer.new ≡ writer.old) }
{
    // The number of strings is below 2^32.
    let _rows = column.len();
    let Ok(counts) = column.counts(alloc) else {
        return Err(DictionaryError::Stream(StreamError::Memory));
    };
    let Ok(ordered) = ranks_in_order(alloc, &counts.of, by_symbol) else {
        return Err(DictionaryError::Stream(StreamError::Memory));
    };
    let lines = counted_strings(alloc, table, &counts.of, &ordered)?;
    let output = CountLines {
        lines: &lines,
        missing: counts.missing,
    };
    write_output(alloc, &output, writer)?;
    Ok(())
}

// A symbol whose string occurs, after a number that is the lesser the more often it does.
type Rank = (u64, u32);

// The ranks of the symbols whose strings occur, in the order in which they are written.
fn ranks_in_order(alloc: Global, counts: &[u64], by_symbol: bool) -> Result<Vec<Rank>, AllocError>
    requires { length counts.now ≤ 2 ^ 32 }
    ensures { IfOk result (λ ordered. AreInOrder by_symbol counts.now ordered.items) }
{
    let mut ordered = ranks(alloc, counts)?;
    if !by_symbol {
        ordered.sort()?;
    }
    Ok(ordered)
}

// The ranks of the symbols whose strings occur, in the order of the symbols.
fn ranks(alloc: Global, counts: &[u64]) -> Result<Vec<Rank>, AllocError>
    requires { length counts.now ≤ 2 ^ 32 }
    ensures { IfOk result (λ all. all.items ≡ ranks counts.now) }
{
    let mut all = Vec::new(alloc);
    for symbol in 0..counts.len() {
        let count = counts[symbol];
        if count == 0 {
            continue;
        }
        all.push((u64::MAX - count, symbol as u32))?;
    }
    Ok(all)
}

// How often the string of a symbol occurs.
fn count_of(counts: &[u64], symbol: u32) -> u64
    ensures { result ≡ get_or counts.now symbol 0 }
{
    match counts.get(symbol as usize) {
        Some(count) => *count,
        None => 0,
    }
}

// The count and the string of each symbol.
fn counted_strings<'a, D: Dictionary>(
    alloc: Global,
    table: &'a D,
    counts: &[u64],
    ordered: &[Rank],
) -> Result<Vec<(u64, &'a [u8])>, DictionaryError>
    ensures lines { let lines = flat_map (rank_line (D.strings table.now) counts.now) ordered.now in
        IfOk result (λ all. flat_map (λ it. count_line it.0 it.1.now) all.items ≡ lines) }
    ensures err { IfErr result (IsRankFault (D.strings table.now) (D.is_whole table.now) ordered.now) }
{
    let mut lines = Vec::new(alloc);
    for rank in ordered {
        let (_, symbol) = *rank;
        let Some(string) = table.string(Symbol::new(symbol)) else {
            return Err(DictionaryError::NoString(symbol));
        };
        let Ok(()) = lines.push((count_of(counts, symbol), string)) else {
            return Err(DictionaryError::Stream(StreamError::Memory));
        };
    }
    Ok(lines)
}

/// The output: counts and strings, each on a line, and the count of the missing rows if there are any.
#[derive(Drop)]
pub struct CountLines<'a, 't> {
    /// The counts and strings.
    pub lines: &'a [(u64, &'t [u8])],
    /// How many rows are missing.
    pub missing: u64,
}

impl Output for CountLines<'_, '_> {
    ghost bytes = { λ output. flat_map (λ it. count_line it.0 it.1.now) output.lines.now
        ++ missing_line output.missing };

    ghost is_ready = { λ _. Unit {0} };

    fn put_all<W: Write>(&self, block: &mut Vec<u8>, writer: &mut W) -> io::Result<()> {
        put_counts(self.lines, block, writer)?;
        put_missing(self.missing, block, writer)
    }
}

// Writes counts and strings.
fn put_counts<W: Write>(
    lines: &[(u64, &[u8])],
    block: &mut Vec<u8>,
    writer: &mut W,
) -> io::Result<()>
    ensures { let lines = flat_map (λ it. count_line it.0 it.1.now) lines.now in
        OnOk result (Puts W.contents writer.old block.old writer.new block.new lines) }
{
    for (count, string) in lines {
        put_count(*count, string, block, writer)?;
    }
    Ok(())
}

// Writes a count, a tab, and a string.
fn put_count<W: Write>(
    count: u64,
    string: &[u8],
    block: &mut Vec<u8>,
    writer: &mut W,
) -> io::Result<()>
    ensures { let line = count_line count string.now in
        OnOk result (Puts W.contents writer.old block.old writer.new block.new line) }
{
    // There is room for the longest count, so the block doesn't grow for it.
    make_room(MAX_COUNT, block, writer)?;
    write!(block, "{count}\t")?;
    put_line(string, block, writer)
}

// Writes the number of missing rows, if there are any.
fn put_missing<W: Write>(missing: u64, block: &mut Vec<u8>, writer: &mut W) -> io::Result<()>
    ensures { OnOk result
        (Puts W.contents writer.old block.old writer.new block.new (missing_line missing)) }
{
    if missing == 0 {
        return Ok(());
    }
    put_number(missing, block, writer)
}
