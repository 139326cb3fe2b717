//! Writes lines of a column file by the numbers of their rows.
ghost use Rattle.std.specs.Prelude.{◌≡◌, ◌≢◌, ◌++◌, ◌<◌, ◌≤◌, ◌==◌, cond, is_some, length, option_map, slice_get, IfErr, IfOk, IfSome, OnErr, OnOk};
ghost use Rattle.std.specs.List.{flat_map};
ghost use Rattle.intaglio_lines.specs.Output.{spelling_line};
ghost use Rattle.intaglio_lines.specs.Puts.{Writes};
ghost use Rattle.intaglio_lines.specs.declared.error.StreamError.TheVariants.{Write as WriteFailed};
ghost use Rattle.intaglio_columns.specs.Layout.{codes};
ghost use Rattle.intaglio_columns.specs.RowLines.{IsRangeFault, IsRowsFault, has_line, lines_between, row_lines, string_at};
ghost use Rattle.intaglio_columns.specs.declared.error.RowsError.TheVariants.{Stream};

use crate::Column;
use crate::codes::MISSING;
use crate::dictionary::Dictionary;
use crate::error::RowsError;
use crate::strings::Selection;
use intaglio_lines::error::StreamError;
use intaglio_lines::write::write_output;
use intaglio_symbol::Symbol;
use std::alloc::Global;
use std::io::Write;

/// Rows that follow each other.
#[derive(Debug, Clone, Copy, PartialEq, Eq)]
pub struct RowRange {
    /// The first row, counted from 0.
    pub first: usize,
    /// The last row. If it is before the first, there are none.
    pub last: usize,
}

/// Writes the line of each row of these ranges, one range after the other. If `missing` is a
/// text, it is the line of missing rows.
///
/// A list of the lines is made before anything is written.
///
/// # Errors
///
/// `NoRow` for the last row of the first range whose last row isn't there; `NoLine` for a row of a range
/// whose code has no string, and for a missing row unless `missing` is a text; `Memory` or `Write`. After
/// each but `Write` nothing was written.
///
/// ```
/// # use intaglio::SymbolTable;
/// # use intaglio_columns::{Column, column_bytes, id_of_table};
/// # use intaglio_columns::rows::{RowRange, write_rows};
/// # use intaglio_frozen::{Frozen, FrozenKind, freeze};
/// # let mut table = SymbolTable::new(rt.alloc())?;
/// # let (rose, thorn) = (table.get_or_intern("rose")?, table.get_or_intern("thorn")?);
/// # let bytes = freeze(rt.alloc(), &table, FrozenKind::Text, 0, 0)?;
/// # let dictionary = Frozen::open(&bytes)?;
/// let codes = [rose, thorn, rose];
/// let file = column_bytes(rt.alloc(), id_of_table(&bytes)?, &codes.as_slice())?;
/// let column = Column::open(&file)?;
/// let mut lines = Vec::new(rt.alloc());
/// let ranges = [RowRange { first: 1, last: 2 }];
/// write_rows(rt.alloc(), &dictionary, &column, &ranges, None, &mut lines)?;
/// assert!(rt; lines.as_slice() == b"thorn\nrose\n".as_slice());
/// ```
pub fn write_rows<D: Dictionary, W: Write>(
    alloc: Global,
    table: &D,
    column: &Column<'_>,
    ranges: &[RowRange],
    missing: Option<&[u8]>,
    writer: &mut W,
) -> Result<(), RowsError>
    ensures written { let text = option_map (λ t. t.now) missing.entry in
        let lines = row_lines (D.strings table.now) text (codes column.now) ranges.now in
        OnOk result (Writes W.contents writer.old writer.new lines) }
    ensures err { let text = option_map (λ t. t.now) missing.entry in
        let fault = IsRowsFault (D.strings table.now) (D.is_whole table.now) text (codes column.now) in
        IfErr result (fault ranges.now) }
    ensures nothing_written { IfErr result (λ e. e ≢ Stream WriteFailed → writer.new ≡ writer.old) }
{
    let lines = lines_of_rows(alloc, table, column, ranges, missing)?;
    write_output(alloc, &Selection { strings: &lines }, writer)?;
    Ok(())
}

// The lines of ranges.
fn lines_of_rows<'a, D: Dictionary>(
    alloc: Global,
    table: &'a D,
    column: &Column<'_>,
    ranges: &[RowRange],
    missing: Option<&'a [u8]>,
) -> Result<Vec<&'a [u8]>, RowsError>
    ensures lines { let text = option_map (λ t. t.now) missing.entry in
        let lines = row_lines (D.strings table.now) text (codes column.now) ranges.now in
        IfOk result (λ strings. flat_map (λ string. spelling_line string.now) strings.items ≡ lines) }
    ensures err { let text = option_map (λ t. t.now) missing.entry in
        let fault = IsRowsFault (D.strings table.now) (D.is_whole table.now) text (codes column.now) in
        IfErr result (fault ranges.now) }
{
    let mut lines = Vec::new(alloc);
    for range in ranges {
        add_lines(table, column, *range, missing, &mut lines)?;
    }
    Ok(lines)
}

// Adds the lines of a range.
fn add_lines<'a, D: Dictionary>(
    table: &'a D,
    column: &Column<'_>,
    range: RowRange,
    missing: Option<&'a [u8]>,
    lines: &mut Vec<&'a [u8]>,
) -> Result<(), RowsError>
    ensures lines { let text = option_map (λ t. t.now) missing.entry in
        let more = lines_between (D.strings table.now) text (codes column.now) range in
        OnOk result (flat_map (λ string. spelling_line string.now) lines.new.items
        ≡ flat_map (λ string. spelling_line string.now) lines.old.items ++ more) }
    ensures err { let text = option_map (λ t. t.now) missing.entry in
        let fault = IsRangeFault (D.strings table.now) (D.is_whole table.now) text (codes column.now) in
        IfErr result (fault range) }
    ensures within { OnOk result (range.last < length (codes column.now)) }
{
    if range.last >= column.len() {
        return Err(RowsError::NoRow(range.last as u64));
    }
    for row in range.first..range.last + 1 {
        let code = column.code(row).unwrap();
        let Some(line) = line_of(table, code, missing) else {
            return Err(RowsError::NoLine(row as u64));
        };
        let Ok(()) = lines.push(line) else {
            return Err(RowsError::Stream(StreamError::Memory));
        };
    }
    Ok(())
}

// The line of a code, without its end.
fn line_of<'a, D: Dictionary>(
    table: &'a D,
    code: u32,
    missing: Option<&'a [u8]>,
) -> Option<&'a [u8]>
    ensures line { let text = option_map (λ t. t.now) missing.entry in
        IfSome result (λ line. line.now ≡ string_at (D.strings table.now) text code) }
    ensures whole { let text = option_map (λ t. t.now) missing.entry in
        D.is_whole table.now → is_some result ≡ has_line (D.strings table.now) text code }
{
    if code == MISSING {
        missing
    } else {
        table.string(Symbol::new(code))
    }
}
