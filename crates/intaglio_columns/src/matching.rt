//! Finds the rows of a column file in which strings stand, by their codes alone.
ghost use Rattle.std.specs.Prelude.{◌≡◌, ◌≢◌, ◌<◌, ◌≤◌, ℕ, false, get_or, length, map, set, true, IfErr, IfOk, OnOk};
ghost use Rattle.std.specs.List.{flat_map};
ghost use Rattle.intaglio_lines.specs.Output.{number_line};
ghost use Rattle.intaglio_lines.specs.Puts.{Puts, Writes};
ghost use Rattle.intaglio_lines.specs.StreamError.{IsWritingError};
ghost use Rattle.intaglio_lines.specs.declared.error.StreamError.TheVariants.{Write as WriteFailed};
ghost use Rattle.intaglio_columns.specs.Filter.{selects};
ghost use Rattle.intaglio_columns.specs.Layout.{codes, strings as strings_of};
ghost use Rattle.intaglio_columns.specs.Rows.{rows_of};
ghost use Rattle.intaglio_columns.specs.Matching.{AreMarked, selected_lines};

use crate::dictionary::Dictionary;
use crate::{Column, RowFilter};
use intaglio_lines::error::StreamError;
use intaglio_lines::write::{Output, put_number, write_output};
use std::alloc::{AllocError, Global};
use std::io;
use std::io::Write;

/// A filter that selects the rows with one of these strings, or, if it inverts, all others. The
/// string of a row is told by its code.
///
/// # Errors
///
/// [`AllocError`] if the allocation of the list fails.
pub fn filter_of<D: Dictionary>(
    alloc: Global,
    table: &D,
    column: &Column<'_>,
    strings: &[&str],
    inverts: bool,
) -> Result<RowFilter, AllocError>
    ensures strings { let Are = AreMarked (strings_of column.now) (D.strings table.now)
        (D.is_whole table.now) in
        IfOk result (λ filter. Are (map (λ s. s.now) strings.now) filter.strings.items) }
    ensures missing { IfOk result (λ filter. filter.missing ≡ false) }
    ensures inverts { IfOk result (λ filter. filter.inverts ≡ inverts) }
{
    let mut filter = column.no_rows(alloc)?;
    filter.inverts = inverts;
    mark_all(table, strings, &mut filter.strings);
    Ok(filter)
}

// Marks the place of the symbol of each string.
fn mark_all<D: Dictionary>(table: &D, strings: &[&str], marks: &mut [bool])
    requires { (symbol : ℕ) → get_or marks.old symbol false ≡ false }
    ensures { let words = map (λ s. s.now) strings.now in
        AreMarked (length marks.old) (D.strings table.now) (D.is_whole table.now) words marks.new }
{
    for string in strings {
        let found = table.symbol(string.as_bytes());
        if let Some(symbol) = found {
            mark(marks, symbol.id() as usize);
        }
    }
}

// Marks a place, if it is there.
fn mark(marks: &mut [bool], at: usize)
    ensures there { at < length marks.old → marks.new ≡ set marks.old at true }
    ensures none { length marks.old ≤ at → marks.new ≡ marks.old }
{
    if at < marks.len() {
        marks[at] = true;
    }
}

/// Writes the number of each row that a filter selects, each on a line, in ascending order.
///
/// # Errors
///
/// `Memory`, before anything is written, or `Write`.
///
/// ```
/// # use intaglio::SymbolTable;
/// # use intaglio_columns::{Column, column_bytes, id_of_table};
/// # use intaglio_columns::matching::{filter_of, write_selected};
/// # use intaglio_frozen::{Frozen, FrozenKind, freeze};
/// # let mut table = SymbolTable::new(rt.alloc())?;
/// # let (rose, thorn) = (table.get_or_intern("rose")?, table.get_or_intern("thorn")?);
/// # let bytes = freeze(rt.alloc(), &table, FrozenKind::Text, 0, 0)?;
/// # let dictionary = Frozen::open(&bytes)?;
/// let codes = [rose, thorn, rose];
/// let file = column_bytes(rt.alloc(), id_of_table(&bytes)?, &codes.as_slice())?;
/// let column = Column::open(&file)?;
/// let mut lines = Vec::new(rt.alloc());
/// let filter = filter_of(rt.alloc(), &dictionary, &column, &["rose"], false)?;
/// write_selected(rt.alloc(), &column, &filter, &mut lines)?;
/// assert!(rt; lines.as_slice() == b"0\n2\n".as_slice());
/// ```
pub fn write_selected<W: Write>(
    alloc: Global,
    column: &Column<'_>,
    filter: &RowFilter,
    writer: &mut W,
) -> Result<(), StreamError>
    ensures written { OnOk result
        (Writes W.contents writer.old writer.new (selected_lines filter.now (codes column.now))) }
    ensures nothing_written { IfErr result (λ e. e ≢ WriteFailed → writer.new ≡ writer.old) }
    ensures err { IfErr result IsWritingError }
{
    write_output(alloc, &SelectedRows { column, filter }, writer)
}

/// The output: the numbers of the rows that a filter selects, each on a line.
#[derive(Drop)]
pub struct SelectedRows<'a, 'b> {
    /// The column.
    pub column: &'a Column<'b>,
    /// Which rows are selected.
    pub filter: &'a RowFilter,
}

impl Output for SelectedRows<'_, '_> {
    ghost bytes = { λ output. selected_lines output.filter.now (codes output.column.now) };

    ghost is_ready = { λ _. Unit {0} };

    fn put_all<W: Write>(&self, block: &mut Vec<u8>, writer: &mut W) -> io::Result<()> {
        match self.filter.only_code() {
            Some(code) => put_rows_of(self.column, code, block, writer),
            None => put_selected(self.column, self.filter, block, writer),
        }
    }
}

// Writes the rows with a code.
fn put_rows_of<W: Write>(
    column: &Column<'_>,
    code: u32,
    block: &mut Vec<u8>,
    writer: &mut W,
) -> io::Result<()>
    ensures { let lines = flat_map number_line (rows_of code (codes column.now)) in
        OnOk result (Puts W.contents writer.old block.old writer.new block.new lines) }
{
    // The number behind a row fits too.
    let _rows = column.len();
    let mut from = 0;
    while let Some(row) = column.next_row_of(code, from) {
        put_number(row as u64, block, writer)?;
        from = row + 1;
    }
    Ok(())
}

// Writes the rows that a filter selects.
fn put_selected<W: Write>(
    column: &Column<'_>,
    filter: &RowFilter,
    block: &mut Vec<u8>,
    writer: &mut W,
) -> io::Result<()>
    ensures { OnOk result (Puts W.contents writer.old block.old writer.new block.new
        (selected_lines filter.now (codes column.now))) }
{
    // The number behind a row fits too.
    let _rows = column.len();
    let mut from = 0;
    while let Some(row) = column.next_selected(filter, from) {
        put_number(row as u64, block, writer)?;
        from = row + 1;
    }
    Ok(())
}
