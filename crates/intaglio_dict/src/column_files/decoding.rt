//! Decodes a column file.
use crate::column_files::opening::{Pair, checked_column};
use crate::column_files::rows::no_line;
use crate::io::input::name_of;
use crate::io::noticing::Noticing;
use crate::io::report;
use crate::io::report::Tell;
use intaglio_columns::dictionary::Dictionary;
use intaglio_columns::error::RowsError;
use intaglio_columns::rows::{RowRange, write_rows};
use intaglio_columns::{Column, MISSING};
use std::io::Write;

// How many rows are decoded at a time.
const CHUNK: usize = 64 * 1024;

/// Writes the line of each row of a column, after a check of all of it, and returns how many rows there are.
/// Otherwise the exit status after a message: nothing is written if the column is of another dictionary, or a
/// row is missing and missing rows have no line.
pub fn decode_file<R: Tell + AllocGlobal, D: Dictionary, W: Write>(
    rt: &R,
    table: &D,
    pair: Pair<'_>,
    missing: Option<&[u8]>,
    output_name: &str,
    output: &mut Noticing<W>,
) -> Result<u64, u8> {
    match checked_column(rt, pair) {
        Ok(column) => {
            if missing.is_none() {
                check_missing(rt, &column, pair.name)?;
            }
            write_all(rt, table, &column, pair.name, missing, output_name, output)
        }
        Err(status) => Err(status),
    }
}

// Refuses missing rows, by the first.
fn check_missing<R: Tell>(rt: &R, column: &Column<'_>, name: &str) -> Result<(), u8> {
    let mut first = [0];
    if column.rows_into(MISSING, &mut first) == 0 {
        return Ok(());
    }
    Err(no_line(rt, name, first[0], Some(MISSING)))
}

// Writes the lines of all rows, some at a time.
fn write_all<R: Tell + AllocGlobal, D: Dictionary, W: Write>(
    rt: &R,
    table: &D,
    column: &Column<'_>,
    name: &str,
    missing: Option<&[u8]>,
    output_name: &str,
    output: &mut Noticing<W>,
) -> Result<u64, u8> {
    let count = column.len();
    for chunk in 0..count.div_ceil(CHUNK) {
        let first = chunk.saturating_mul(CHUNK);
        let last = first.saturating_add(CHUNK).min(count).saturating_sub(1);
        let ranges = [RowRange { first, last }];
        match write_rows(rt.alloc(), table, column, &ranges, missing, output) {
            Ok(()) => {}
            Err(RowsError::Stream(fault)) => {
                return Err(report::stopped(rt, fault, output_name, output.error));
            }
            Err(RowsError::NoLine(row)) => return Err(no_line(
                rt,
                name,
                row,
                column.code(row as usize),
            )),
            Err(fault) => return Err(report::failed(rt, name_of(name), fault)),
        }
    }
    Ok(count as u64)
}
