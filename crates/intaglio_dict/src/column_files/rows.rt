//! The subcommand that writes lines by the numbers of their rows.
use crate::column_files::excerpt::{OpenColumn, is_file, open_column};
use crate::column_files::opening::{Question, ask, no_column, other_dictionary};
use crate::dictionaries::{DictionaryBytes, Reference, first_dictionary, not_trusted};
use crate::io::input::name_of;
use crate::io::noticing::Noticing;
use crate::io::output::OUTPUT;
use crate::io::report;
use crate::io::report::Tell;
use crate::io::symbols::plain_number;
use clap::ArgMatches;
use intaglio_columns::Column;
use intaglio_columns::codes::MISSING;
use intaglio_columns::dictionary::Dictionary;
use intaglio_columns::error::RowsError;
use intaglio_columns::rows::{RowRange, write_rows};
use intaglio_frozen::TrustedFrozen;
use std::io;
use std::rt::Files;

// Which rows are asked for.
#[derive(Drop)]
struct RowsAsked<'a> {
    ranges: &'a [RowRange],
    // The line of missing rows, if they have one.
    missing: Option<&'a [u8]>,
}

/// Writes the lines of rows. Otherwise the exit status after a message.
pub fn rows<R: Files + Input + Print + Tell + AllocGlobal>(
    rt: &R,
    found: &ArgMatches<'_>,
) -> Result<(), u8> {
    let missing = missing_text(rt, found)?;
    let ranges = typed_ranges(rt, found)?;
    let rows = RowsAsked {
        ranges: &ranges,
        missing,
    };
    if let Some(name) = found.get_str("COLUMN") {
        if found.get_flag("TRUSTED") && is_file(rt, name) {
            return rows_of_file(rt, found, name, &rows);
        }
    }
    match ask(rt, found, &rows) {
        Ok(_) => Ok(()),
        Err(status) => Err(status),
    }
}

// Writes the lines of rows of a file of which nothing else is read but its header.
fn rows_of_file<R: Files + Input + Print + Tell + AllocGlobal>(
    rt: &R,
    found: &ArgMatches<'_>,
    name: &str,
    rows: &RowsAsked<'_>,
) -> Result<(), u8> {
    let (dictionary, table) = first_dictionary(rt, found)?;
    let reference = table.reference(rt, dictionary)?;
    match table {
        DictionaryBytes::OfFile(bytes) => rows.answer_trusted(
            rt, name, dictionary, reference, &bytes,
        ),
        DictionaryBytes::OfShards(_all) => Err(not_trusted(rt, dictionary)),
    }
}

impl RowsAsked<'_> {
    // From a dictionary in these bytes, which are trusted.
    fn answer_trusted<R: Files + Print + Tell + AllocGlobal>(
        &self,
        rt: &R,
        name: &str,
        dictionary: &str,
        reference: Reference,
        bytes: &[u8],
    ) -> Result<(), u8> {
        let file = open_column(rt, name)?;
        if Reference::of_column(&file.header) != reference {
            return Err(other_dictionary(rt, dictionary, name));
        }
        match TrustedFrozen::open(bytes) {
            Ok(opened) => self.answer_from_file(rt, name, file, &opened),
            Err(fault) => Err(report::failed(rt, name_of(dictionary), fault)),
        }
    }

    fn answer_from_file<R: Files + Print + Tell + AllocGlobal>(
        &self,
        rt: &R,
        name: &str,
        mut file: OpenColumn<R::File>,
        opened: &TrustedFrozen<'_>,
    ) -> Result<(), u8> {
        for range in self.ranges {
            if range.last as u64 >= file.header.rows {
                return Err(no_row(rt, name, range.last as u64, file.header.rows));
            }
        }
        match file.excerpt(rt.alloc(), self.ranges) {
            Ok(bytes) => self.answer_from(rt, name, opened, &bytes),
            Err(e) => Err(report::of_file(rt, name, e)),
        }
    }

    // From the bytes of a column that has these rows alone.
    fn answer_from<R: Print + Tell + AllocGlobal>(
        &self,
        rt: &R,
        name: &str,
        table: &TrustedFrozen<'_>,
        bytes: &[u8],
    ) -> Result<(), u8> {
        match Column::open_trusted(bytes) {
            Ok(column) => {
                let all = [RowRange {
                    first: 0,
                    last: column.len().saturating_sub(1),
                }];
                self.write(rt, table, &column, &all, name)
            }
            Err(fault) => Err(no_column(rt, name, fault)),
        }
    }

    // Writes the lines of ranges of a column that has all rows, or only those that are asked for.
    fn write<R: Print + Tell + AllocGlobal, D: Dictionary>(
        &self,
        rt: &R,
        table: &D,
        column: &Column<'_>,
        ranges: &[RowRange],
        name: &str,
    ) -> Result<(), u8> {
        let mut output = Noticing::new(io::writer(rt));
        match write_rows(rt.alloc(), table, column, ranges, self.missing, &mut output) {
            Ok(()) => Ok(()),
            Err(RowsError::Stream(fault)) => Err(report::stopped(rt, fault, OUTPUT, output.error)),
            Err(RowsError::NoRow(row)) => Err(no_row(rt, name, row, column.len() as u64)),
            Err(RowsError::NoLine(row)) => {
                let code = column.code(row as usize);
                let asked = self.row_asked(row, ranges);
                Err(no_line(rt, name, asked, code))
            }
        }
    }

    // The number of a row, if the column has only the rows that are asked for.
    fn row_asked(&self, row: u64, ranges: &[RowRange]) -> u64 {
        if ranges == self.ranges {
            return row;
        }
        let mut left = row;
        for range in self.ranges {
            let count = (range.last as u64)
                .saturating_add(1)
                .saturating_sub(range.first as u64);
            if left < count {
                return (range.first as u64).saturating_add(left);
            }
            left -= count;
        }
        row
    }
}

/// The line of missing rows, if there is one among the arguments. Otherwise the exit status after a message.
pub fn missing_text<'a, R: Tell>(rt: &R, found: &ArgMatches<'a>) -> Result<Option<&'a [u8]>, u8> {
    let missing = found.get_str("TEXT").map(|text| text.as_bytes());
    if missing.is_some_and(|text| text.contains(&b'\n')) {
        return Err(report::line_end(rt));
    }
    Ok(missing)
}

// The rows among the arguments.
fn typed_ranges<R: Tell + AllocGlobal>(
    rt: &R,
    found: &ArgMatches<'_>,
) -> Result<Vec<RowRange>, u8> {
    let mut ranges = Vec::new(rt.alloc());
    for typed in found.get_strs("ROW").unwrap_or(&[]) {
        let Some(range) = range_of(typed) else {
            return Err(no_rows(rt, typed));
        };
        if ranges.push(range).is_err() {
            return Err(report::out_of_memory(rt));
        }
    }
    Ok(ranges)
}

// A row, or the first and the last of several.
fn range_of(typed: &str) -> Option<RowRange> {
    let (first, last) = match typed.split_once('-') {
        Some((first, last)) => (row_of(first)?, row_of(last)?),
        None => (row_of(typed)?, row_of(typed)?),
    };
    if first <= last {
        Some(RowRange { first, last })
    } else {
        None
    }
}

fn row_of(typed: &str) -> Option<usize> {
    match usize::try_from(plain_number(typed)?) {
        Ok(row) => Some(row),
        Err(_) => None,
    }
}

impl<R: Print + Tell + AllocGlobal> Question<R> for RowsAsked<'_> {
    fn answer<D: Dictionary>(
        &self,
        rt: &R,
        table: &D,
        column: &Column<'_>,
        name: &str,
    ) -> Result<bool, u8> {
        self.write(rt, table, column, self.ranges, name)?;
        Ok(true)
    }
}

// Of a word that names no rows.
fn no_rows<R: Tell>(rt: &R, typed: &str) -> u8 {
    report::say(
        rt,
        format_args!(
            "'{typed}' names no rows: a number is needed, or the first and the last, as in 10-20"
        ),
    );
    2
}

// Of a row behind the last one.
fn no_row<R: Tell>(rt: &R, name: &str, row: u64, count: u64) -> u8 {
    report::failed(
        rt,
        name_of(name),
        format_args!("no row {row}: there are {count} rows, counted from 0"),
    )
}

/// Of a row without a line, which has this code.
pub fn no_line<R: Tell>(rt: &R, name: &str, row: u64, code: Option<u32>) -> u8 {
    match code {
        Some(MISSING) => report::failed(
            rt,
            name_of(name),
            format_args!(
                "row {row} is missing: its line wasn't in the dictionary; --missing TEXT gives it a line"
            ),
        ),
        _ => report::failed(
            rt,
            name_of(name),
            format_args!(
                "row {row} has a code that is no symbol; without --trusted all is checked"
            ),
        ),
    }
}
