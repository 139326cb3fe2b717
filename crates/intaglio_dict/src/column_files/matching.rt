//! The subcommand that finds the rows of strings.
use crate::column_files::opening::{Question, ask};
use crate::io::noticing::Noticing;
use crate::io::output::OUTPUT;
use crate::io::report;
use crate::io::report::Tell;
use clap::ArgMatches;
use intaglio_columns::dictionary::Dictionary;
use intaglio_columns::matching::{filter_of, write_selected};
use intaglio_columns::{Column, RowFilter};
use intaglio_lines::error::StreamError;
use std::io;
use std::io::Write;
use std::rt::Files;

// Which rows are asked for.
#[derive(Drop)]
struct Matching<'a> {
    strings: &'a [&'a str],
    // Whether all rows but those of the strings are.
    inverts: bool,
    // Whether only their number is.
    is_count: bool,
}

/// Writes the numbers of the rows of strings, and returns the exit status, as `grep` has it: 1 if there
/// are none, and 2 after an error.
pub fn match_rows<R: Files + Input + Print + Tell + AllocGlobal>(
    rt: &R,
    found: &ArgMatches<'_>,
) -> u8 {
    let matching = Matching {
        strings: found.get_strs("STRING").unwrap_or(&[]),
        inverts: found.get_flag("INVERT"),
        is_count: found.get_flag("COUNT"),
    };
    match ask(rt, found, &matching) {
        Ok(true) => 0,
        Ok(false) => 1,
        Err(status) => status.max(2),
    }
}

impl<R: Print + Tell + AllocGlobal> Question<R> for Matching<'_> {
    fn answer<D: Dictionary>(
        &self,
        rt: &R,
        table: &D,
        column: &Column<'_>,
        _name: &str,
    ) -> Result<bool, u8> {
        match filter_of(rt.alloc(), table, column, self.strings, self.inverts) {
            Ok(filter) => self.write(rt, column, &filter),
            Err(_) => Err(report::out_of_memory(rt)),
        }
    }
}

impl Matching<'_> {
    // Writes the rows that are selected, or their number, and returns whether there are any.
    fn write<R: Print + Tell + AllocGlobal>(
        &self,
        rt: &R,
        column: &Column<'_>,
        filter: &RowFilter,
    ) -> Result<bool, u8> {
        let mut output = Noticing::new(io::writer(rt));
        let written = if self.is_count {
            write_number(column.count_rows(filter), &mut output)
        } else {
            write_selected(rt.alloc(), column, filter, &mut output)
        };
        match written {
            Ok(()) => Ok(column.next_selected(filter, 0).is_some()),
            Err(fault) => Err(report::stopped(rt, fault, OUTPUT, output.error)),
        }
    }
}

fn write_number<W: Write>(number: u64, output: &mut W) -> Result<(), StreamError> {
    match writeln!(output, "{number}") {
        Ok(()) => Ok(()),
        Err(_) => Err(StreamError::Write),
    }
}
