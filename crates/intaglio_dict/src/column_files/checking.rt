//! Checks whether a column belongs to the dictionary that was checked before it, and writes statistics of a
//! column.
use crate::column_files::opening::{Pair, checked_column, no_column, other_dictionary};
use crate::dictionaries::Reference;
use crate::io::input::name_of;
use crate::io::noticing::Noticing;
use crate::io::output::ended;
use crate::io::report;
use crate::io::report::Tell;
use intaglio_columns::{Column, MISSING};
use intaglio_lines::error::StreamError;
use std::io;
use std::io::Write;

/// The last dictionary among those that are checked.
#[derive(Clone, Copy)]
pub struct LastDictionary<'a> {
    /// Its name.
    pub name: &'a str,
    /// What its columns say of it, if it is one.
    pub reference: Option<Reference>,
}

/// Checks a column, which must be of the last dictionary before it. Otherwise the exit
/// status after a message: of bytes that are no column, whatever that dictionary is, and
/// else of a column of another dictionary.
pub fn check_column<R: Tell>(
    rt: &R,
    last: Option<LastDictionary<'_>>,
    name: &str,
    bytes: &[u8],
) -> Result<(), u8> {
    let Some(last) = last else {
        return Err(report::failed(
            rt,
            name_of(name),
            "a column, and no dictionary before it; name its dictionary first",
        ));
    };
    let Some(reference) = last.reference else {
        return Err(of_no_dictionary(rt, last.name, name, bytes));
    };
    let pair = Pair {
        dictionary: last.name,
        reference,
        name,
        bytes,
    };
    checked_column(rt, pair)?;
    Ok(())
}

// Of bytes after a file that is no dictionary. A whole column is one of another dictionary.
fn of_no_dictionary<R: Tell>(rt: &R, dictionary: &str, name: &str, bytes: &[u8]) -> u8 {
    match Column::open(bytes) {
        Ok(_) => other_dictionary(rt, dictionary, name),
        Err(fault) => no_column(rt, name, fault),
    }
}

/// Writes the kind and the number of the dictionary's strings, how many rows there are and how many of them
/// are missing, how many bytes a code has, and the bytes of the file. Returns the exit status.
pub fn stat_column<R: Print + Tell + AllocGlobal>(rt: &R, name: &str, bytes: &[u8]) -> u8 {
    match Column::open(bytes) {
        Ok(column) => write_stat(rt, &column, bytes.len()),
        Err(fault) => no_column(rt, name, fault),
    }
}

fn write_stat<R: Print + Tell + AllocGlobal>(rt: &R, column: &Column<'_>, length: usize) -> u8 {
    let id = column.id();
    let mut output = Noticing::new(io::writer(rt));
    let written = writeln!(
        &mut output,
        "column\nkind {}\nstrings {}\nrows {}\nmissing {}\nwidth {}\nbytes {}\n\
         identity {:016x}{:016x}\nshards {}",
        if id.is_text { "text" } else { "bytes" },
        id.count,
        column.len(),
        column.rows_into(MISSING, &mut []),
        column.width().bytes(),
        length,
        id.hash0,
        id.hash1,
        column.header().shards
    );
    let answer = match written {
        Ok(()) => Ok(()),
        Err(_) => Err(StreamError::Write),
    };
    ended(rt, answer, output.error)
}
