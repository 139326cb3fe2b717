//! Opens a column and its dictionary, and refuses those that don't belong together.
use crate::dictionaries::{DictionaryBytes, Reference, first_dictionary, not_trusted, open_shards};
use crate::io::input::{first_input, name_of};
use crate::io::report;
use crate::io::report::Tell;
use crate::io::tables::checked;
use clap::ArgMatches;
use intaglio_columns::dictionary::Dictionary;
use intaglio_columns::{Column, ColumnError};
use intaglio_frozen::TrustedFrozen;
use std::rt::Files;

/// What is asked of a column and its dictionary.
pub trait Question<R> {
    /// Answers it. Otherwise the exit status after a message.
    fn answer<D: Dictionary>(
        &self,
        rt: &R,
        table: &D,
        column: &Column<'_>,
        name: &str,
    ) -> Result<bool, u8>;
}

/// The name and the bytes of a column, and its dictionary.
#[derive(Clone, Copy)]
pub struct Pair<'a> {
    /// The name of the dictionary.
    pub dictionary: &'a str,
    /// What a column of this dictionary says of it.
    pub reference: Reference,
    /// The name of the column.
    pub name: &'a str,
    /// The bytes of the column.
    pub bytes: &'a [u8],
}

/// Answers a question about the column and the dictionary that the arguments name.
/// Otherwise the exit status after a message.
pub fn ask<R: Files + Input + Tell + AllocGlobal, Q: Question<R>>(
    rt: &R,
    found: &ArgMatches<'_>,
    question: &Q,
) -> Result<bool, u8> {
    let (dictionary, table) = first_dictionary(rt, found)?;
    let is_trusted = found.get_flag("TRUSTED");
    if is_trusted && table.is_folder() {
        return Err(not_trusted(rt, dictionary));
    }
    let (name, bytes) = first_input(rt, found, "COLUMN")?;
    let pair = Pair {
        dictionary,
        reference: table.reference(rt, dictionary)?,
        name,
        bytes: &bytes,
    };
    match table {
        DictionaryBytes::OfFile(table) if is_trusted => ask_trusted(rt, pair, &table, question),
        DictionaryBytes::OfFile(table) => ask_checked(rt, pair, &table, question),
        DictionaryBytes::OfShards(all) => ask_shards(rt, pair, &all, question),
    }
}

fn ask_checked<R: Tell, Q: Question<R>>(
    rt: &R,
    pair: Pair<'_>,
    table: &[u8],
    question: &Q,
) -> Result<bool, u8> {
    match checked(rt, pair.dictionary, table) {
        Ok(opened) => ask_of(rt, pair, &opened, question),
        Err(status) => Err(status),
    }
}

fn ask_shards<R: Tell + AllocGlobal, Q: Question<R>>(
    rt: &R,
    pair: Pair<'_>,
    all: &[Vec<u8>],
    question: &Q,
) -> Result<bool, u8> {
    match open_shards(rt, pair.dictionary, all) {
        Ok(shards) => ask_of(rt, pair, &shards, question),
        Err(status) => Err(status),
    }
}

fn ask_of<R: Tell, D: Dictionary, Q: Question<R>>(
    rt: &R,
    pair: Pair<'_>,
    table: &D,
    question: &Q,
) -> Result<bool, u8> {
    match checked_column(rt, pair) {
        Ok(column) => question.answer(rt, table, &column, pair.name),
        Err(status) => Err(status),
    }
}

fn ask_trusted<R: Tell, Q: Question<R>>(
    rt: &R,
    pair: Pair<'_>,
    table: &[u8],
    question: &Q,
) -> Result<bool, u8> {
    match TrustedFrozen::open(table) {
        Ok(opened) => ask_of_trusted(rt, pair, &opened, question),
        Err(fault) => Err(report::failed(rt, name_of(pair.dictionary), fault)),
    }
}

fn ask_of_trusted<R: Tell, Q: Question<R>>(
    rt: &R,
    pair: Pair<'_>,
    opened: &TrustedFrozen<'_>,
    question: &Q,
) -> Result<bool, u8> {
    match of_dictionary(rt, pair, Column::open_trusted(pair.bytes)) {
        Ok(column) => question.answer(rt, opened, &column, pair.name),
        Err(status) => Err(status),
    }
}

/// The column, after a check of all of it and of whether it is of this dictionary.
/// Otherwise the exit status after a message.
pub fn checked_column<'a, R: Tell>(rt: &R, pair: Pair<'a>) -> Result<Column<'a>, u8> {
    of_dictionary(rt, pair, Column::open(pair.bytes))
}

// A column that was opened, if it is of this dictionary.
fn of_dictionary<'a, R: Tell>(
    rt: &R,
    pair: Pair<'a>,
    opened: Result<Column<'a>, ColumnError>,
) -> Result<Column<'a>, u8> {
    match opened {
        Ok(column) if Reference::of_column(&column.header()) == pair.reference => Ok(column),
        Ok(_) => Err(other_dictionary(rt, pair.dictionary, pair.name)),
        Err(fault) => Err(no_column(rt, pair.name, fault)),
    }
}

/// Of bytes that are no column.
pub fn no_column<R: Tell>(rt: &R, name: &str, fault: ColumnError) -> u8 {
    match fault {
        ColumnError::Magic => report::failed(
            rt,
            name_of(name),
            "not a column; encode writes one, and freeze and merge do",
        ),
        _ => report::failed(rt, name_of(name), fault),
    }
}

/// Of a column of another dictionary.
pub fn other_dictionary<R: Tell>(rt: &R, dictionary: &str, name: &str) -> u8 {
    let dictionary = name_of(dictionary);
    report::failed(
        rt,
        name_of(name),
        format_args!(
            "a column of another dictionary than {dictionary}; name the one that it was written with"
        ),
    )
}
