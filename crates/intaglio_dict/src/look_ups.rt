//! The subcommands that look lines or symbols up.
use crate::dictionaries::{DictionaryBytes, first_dictionary, not_trusted, open_shards};
use crate::io::input::{STANDARD_INPUT, name_of};
use crate::io::metered::{Meter, Metered};
use crate::io::noticing::Noticing;
use crate::io::output::OUTPUT;
use crate::io::report;
use crate::io::report::Tell;
use crate::io::symbols::{read_symbols, typed_symbols};
use crate::io::tables::checked;
use clap::ArgMatches;
use intaglio_columns::dictionary::Dictionary;
use intaglio_columns::error::DictionaryError;
use intaglio_columns::look_up::{find_lines, write_strings};
use intaglio_frozen::TrustedFrozen;
use intaglio_symbol::Symbol;
use std::io;
use std::rt::Files;

/// Writes the symbols of lines, and returns the exit status, as `grep` has it: 1 if some lines
/// weren't found, and 2 after an error.
pub fn find<R: Files + Input + Print + Tell + AllocGlobal>(rt: &R, found: &ArgMatches<'_>) -> u8 {
    match find_all(rt, found) {
        Ok(true) => 0,
        Ok(false) => 1,
        Err(status) => status.max(2),
    }
}

fn find_all<R: Files + Input + Print + Tell + AllocGlobal>(
    rt: &R,
    found: &ArgMatches<'_>,
) -> Result<bool, u8> {
    let (name, dictionary) = first_dictionary(rt, found)?;
    let names = found.get_strs("FILE").unwrap_or(STANDARD_INPUT);
    let is_trusted = found.get_flag("TRUSTED");
    match dictionary {
        DictionaryBytes::OfFile(bytes) => find_by(rt, is_trusted, name, &bytes, names),
        DictionaryBytes::OfShards(_) if is_trusted => Err(not_trusted(rt, name)),
        DictionaryBytes::OfShards(all) => match open_shards(rt, name, &all) {
            Ok(shards) => find_in_files(rt, &shards, names),
            Err(status) => Err(status),
        },
    }
}

// Opens the dictionary in these bytes, and looks the lines up.
fn find_by<R: Files + Input + Print + Tell + AllocGlobal>(
    rt: &R,
    is_trusted: bool,
    name: &str,
    bytes: &[u8],
    names: &[&str],
) -> Result<bool, u8> {
    if is_trusted {
        match trusted(rt, name, bytes) {
            Ok(table) => find_in_files(rt, &table, names),
            Err(status) => Err(status),
        }
    } else {
        match checked(rt, name, bytes) {
            Ok(table) => find_in_files(rt, &table, names),
            Err(status) => Err(status),
        }
    }
}

// The dictionary in these bytes, after a check of its header. Otherwise the exit status after a message.
fn trusted<'a, R: Tell>(rt: &R, name: &str, bytes: &'a [u8]) -> Result<TrustedFrozen<'a>, u8> {
    match TrustedFrozen::open(bytes) {
        Ok(table) => Ok(table),
        Err(fault) => Err(report::failed(rt, name_of(name), fault)),
    }
}

// Whether all lines of the files were found.
fn find_in_files<R: Files + Input + Print + Tell + AllocGlobal, D: Dictionary>(
    rt: &R,
    table: &D,
    names: &[&str],
) -> Result<bool, u8> {
    let mut all = true;
    for name in names {
        let found = find_in(rt, table, name)?;
        all = all && found;
    }
    Ok(all)
}

fn find_in<R: Files + Input + Print + Tell + AllocGlobal, D: Dictionary>(
    rt: &R,
    table: &D,
    name: &str,
) -> Result<bool, u8> {
    let mut input = Metered::open(rt, name, Meter::silent())?;
    let mut output = Noticing::new(io::writer(rt));
    match find_lines(rt.alloc(), table, &mut input, &mut output) {
        Ok(all) => Ok(all),
        Err(fault) => {
            let (read, written) = ((name_of(name), input.error), (OUTPUT, output.error));
            Err(report::stopped_one(rt, fault, read, written))
        }
    }
}

/// Writes the strings of symbols. Otherwise the exit status after a message.
pub fn get<R: Files + Input + Print + Tell + AllocGlobal>(
    rt: &R,
    found: &ArgMatches<'_>,
) -> Result<(), u8> {
    let typed = typed_symbols(rt, found)?;
    let (name, dictionary) = first_dictionary(rt, found)?;
    let is_trusted = found.get_flag("TRUSTED");
    match dictionary {
        DictionaryBytes::OfFile(bytes) => get_by(rt, is_trusted, name, &bytes, typed),
        DictionaryBytes::OfShards(_) if is_trusted => Err(not_trusted(rt, name)),
        DictionaryBytes::OfShards(all) => match open_shards(rt, name, &all) {
            Ok(shards) => get_from(rt, &shards, name, typed),
            Err(status) => Err(status),
        },
    }
}

// Opens the dictionary in these bytes, and writes the strings.
fn get_by<R: Files + Input + Print + Tell + AllocGlobal>(
    rt: &R,
    is_trusted: bool,
    name: &str,
    bytes: &[u8],
    typed: Option<Vec<Symbol>>,
) -> Result<(), u8> {
    if is_trusted {
        match trusted(rt, name, bytes) {
            Ok(table) => get_from(rt, &table, name, typed),
            Err(status) => Err(status),
        }
    } else {
        match checked(rt, name, bytes) {
            Ok(table) => get_from(rt, &table, name, typed),
            Err(status) => Err(status),
        }
    }
}

// Writes the strings of these symbols, or of those on standard input.
fn get_from<R: Files + Input + Print + Tell + AllocGlobal, D: Dictionary>(
    rt: &R,
    table: &D,
    name: &str,
    typed: Option<Vec<Symbol>>,
) -> Result<(), u8> {
    let symbols = match typed {
        Some(symbols) => symbols,
        None => read_symbols(rt)?,
    };
    let mut output = Noticing::new(io::writer(rt));
    match write_strings(rt.alloc(), table, &symbols, &mut output) {
        Ok(()) => Ok(()),
        Err(DictionaryError::Stream(fault)) => Err(report::stopped(
            rt,
            fault,
            OUTPUT,
            output.error,
        )),
        Err(DictionaryError::NoString(number)) => Err(report::no_string(rt, name_of(name), number)),
    }
}
