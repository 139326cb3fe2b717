//! What each subcommand does.
use crate::column_files::checking::{LastDictionary, check_column, stat_column};
use crate::column_files::counting::count;
use crate::column_files::matching::match_rows;
use crate::column_files::rows::rows;
use crate::columns::{decode_codes, encode_lines};
use crate::dictionaries::{
    DictionaryBytes, Reference, first_dictionary, header_of, open_shards, read_dictionary,
};
use crate::freezing::freeze;
use crate::io::command::files_of;
use crate::io::noticing::Noticing;
use crate::io::output::ended;
use crate::io::report;
use crate::io::report::Tell;
use crate::io::tables::checked;
use crate::look_ups::{find, get};
use crate::merging::merge_dictionaries;
use crate::renumbering::renumber;
use clap::ArgMatches;
use intaglio_columns::begins_as_column;
use intaglio_columns::dictionary::WholeDictionary;
use intaglio_columns::look_up::list;
use intaglio_columns::size::size_of_strings;
use intaglio_frozen::{FrozenKind, Header};
use intaglio_lines::error::StreamError;
use std::io;
use std::io::Write;
use std::random::RandomSource;
use std::rt::Files;

/// Runs the subcommand, and returns the exit status.
pub fn run<R: Files + RandomSource + Input + Print + Tell + AllocGlobal>(
    rt: &R,
    matches: &ArgMatches<'_>,
) -> u8 {
    match matches.subcommand() {
        Some((name, found)) => run_on_files(rt, name, found),
        None => 2,
    }
}

// Checks the subcommand's files, and runs it.
fn run_on_files<R: Files + RandomSource + Input + Print + Tell + AllocGlobal>(
    rt: &R,
    name: &str,
    found: &ArgMatches<'_>,
) -> u8 {
    let Ok(mut files) = files_of(rt.alloc(), name, found) else {
        return report::out_of_memory(rt);
    };
    match files.check(rt) {
        Ok(()) => run_subcommand(rt, name, found),
        Err(status) => status,
    }
}

// Runs the subcommand with this name. Over pairs of a name and its arguments, the proof of the match takes
// five times as long.
fn run_subcommand<R: Files + RandomSource + Input + Print + Tell + AllocGlobal>(
    rt: &R,
    name: &str,
    found: &ArgMatches<'_>,
) -> u8 {
    match name {
        "freeze" => status_of(freeze(rt, found)),
        "find" => find(rt, found),
        "get" => status_of(get(rt, found)),
        "encode" => status_of(encode_lines(rt, found)),
        "decode" => status_of(decode_codes(rt, found)),
        "merge" => status_of(merge_dictionaries(rt, found)),
        "renumber" => status_of(renumber(rt, found)),
        "rows" => status_of(rows(rt, found)),
        "count" => status_of(count(rt, found)),
        "match" => match_rows(rt, found),
        "check" => check(rt, found),
        _ => on_dictionary(rt, name, found),
    }
}

fn status_of(done: Result<(), u8>) -> u8 {
    match done {
        Ok(()) => 0,
        Err(status) => status,
    }
}

// Goes on after a file that is no dictionary, nor a column of the last dictionary before it.
fn check<R: Files + Input + Tell + AllocGlobal>(rt: &R, found: &ArgMatches<'_>) -> u8 {
    let mut status = 0;
    let mut last = None;
    if let Some(names) = found.get_strs("DICT") {
        for name in names {
            status = check_one(rt, name, &mut last).max(status);
        }
    }
    status
}

fn check_one<'a, R: Files + Input + Tell + AllocGlobal>(
    rt: &R,
    name: &'a str,
    last: &mut Option<LastDictionary<'a>>,
) -> u8 {
    match read_dictionary(rt, name) {
        Ok(bytes) => check_bytes(rt, name, &bytes, last),
        Err(status) => status,
    }
}

fn check_bytes<'a, R: Tell + AllocGlobal>(
    rt: &R,
    name: &'a str,
    bytes: &DictionaryBytes,
    last: &mut Option<LastDictionary<'a>>,
) -> u8 {
    if let DictionaryBytes::OfFile(file) = bytes {
        if begins_as_column(file) {
            return status_of(check_column(rt, *last, name, file));
        }
    }
    let checked = check_dictionary(rt, name, bytes);
    *last = Some(LastDictionary {
        name,
        reference: checked.ok().flatten(),
    });
    status_of(checked.map(|_| ()))
}

// What columns say of the dictionary in these bytes, after a check of all of them: nothing of one shard of
// several. Otherwise the exit status after a message.
fn check_dictionary<R: Tell + AllocGlobal>(
    rt: &R,
    name: &str,
    bytes: &DictionaryBytes,
) -> Result<Option<Reference>, u8> {
    match bytes {
        DictionaryBytes::OfFile(file) => {
            checked(rt, name, file)?;
            let header = header_of(rt, name, file)?;
            Ok((header.place.shards == 1).then(|| Reference::of(&header)))
        }
        DictionaryBytes::OfShards(all) => {
            open_shards(rt, name, all)?;
            Ok(Some(bytes.reference(rt, name)?))
        }
    }
}

// Opens the dictionary, and runs a command that reads it alone.
fn on_dictionary<R: Files + Input + Print + Tell + AllocGlobal>(
    rt: &R,
    command: &str,
    found: &ArgMatches<'_>,
) -> u8 {
    match first_dictionary(rt, found) {
        Ok((name, DictionaryBytes::OfFile(bytes)))
            if command == "stat" && begins_as_column(&bytes) => { stat_column(rt, name, &bytes) }
        Ok((name, DictionaryBytes::OfFile(bytes))) => on_file(rt, command, name, &bytes),
        Ok((name, DictionaryBytes::OfShards(all))) => on_shards(rt, command, name, &all),
        Err(status) => status,
    }
}

fn on_file<R: Print + Tell + AllocGlobal>(rt: &R, command: &str, name: &str, bytes: &[u8]) -> u8 {
    match checked(rt, name, bytes) {
        Ok(table) if command == "list" => list_all(rt, &table),
        Ok(table) => stat(rt, &table, name, bytes, bytes.len() as u64),
        Err(status) => status,
    }
}

fn on_shards<R: Print + Tell + AllocGlobal>(
    rt: &R,
    command: &str,
    name: &str,
    all: &[Vec<u8>],
) -> u8 {
    match open_shards(rt, name, all) {
        Ok(shards) if command == "list" => list_all(rt, &shards),
        Ok(shards) => match all.first() {
            Some(first) => stat(rt, &shards, name, first, length_of(all)),
            None => 2,
        },
        Err(status) => status,
    }
}

// How many bytes these shards have together.
fn length_of(all: &[Vec<u8>]) -> u64 {
    all.iter()
        .map(|bytes| bytes.len() as u64)
        .fold(0, |sum, n| sum.saturating_add(n))
}

fn list_all<R: Print + Tell + AllocGlobal, D: WholeDictionary>(rt: &R, table: &D) -> u8 {
    let mut output = Noticing::new(io::writer(rt));
    let answer = list(rt.alloc(), table, &mut output);
    ended(rt, answer, output.error)
}

// Writes what a dictionary has, whose first file has these bytes, of so many in all its files.
fn stat<R: Print + Tell + AllocGlobal, D: WholeDictionary>(
    rt: &R,
    table: &D,
    name: &str,
    first: &[u8],
    length: u64,
) -> u8 {
    match header_of(rt, name, first) {
        Ok(header) => {
            let mut output = Noticing::new(io::writer(rt));
            let is_shard = header.place.shards > 1 && first.len() as u64 == length;
            let answer = write_stat(&mut output, table, &header, length, is_shard);
            ended(rt, answer, output.error)
        }
        Err(status) => status,
    }
}

fn write_stat<W: Write, D: WholeDictionary>(
    output: &mut W,
    table: &D,
    header: &Header,
    length: u64,
    is_shard: bool,
) -> Result<(), StreamError> {
    let size = size_of_strings(table);
    let tenths = length.saturating_mul(10) / size.count.max(1);
    let place = header.place;
    let written = writeln!(
        output,
        "kind {}\nstrings {}\nbytes {}\nbytes a string {}.{}\nlongest {}\n\
         identity {:016x}{:016x}\nshards {}",
        name_of_kind(header.kind == FrozenKind::Text),
        size.count,
        length,
        tenths / 10,
        tenths % 10,
        size.longest,
        place.set.hash0,
        place.set.hash1,
        place.shards
    );
    if written.is_err() || is_shard && writeln!(output, "shard {}", place.shard).is_err() {
        return Err(StreamError::Write);
    }
    Ok(())
}

/// What freeze calls a kind.
pub fn name_of_kind(is_text: bool) -> &'static str {
    if is_text { "text" } else { "bytes" }
}
