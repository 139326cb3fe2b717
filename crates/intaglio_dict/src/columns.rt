//! The subcommands that translate columns: lines to codes, and codes to lines.
use crate::column_files::decoding::decode_file;
use crate::column_files::opening::Pair;
use crate::column_files::rows::missing_text;
use crate::dictionaries::{DictionaryBytes, Reference, first_dictionary, open_shards};
use crate::freezing::write_lines;
use crate::io::input::{STANDARD, STANDARD_INPUT, meter_of, name_of, whole};
use crate::io::metered::{Meter, Metered};
use crate::io::noticing::Noticing;
use crate::io::output::{Payload, write_to};
use crate::io::report;
use crate::io::report::Tell;
use crate::io::tables::checked;
use crate::keeping::Keeping;
use crate::misfit::{no_string, no_symbol};
use clap::ArgMatches;
use intaglio_columns::codes::PlainCodes;
use intaglio_columns::columns::{decode_column, encode_column};
use intaglio_columns::dictionary::{Dictionary, WholeDictionary};
use intaglio_columns::error::CodesError;
use std::alloc::Global;
use std::io::{Read, Write};
use std::random::RandomSource;
use std::rt::Files;

// What is made of an input.
#[derive(Drop)]
enum Translation<'a, D> {
    // The plain code of each line, also of one that isn't in the dictionary if that is asked for.
    Encode(&'a D, bool),
    // The line of each plain code, and this text for a line that wasn't in the dictionary.
    Decode(&'a D, Option<&'a [u8]>),
}

impl<D: WholeDictionary> Translation<'_, D> {
    // How many lines or codes were translated.
    fn translate<I: Read, W: Write>(
        &self,
        alloc: Global,
        input: &mut I,
        output: &mut W,
    ) -> Result<u64, CodesError> {
        match self {
            Translation::Encode(table, missing) => encode_column(
                alloc, *table, *missing, input, output,
            ),
            Translation::Decode(table, missing) => {
                decode_column(alloc, *table, *missing, input, output)
            }
        }
    }

    // Whether it is made of codes.
    fn has_codes(&self) -> bool {
        match self {
            Translation::Encode(_, _) => false,
            Translation::Decode(_, _) => true,
        }
    }

    // Of a line or code that wasn't translated, which is among the bytes that were read last.
    fn report<R: Tell>(&self, rt: &R, name: &str, fault: CodesError, read: &[u8]) -> u8 {
        match fault {
            CodesError::NoSymbol(n) => match self {
                Translation::Encode(table, _) => no_symbol(rt, name, n, *table, read),
                Translation::Decode(_, _) => report::failed(rt, name, CodesError::NoSymbol(n)),
            },
            CodesError::NoString(n) => match self {
                Translation::Decode(table, text) => {
                    no_string(rt, name, n, *table, text.is_some(), read)
                }
                Translation::Encode(_, _) => report::failed(rt, name, CodesError::NoString(n)),
            },
            CodesError::ShortCode(n) => report::failed(
                rt,
                name,
                format_args!("code number {n} is cut short"),
            ),
            CodesError::Stream(error) => report::failed(rt, name, CodesError::Stream(error)),
        }
    }
}

// The translations of several inputs, one after the other.
#[derive(Drop)]
struct Translated<'a, D> {
    translation: Translation<'a, D>,
    names: &'a [&'a str],
    meter: Meter,
    count: u64,
}

impl<R: Files + Input + Tell + AllocGlobal, D: WholeDictionary> Payload<R> for Translated<'_, D> {
    fn write<W: Write>(&mut self, rt: &R, name: &str, output: &mut Noticing<W>) -> Result<(), u8> {
        for input in self.names {
            self.add(rt, input, name, output)?;
        }
        Ok(())
    }
}

impl<D: WholeDictionary> Translated<'_, D> {
    // Translates one input.
    fn add<R: Files + Input + Tell + AllocGlobal, W: Write>(
        &mut self,
        rt: &R,
        input_name: &str,
        name: &str,
        output: &mut Noticing<W>,
    ) -> Result<(), u8> {
        let input = Metered::open(rt, input_name, self.meter)?;
        let mut input = Keeping::new(rt, input, self.translation.has_codes());
        let translated = self.translation.translate(rt.alloc(), &mut input, output);
        self.meter = input.input.meter;
        match translated {
            Ok(count) => {
                self.count = self.count.saturating_add(count);
                Ok(())
            }
            Err(CodesError::Stream(fault)) => {
                let (read, written) = (
                    (name_of(input_name), input.input.error),
                    (name, output.error),
                );
                Err(report::stopped_one(rt, fault, read, written))
            }
            Err(fault) => Err(
                self.translation
                    .report(rt, name_of(input_name), fault, input.kept()),
            ),
        }
    }
}

// The lines of several columns, one after the other.
#[derive(Drop)]
struct Decoded<'a, D> {
    table: &'a D,
    // The name of the dictionary, and what its columns say of it.
    dictionary: &'a str,
    reference: Reference,
    missing: Option<&'a [u8]>,
    names: &'a [&'a str],
    meter: Meter,
    count: u64,
}

impl<R: Files + Input + Tell + AllocGlobal, D: Dictionary> Payload<R> for Decoded<'_, D> {
    fn write<W: Write>(&mut self, rt: &R, name: &str, output: &mut Noticing<W>) -> Result<(), u8> {
        for input in self.names {
            let bytes = whole(rt, input, &mut self.meter)?;
            let pair = Pair {
                dictionary: self.dictionary,
                reference: self.reference,
                name: input,
                bytes: &bytes,
            };
            let rows = decode_file(rt, self.table, pair, self.missing, name, output)?;
            self.count = self.count.saturating_add(rows);
        }
        Ok(())
    }
}

/// Writes the column of the lines of the inputs, or their plain codes. Otherwise the exit status after a
/// message.
pub fn encode_lines<R: Files + RandomSource + Input + Print + Tell + AllocGlobal>(
    rt: &R,
    found: &ArgMatches<'_>,
) -> Result<(), u8> {
    let (name, dictionary) = first_dictionary(rt, found)?;
    let reference = dictionary.reference(rt, name)?;
    match dictionary {
        DictionaryBytes::OfFile(bytes) => match checked(rt, name, &bytes) {
            Ok(table) => encode_with(rt, found, &table, reference),
            Err(status) => Err(status),
        },
        DictionaryBytes::OfShards(all) => match open_shards(rt, name, &all) {
            Ok(shards) => encode_with(rt, found, &shards, reference),
            Err(status) => Err(status),
        },
    }
}

// Encodes by a dictionary.
fn encode_with<R: Files + RandomSource + Input + Print + Tell + AllocGlobal, D: WholeDictionary>(
    rt: &R,
    found: &ArgMatches<'_>,
    table: &D,
    reference: Reference,
) -> Result<(), u8> {
    let names = found.get_strs("FILE").unwrap_or(STANDARD_INPUT);
    let output = found.get_str("OUT").unwrap_or(STANDARD);
    let mut lines = Translated {
        translation: Translation::Encode(table, found.get_flag("MISSING")),
        names,
        meter: meter_of(rt, names, found.get_flag("PROGRESS")),
        count: 0,
    };
    if found.get_flag("RAW") {
        write_to(rt, output, &mut lines)?;
    } else {
        write_column(rt, output, reference, &mut lines)?;
    }
    if found.get_flag("VERBOSE") {
        report::count(rt, lines.count, "lines encoded");
    }
    Ok(())
}

// Writes the column of lines: how many there are stands in front, so their codes are held.
fn write_column<R: Files + RandomSource + Input + Print + Tell + AllocGlobal, D: WholeDictionary>(
    rt: &R,
    output: &str,
    reference: Reference,
    lines: &mut Translated<'_, D>,
) -> Result<(), u8> {
    let mut codes = Noticing::new(Vec::new(rt.alloc()));
    lines.write(rt, output, &mut codes)?;
    let codes = codes.stream;
    match PlainCodes::of(&codes) {
        Some(codes) => write_lines(rt, output, reference, &codes),
        None => Err(2),
    }
}

/// Writes the line of each row of columns, or of each plain code. Otherwise the exit status after a message.
pub fn decode_codes<R: Files + RandomSource + Input + Print + Tell + AllocGlobal>(
    rt: &R,
    found: &ArgMatches<'_>,
) -> Result<(), u8> {
    let missing = missing_text(rt, found)?;
    let (name, dictionary) = first_dictionary(rt, found)?;
    let reference = dictionary.reference(rt, name)?;
    match dictionary {
        DictionaryBytes::OfFile(bytes) => match checked(rt, name, &bytes) {
            Ok(table) => decode_with(rt, found, &table, missing, name, reference),
            Err(status) => Err(status),
        },
        DictionaryBytes::OfShards(all) => match open_shards(rt, name, &all) {
            Ok(shards) => decode_with(rt, found, &shards, missing, name, reference),
            Err(status) => Err(status),
        },
    }
}

fn decode_with<R: Files + RandomSource + Input + Print + Tell + AllocGlobal, D: WholeDictionary>(
    rt: &R,
    found: &ArgMatches<'_>,
    table: &D,
    missing: Option<&[u8]>,
    name: &str,
    reference: Reference,
) -> Result<(), u8> {
    let names = found.get_strs("COLUMN").unwrap_or(STANDARD_INPUT);
    let meter = meter_of(rt, names, found.get_flag("PROGRESS"));
    let output = found.get_str("OUT").unwrap_or(STANDARD);
    let count = if found.get_flag("RAW") {
        let translation = Translation::Decode(table, missing);
        let mut codes = Translated {
            translation,
            names,
            meter,
            count: 0,
        };
        write_to(rt, output, &mut codes)?;
        codes.count
    } else {
        let dictionary = name;
        let mut rows = Decoded {
            table,
            dictionary,
            reference,
            missing,
            names,
            meter,
            count: 0,
        };
        write_to(rt, output, &mut rows)?;
        rows.count
    };
    if found.get_flag("VERBOSE") {
        report::count(rt, count, "codes decoded");
    }
    Ok(())
}
