//! The subcommand that writes a dictionary.
ghost use Rattle.std.specs.Prelude.{◌<◌};

use crate::dictionaries::Reference;
use crate::hashing::random_builder;
use crate::io::folders::{make_folder, shard_name};
use crate::io::input::STANDARD_INPUT;
use crate::io::inputs::Inputs;
use crate::io::keys::keys_of;
use crate::io::noticing::Noticing;
use crate::io::output::{Bytes, Payload, write_to};
use crate::io::report;
use crate::io::report::{Stream, Tell};
use crate::io::symbols::shards_of;
use crate::progress::Shown;
use clap::ArgMatches;
use intaglio_columns::error::FreezingError;
use intaglio_columns::freezing::{freeze_column_file, freeze_lines};
use intaglio_columns::interning::{Interned, intern_input};
use intaglio_columns::progress::Progress;
use intaglio_columns::sharding::ShardedList;
use intaglio_columns::{CodeList, ColumnWriteError, RowSource, sourced_column_bytes};
use intaglio_frozen::{FreezeError, FrozenKind};
use intaglio_hash::KeyedState;
use intaglio_symbol::Symbol;
use std::io;
use std::io::Write;
use std::random::RandomSource;
use std::rt::Files;

// The dictionary of lines: strings of a kind, under these keys, or under those that the library chooses.
#[derive(Drop)]
struct Freezing<'a, R: Files + Input> {
    kind: FrozenKind,
    keys: Option<(u64, u64)>,
    inputs: Inputs<'a, R>,
    // The output for the column of the lines.
    column: Option<&'a str>,
    shown: Shown<'a, R>,
    // How many lines were frozen.
    count: u64,
}

/// Freezes the lines of files or of standard input. Otherwise the exit status after a message.
pub fn freeze<R: Files + RandomSource + Input + Print + Tell + AllocGlobal>(
    rt: &R,
    found: &ArgMatches<'_>,
) -> Result<(), u8> {
    let Some(name) = found.get_str("DICT") else {
        return Err(2);
    };
    let names = found.get_strs("FILE").unwrap_or(STANDARD_INPUT);
    let (kind, keys) = (kind_of(found), keys_of(rt, found)?);
    let is_shown = found.get_flag("PROGRESS");
    let mut freezing = Freezing {
        kind,
        keys,
        inputs: Inputs::new(rt, names, kind == FrozenKind::Text, is_shown),
        column: found.get_str("COLUMN"),
        shown: Shown::new(rt, is_shown),
        count: 0,
    };
    freezing.write_all(rt, found, name)
}

// The arguments take no other kind.
fn kind_of(found: &ArgMatches<'_>) -> FrozenKind {
    match found.get_str("KIND") {
        Some("text") => FrozenKind::Text,
        _ => FrozenKind::Bytes,
    }
}

impl<R: Files + RandomSource + Input + Print + Tell + AllocGlobal> Payload<R> for Freezing<'_, R> {
    // The column has its place before the dictionary has its own: whoever sees that can read it.
    fn write<W: Write>(&mut self, rt: &R, name: &str, output: &mut Noticing<W>) -> Result<(), u8> {
        let Some(column) = self.column else {
            return self.write_table(rt, name, output);
        };
        let mut bytes = Noticing::new(Vec::new(rt.alloc()));
        self.write_column(rt, name, output, &mut bytes)?;
        let bytes = bytes.stream;
        write_to(rt, column, &mut Bytes { bytes: &bytes })
    }
}

impl<R: Files + RandomSource + Input + Print + Tell + AllocGlobal> Freezing<'_, R> {
    // Writes the dictionary to a file, or to a folder of shards if the arguments say so.
    fn write_all(&mut self, rt: &R, found: &ArgMatches<'_>, name: &str) -> Result<(), u8> {
        match shards_of(rt, found)? {
            Some(shards) => self.write_folder(rt, name, shards)?,
            None => write_to(rt, name, self)?,
        }
        if found.get_flag("VERBOSE") {
            report::count(rt, self.count, "lines frozen");
            report::count(rt, self.shown.distinct as u64, "distinct lines");
        }
        Ok(())
    }

    // Writes the dictionary to a folder of so many shards.
    fn write_folder(&mut self, rt: &R, folder: &str, shards: u32) -> Result<(), u8>
        requires { 0 < shards }
    {
        let builder = random_builder(rt)?;
        let (alloc, is_kept) = (rt.alloc(), self.column.is_some());
        match intern_input(alloc, self.kind, is_kept, builder, &mut self.inputs) {
            Ok(made) => self.write_interned(rt, folder, shards, &made),
            Err(refused) => Err(self.refused(rt, refused, (folder, None))),
        }
    }

    fn write_interned(
        &mut self,
        rt: &R,
        folder: &str,
        shards: u32,
        made: &Interned<KeyedState>,
    ) -> Result<(), u8>
        requires { 0 < shards }
    {
        self.count = made.count;
        self.shown.interned(made.table.len());
        match made.in_shards(rt.alloc(), self.kind, shards) {
            Ok((shared, codes)) => {
                make_folder(rt, folder)?;
                if let Some(column) = self.column {
                    write_codes(rt, column, &shared, &codes)?;
                }
                write_shards(rt, folder, &shared, self.keys, &mut self.shown)
            }
            Err(refused) => Err(self.refused(rt, refused, (folder, None))),
        }
    }
}

// Writes the column of lines that have these codes. Otherwise the exit status after a message.
fn write_codes<R: Files + RandomSource + Print + Tell + AllocGlobal>(
    rt: &R,
    name: &str,
    shared: &ShardedList<'_>,
    codes: &[Symbol],
) -> Result<(), u8> {
    let reference = Reference {
        id: shared.id(),
        shards: shared.shards,
    };
    write_lines(rt, name, reference, &codes)
}

/// Writes the column of lines that have these codes in this dictionary. Otherwise the exit status after a
/// message.
pub fn write_lines<R: Files + RandomSource + Print + Tell + AllocGlobal, L: CodeList>(
    rt: &R,
    name: &str,
    reference: Reference,
    codes: &L,
) -> Result<(), u8> {
    if !RowSource::LINES.fits(reference.shards) {
        return Err(2);
    }
    let (id, shards) = (reference.id, reference.shards);
    match sourced_column_bytes(rt.alloc(), id, shards, RowSource::LINES, codes) {
        Ok(bytes) => write_to(rt, name, &mut Bytes { bytes: &bytes }),
        Err(ColumnWriteError::Memory) => Err(report::out_of_memory(rt)),
        Err(fault) => Err(report::of_input(rt, fault)),
    }
}

/// Writes shards to a folder, one after the other. Otherwise the exit status after a message.
pub fn write_shards<R: Files + RandomSource + Print + Tell + AllocGlobal>(
    rt: &R,
    folder: &str,
    shared: &ShardedList<'_>,
    keys: Option<(u64, u64)>,
    shown: &mut Shown<'_, R>,
) -> Result<(), u8> {
    make_folder(rt, folder)?;
    for shard in 0..shared.shards {
        let Ok(name) = shard_name(rt.alloc(), folder, shard) else {
            return Err(report::out_of_memory(rt));
        };
        match shared.freeze(rt.alloc(), shard, keys) {
            Ok(bytes) => {
                shown.frozen(bytes.len());
                write_to(rt, name.as_str(), &mut Bytes { bytes: &bytes })?;
            }
            Err(fault) => return Err(unfrozen(rt, name.as_str(), fault)),
        }
    }
    Ok(())
}

// Of a shard that has no frozen table.
fn unfrozen<R: Tell>(rt: &R, name: &str, fault: FreezeError) -> u8 {
    match fault {
        FreezeError::Memory => report::out_of_memory(rt),
        FreezeError::NoPlaces => report::failed(
            rt,
            name,
            format_args!("{fault}; other keys may do: --random-keys"),
        ),
        _ => report::failed(rt, name, fault),
    }
}

impl<R: Files + RandomSource + Input + Tell + AllocGlobal> Freezing<'_, R> {
    // Writes the dictionary.
    fn write_table<W: Write>(
        &mut self,
        rt: &R,
        name: &str,
        output: &mut Noticing<W>,
    ) -> Result<(), u8> {
        let builder = random_builder(rt)?;
        let (alloc, kind, keys) = (rt.alloc(), self.kind, self.keys);
        let (inputs, shown) = (&mut self.inputs, &mut self.shown);
        match freeze_lines(alloc, kind, keys, builder, inputs, output, shown) {
            Ok(count) => {
                self.count = count;
                Ok(())
            }
            Err(refused) => Err(self.refused(rt, refused, (name, output.error))),
        }
    }

    // Writes the dictionary, and the column to memory.
    fn write_column<W: Write>(
        &mut self,
        rt: &R,
        name: &str,
        output: &mut Noticing<W>,
        column: &mut Noticing<Vec<u8>>,
    ) -> Result<(), u8> {
        let builder = random_builder(rt)?;
        let (alloc, kind, keys) = (rt.alloc(), self.kind, self.keys);
        let (inputs, shown) = (&mut self.inputs, &mut self.shown);
        match freeze_column_file(alloc, kind, keys, builder, inputs, output, column, shown) {
            Ok(count) => {
                self.count = count;
                Ok(())
            }
            Err(_) if column.error.is_some() => Err(report::out_of_memory(rt)),
            Err(refused) => Err(self.refused(rt, refused, (name, output.error))),
        }
    }

    // The exit status after the inputs weren't frozen. What is wrong with an input was said when it was read.
    fn refused(&self, rt: &R, refused: FreezingError, output: Stream<'_>) -> u8 {
        match self.inputs.status {
            Some(status) => status,
            None => refusal(rt, output.0, refused, output.1),
        }
    }
}

/// The exit status after a dictionary wasn't written to its output.
pub fn refusal<R: Tell + AllocGlobal>(
    rt: &R,
    name: &str,
    refused: FreezingError,
    error: Option<io::Error>,
) -> u8 {
    match refused {
        FreezingError::Table(FreezeError::NoPlaces) => no_places(rt),
        FreezingError::Stream(fault) => report::stopped(rt, fault, name, error),
        _ => report::of_input(rt, refused),
    }
}

// Of lines that have no frozen table under the keys that were tried.
fn no_places<R: Tell>(rt: &R) -> u8 {
    report::of_input(
        rt,
        format_args!(
            "{}; other keys may do: --random-keys",
            FreezeError::NoPlaces
        ),
    )
}
