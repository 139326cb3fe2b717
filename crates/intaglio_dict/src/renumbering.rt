//! The subcommand that renumbers columns by maps.
ghost use Rattle.std.specs.Prelude.{All, IfOk};
ghost use Rattle.intaglio_columns.specs.IsColumn.{IsColumn};

use crate::column_files::opening::no_column;
use crate::dictionaries::{Reference, read_dictionary};
use crate::io::folders::map_name;
use crate::io::input::{STANDARD, first_input, name_of, whole};
use crate::io::metered::Meter;
use crate::io::output::{Bytes, write_to};
use crate::io::report;
use crate::io::report::Tell;
use clap::ArgMatches;
use intaglio_columns::error::RenumberError;
use intaglio_columns::renumbering::renumber_by_maps;
use intaglio_columns::{Column, ColumnHeader};
use intaglio_frozen::SetId;
use std::fs;
use std::io::ErrorKind;
use std::random::RandomSource;
use std::rt::Files;

// The maps of a column, as they were read.
#[derive(Drop)]
struct MapFiles {
    names: Vec<String>,
    files: Vec<Vec<u8>>,
}

/// Writes a column of the dictionary to which maps lead. Otherwise the exit status after a message, and then
/// nothing was written.
pub fn renumber<R: Files + RandomSource + Input + Print + Tell + AllocGlobal>(
    rt: &R,
    found: &ArgMatches<'_>,
) -> Result<(), u8> {
    let Some(folder) = found.get_str("MAPS") else {
        return Err(2);
    };
    let (name, bytes) = first_input(rt, found, "COLUMN")?;
    match Column::open(&bytes) {
        Ok(column) => renumber_column(rt, found, name, folder, &column),
        Err(fault) => Err(no_column(rt, name, fault)),
    }
}

fn renumber_column<R: Files + RandomSource + Input + Print + Tell + AllocGlobal>(
    rt: &R,
    found: &ArgMatches<'_>,
    name: &str,
    folder: &str,
    column: &Column<'_>,
) -> Result<(), u8>
    requires { IsColumn column.now }
{
    let maps = read_maps(rt, name, folder, &column.header())?;
    let bytes = renumbered(rt, name, column, &maps)?;
    check_into(rt, found, folder, &bytes)?;
    let output = found.get_str("OUT").unwrap_or(STANDARD);
    write_to(rt, output, &mut Bytes { bytes: &bytes })?;
    if found.get_flag("VERBOSE") {
        report::count(rt, column.len() as u64, "codes renumbered");
    }
    Ok(())
}

// The maps of each shard of the dictionary of a column, or of the shard from whose map it was made.
fn read_maps<R: Files + Input + Tell + AllocGlobal>(
    rt: &R,
    column: &str,
    folder: &str,
    header: &ColumnHeader,
) -> Result<MapFiles, u8> {
    let mut maps = MapFiles {
        names: Vec::new(rt.alloc()),
        files: Vec::new(rt.alloc()),
    };
    let source = header.source;
    if source.shards > 1 {
        maps.read(rt, column, folder, header, source.shard)?;
        return Ok(maps);
    }
    for shard in 0..header.shards {
        maps.read(rt, column, folder, header, shard)?;
    }
    Ok(maps)
}

impl MapFiles {
    // Reads the map of a shard.
    fn read<R: Files + Input + Tell + AllocGlobal>(
        &mut self,
        rt: &R,
        column: &str,
        folder: &str,
        header: &ColumnHeader,
        shard: u32,
    ) -> Result<(), u8> {
        let set = SetId {
            hash0: header.id.hash0,
            hash1: header.id.hash1,
        };
        let Ok(name) = map_name(rt.alloc(), folder, set, shard) else {
            return Err(report::out_of_memory(rt));
        };
        let bytes = read_map(rt, column, name.as_str())?;
        if self.names.push(name).is_err() || self.files.push(bytes).is_err() {
            return Err(report::out_of_memory(rt));
        }
        Ok(())
    }

    // The name of a map, by its number.
    fn name(&self, number: usize) -> &str {
        match self.names.get(number) {
            Some(name) => name.as_str(),
            None => "",
        }
    }
}

// The bytes of a map. If it isn't there, the message says why.
fn read_map<R: Files + Input + Tell + AllocGlobal>(
    rt: &R,
    column: &str,
    name: &str,
) -> Result<Vec<u8>, u8> {
    match fs::metadata(rt, name) {
        Err(e) if e.kind() == ErrorKind::NotFound => {
            let column = name_of(column);
            Err(report::failed(
                rt,
                name,
                format_args!("no such file; the dictionary of {column} wasn't merged"),
            ))
        }
        _ => whole(rt, name, &mut Meter::silent()),
    }
}

// The bytes of the new column.
fn renumbered<R: Tell + AllocGlobal>(
    rt: &R,
    name: &str,
    column: &Column<'_>,
    maps: &MapFiles,
) -> Result<Vec<u8>, u8>
    requires { IsColumn column.now }
{
    let opened = open_maps(rt, maps)?;
    match renumber_by_maps(rt.alloc(), column, &opened) {
        Ok(bytes) => Ok(bytes),
        Err(fault) => Err(unrenumbered(rt, name, maps, fault)),
    }
}

// The maps, after a check of all of them.
fn open_maps<'a, R: Tell + AllocGlobal>(rt: &R, maps: &'a MapFiles) -> Result<Vec<Column<'a>>, u8>
    ensures { IfOk result (λ opened. All IsColumn opened.items) }
{
    let mut opened = Vec::new(rt.alloc());
    for (number, bytes) in maps.files.iter().enumerate() {
        match Column::open(bytes) {
            Ok(map) => match opened.push(map) {
                Ok(()) => {}
                Err(_) => return Err(report::out_of_memory(rt)),
            },
            Err(fault) => return Err(no_column(rt, maps.name(number), fault)),
        }
    }
    Ok(opened)
}

// Of a column that isn't renumbered by maps.
fn unrenumbered<R: Tell>(rt: &R, name: &str, maps: &MapFiles, fault: RenumberError) -> u8 {
    match fault {
        RenumberError::Memory => report::out_of_memory(rt),
        RenumberError::OtherSource(i) => report::failed(
            rt,
            maps.name(i),
            "leads from another dictionary than that in its name",
        ),
        RenumberError::OtherTarget(i) => {
            let first = maps.name(0);
            report::failed(
                rt,
                maps.name(i),
                format_args!("a map of another merge than {first}"),
            )
        }
        _ => report::failed(rt, name_of(name), fault),
    }
}

// Refuses a column of another dictionary than the one that is named, if one is.
fn check_into<R: Files + Input + Tell + AllocGlobal>(
    rt: &R,
    found: &ArgMatches<'_>,
    maps: &str,
    bytes: &[u8],
) -> Result<(), u8> {
    let Some(into) = found.get_str("INTO") else {
        return Ok(());
    };
    let wanted = read_dictionary(rt, into)?.reference(rt, into)?;
    match ColumnHeader::read(bytes) {
        Ok(header) if Reference::of_column(&header) == wanted => Ok(()),
        _ => {
            let into = name_of(into);
            Err(report::failed(
                rt,
                maps,
                format_args!("its maps lead to another dictionary than {into}"),
            ))
        }
    }
}
