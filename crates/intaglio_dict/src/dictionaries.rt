//! The dictionary of a command: a file, or a folder of shards.
use crate::io::folders::{is_folder, shard_name};
use crate::io::input::{name_of, whole};
use crate::io::metered::Meter;
use crate::io::report;
use crate::io::report::Tell;
use crate::io::tables::checked;
use clap::ArgMatches;
use intaglio_columns::{ColumnHeader, DictionaryId};
use intaglio_frozen::{Frozen, FrozenKind, Header, Shards, ShardsError};
use std::rt::Files;

/// The bytes of a dictionary, as they were read.
#[derive(Drop)]
pub enum DictionaryBytes {
    /// Those of a file.
    OfFile(Vec<u8>),
    /// Those of each shard of a folder: there is at least one, and their headers agree.
    OfShards(Vec<Vec<u8>>),
}

/// What a column says of the dictionary to which its codes lead.
#[derive(Clone, Copy, PartialEq, Eq)]
pub struct Reference {
    /// The kind, the number of all strings, and the identity of the set of shards.
    pub id: DictionaryId,
    /// How many shards there are.
    pub shards: u32,
}

impl Reference {
    /// What this header says of the dictionary whose only file has it.
    pub fn of(header: &Header) -> Reference {
        Reference {
            id: DictionaryId {
                is_text: header.kind == FrozenKind::Text,
                count: header.count,
                hash0: header.place.set.hash0,
                hash1: header.place.set.hash1,
            },
            shards: header.place.shards,
        }
    }

    /// What the header of a column says.
    pub fn of_column(header: &ColumnHeader) -> Reference {
        Reference {
            id: header.id,
            shards: header.shards,
        }
    }
}

impl DictionaryBytes {
    /// Whether they are those of a folder.
    pub fn is_folder(&self) -> bool {
        match self {
            DictionaryBytes::OfFile(_) => false,
            DictionaryBytes::OfShards(_) => true,
        }
    }

    /// What columns of this dictionary say of it. Otherwise the exit status after a message: no column
    /// belongs to one shard of several.
    pub fn reference<R: Tell>(&self, rt: &R, name: &str) -> Result<Reference, u8> {
        match self {
            DictionaryBytes::OfFile(bytes) => reference_of_file(rt, name, bytes),
            DictionaryBytes::OfShards(all) => reference_of_shards(rt, name, all),
        }
    }
}

fn reference_of_file<R: Tell>(rt: &R, name: &str, bytes: &[u8]) -> Result<Reference, u8> {
    let header = header_of(rt, name, bytes)?;
    let (shards, shard) = (header.place.shards, header.place.shard);
    if shards == 1 {
        return Ok(Reference::of(&header));
    }
    Err(report::failed(
        rt,
        name_of(name),
        format_args!("shard {shard} of {shards}; name its folder"),
    ))
}

fn reference_of_shards<R: Tell>(rt: &R, folder: &str, all: &[Vec<u8>]) -> Result<Reference, u8> {
    let mut count = 0u64;
    let mut last = None;
    for bytes in all {
        let header = header_of(rt, folder, bytes)?;
        count = count.saturating_add(header.count);
        last = Some(header);
    }
    let Some(header) = last else {
        return Err(2);
    };
    let mut reference = Reference::of(&header);
    reference.id.count = count;
    Ok(reference)
}

/// What the header of the dictionary in these bytes says. Otherwise the exit status after a message.
pub fn header_of<R: Tell>(rt: &R, name: &str, bytes: &[u8]) -> Result<Header, u8> {
    match Header::read(bytes) {
        Ok(header) => Ok(header),
        Err(fault) => Err(report::failed(rt, name_of(name), fault)),
    }
}

/// The name and the bytes of the dictionary by which the other inputs are read. Otherwise
/// the exit status after a message.
pub fn first_dictionary<'a, R: Files + Input + Tell + AllocGlobal>(
    rt: &R,
    found: &ArgMatches<'a>,
) -> Result<(&'a str, DictionaryBytes), u8> {
    let Some(name) = found.get_str("DICT") else {
        return Err(2);
    };
    Ok((name, read_dictionary(rt, name)?))
}

/// The bytes of a dictionary. Otherwise the exit status after a message.
pub fn read_dictionary<R: Files + Input + Tell + AllocGlobal>(
    rt: &R,
    name: &str,
) -> Result<DictionaryBytes, u8> {
    if is_folder(rt, name) {
        Ok(DictionaryBytes::OfShards(read_shards(rt, name)?))
    } else {
        Ok(DictionaryBytes::OfFile(whole(rt, name, &mut Meter::silent())?))
    }
}

// The bytes of all shards of a folder, whose headers agree. Otherwise the exit status after a message.
fn read_shards<R: Files + Input + Tell + AllocGlobal>(
    rt: &R,
    folder: &str,
) -> Result<Vec<Vec<u8>>, u8> {
    let (first, bytes) = read_shard(rt, folder, 0)?;
    let mut all = Vec::new(rt.alloc());
    if all.push(bytes).is_err() {
        return Err(report::out_of_memory(rt));
    }
    for shard in 1..first.place.shards {
        let (header, bytes) = read_shard(rt, folder, shard)?;
        if !are_of_one_set(&first, &header) {
            return Err(other_set(rt, folder, shard));
        }
        if all.push(bytes).is_err() {
            return Err(report::out_of_memory(rt));
        }
    }
    Ok(all)
}

/// What the header of the shard with this number of a folder says, and its bytes. Otherwise the exit status
/// after a message.
pub fn read_shard<R: Files + Input + Tell + AllocGlobal>(
    rt: &R,
    folder: &str,
    shard: u32,
) -> Result<(Header, Vec<u8>), u8> {
    let Ok(name) = shard_name(rt.alloc(), folder, shard) else {
        return Err(report::out_of_memory(rt));
    };
    let bytes = whole(rt, name.as_str(), &mut Meter::silent())?;
    let header = header_of(rt, name.as_str(), &bytes)?;
    check_number(rt, name.as_str(), &header, shard)?;
    Ok((header, bytes))
}

/// Refuses a shard that has another number: then the exit status after a message.
pub fn check_number<R: Tell>(rt: &R, name: &str, header: &Header, shard: u32) -> Result<(), u8> {
    let (found, shards) = (header.place.shard, header.place.shards);
    if found == shard {
        return Ok(());
    }
    Err(report::failed(
        rt,
        name,
        format_args!("shard {found} of {shards}, not shard {shard}"),
    ))
}

/// Whether the headers of two shards say that they belong together.
pub fn are_of_one_set(first: &Header, second: &Header) -> bool {
    first.kind == second.kind
        && first.place.set == second.place.set
        && first.place.shards == second.place.shards
}

/// Of a shard that doesn't belong to the first one of its folder.
pub fn other_set<R: Tell + AllocGlobal>(rt: &R, folder: &str, shard: u32) -> u8 {
    match shard_name(rt.alloc(), folder, shard) {
        Ok(name) => report::failed(
            rt,
            name.as_str(),
            format_args!("of another set than {folder}/0.dict; write both again"),
        ),
        Err(_) => report::out_of_memory(rt),
    }
}

/// The dictionary whose shards have these bytes, after a check of all of them. Otherwise the exit status
/// after a message that names the shard.
pub fn open_shards<'a, R: Tell + AllocGlobal>(
    rt: &R,
    folder: &str,
    all: &'a [Vec<u8>],
) -> Result<Shards<'a>, u8> {
    let tables = tables_in(rt, folder, all)?;
    match Shards::open(rt.alloc(), tables) {
        Ok(shards) => Ok(shards),
        Err(fault) => Err(not_shards(rt, folder, fault)),
    }
}

// The tables of a folder's shards.
fn tables_in<'a, R: Tell + AllocGlobal>(
    rt: &R,
    folder: &str,
    all: &'a [Vec<u8>],
) -> Result<Vec<Frozen<'a>>, u8> {
    let mut tables = Vec::new(rt.alloc());
    let mut shard = 0u32;
    for bytes in all {
        let Ok(name) = shard_name(rt.alloc(), folder, shard) else {
            return Err(report::out_of_memory(rt));
        };
        if tables.push(checked(rt, name.as_str(), bytes)?).is_err() {
            return Err(report::out_of_memory(rt));
        }
        shard = shard.saturating_add(1);
    }
    Ok(tables)
}

// Of tables that aren't the shards of one dictionary.
fn not_shards<R: Tell + AllocGlobal>(rt: &R, folder: &str, fault: ShardsError) -> u8 {
    match fault {
        ShardsError::Misplaced(shard, string) => match shard_name(rt.alloc(), folder, shard) {
            Ok(name) => misplaced(rt, name.as_str(), string),
            Err(_) => report::out_of_memory(rt),
        },
        ShardsError::Memory => report::out_of_memory(rt),
        _ => report::failed(rt, folder, fault),
    }
}

/// Of a string that belongs to another shard.
pub fn misplaced<R: Tell>(rt: &R, name: &str, string: u32) -> u8 {
    report::failed(
        rt,
        name,
        format_args!(
            "string {string} belongs to another shard, or there is another number of shards"
        ),
    )
}

/// Of a folder of shards, whose bytes can't be trusted.
pub fn not_trusted<R: Tell>(rt: &R, folder: &str) -> u8 {
    report::of_folder(
        rt,
        folder,
        "--trusted takes a file, and this is a folder of shards",
    )
}
