//! The subcommand that merges dictionaries, and shares dictionaries out.
ghost use Rattle.std.specs.Prelude.{◌<◌};

use crate::dictionaries::{
    Reference, are_of_one_set, check_number, header_of, misplaced, other_set, read_shard,
};
use crate::freezing::{refusal, write_shards};
use crate::hashing::random_builder;
use crate::io::folders::{is_folder, make_folder, shard_name};
use crate::io::input::{meter_of, name_of, whole};
use crate::io::keys::keys_of;
use crate::io::metered::Meter;
use crate::io::output::{Bytes, write_to};
use crate::io::report;
use crate::io::report::Tell;
use crate::io::symbols::{plain_number, shards_of};
use crate::io::tables::{common_kind, tables_of};
use crate::maps::Maps;
use crate::progress::Shown;
use clap::ArgMatches;
use intaglio_columns::error::{FreezingError, ShardMergeError};
use intaglio_columns::merging::{merge, merged_tables};
use intaglio_columns::shard_merging::merge_shard;
use intaglio_columns::sharding::ShardedList;
use intaglio_frozen::{FreezeError, Frozen, Header, Merged, SetId};
use intaglio_hash::KeyedState;
use intaglio_symbol::Symbol;
use std::random::RandomSource;
use std::rt::Files;

// What is merged to where.
#[derive(Drop)]
struct Merging<'a, 'r, R> {
    names: &'a [&'a str],
    output: &'a str,
    // The folder for the maps, if they are asked for.
    maps: Option<&'a str>,
    keys: Option<(u64, u64)>,
    shown: Shown<'r, R>,
    // How many strings the dictionaries have, and their union.
    strings: u64,
    distinct: u64,
}

// The parts of a merge, or the same shard of each of them.
#[derive(Drop)]
struct Parts {
    // What each is called in messages.
    names: Vec<String>,
    headers: Vec<Header>,
    files: Vec<Vec<u8>>,
}

/// Merges dictionaries. Otherwise the exit status after a message.
pub fn merge_dictionaries<R: Files + RandomSource + Input + Print + Tell + AllocGlobal>(
    rt: &R,
    found: &ArgMatches<'_>,
) -> Result<(), u8> {
    let (Some(names), Some(output)) = (found.get_strs("DICT"), found.get_str("OUT")) else {
        return Err(2);
    };
    let keys = keys_of(rt, found)?;
    let mut merging = Merging {
        names,
        output,
        maps: found.get_str("MAPS"),
        keys,
        shown: Shown::new(rt, found.get_flag("PROGRESS")),
        strings: 0,
        distinct: 0,
    };
    let mut meter = meter_of(rt, names, found.get_flag("PROGRESS"));
    merging.merge_all(rt, found, &mut meter)
}

// The number after --shard, if it is there.
fn shard_of<R: Tell>(rt: &R, found: &ArgMatches<'_>) -> Result<Option<u32>, u8> {
    let Some(typed) = found.get_str("SHARD") else {
        return Ok(None);
    };
    match plain_number(typed).map(u32::try_from) {
        Some(Ok(shard)) => Ok(Some(shard)),
        _ => {
            let needed = "the number of a shard is needed, counted from 0";
            Err(report::wrong_number(rt, "--shard", typed, needed))
        }
    }
}

impl<R: Files + RandomSource + Input + Print + Tell + AllocGlobal> Merging<'_, '_, R> {
    // Merges one shard, or shares out, or merges dictionaries whole, as the arguments say.
    fn merge_all(&mut self, rt: &R, found: &ArgMatches<'_>, meter: &mut Meter) -> Result<(), u8> {
        if let Some(shard) = shard_of(rt, found)? {
            let _parts = self.merge_shard(rt, shard, None)?;
        } else if let Some(shards) = shards_of(rt, found)? {
            self.share_out(rt, shards, meter)?;
        } else {
            self.merge_whole(rt, meter)?;
        }
        if found.get_flag("VERBOSE") {
            report::count(rt, self.names.len() as u64, "dictionaries merged");
            report::count(rt, self.strings, "strings merged");
            report::count(rt, self.distinct, "distinct strings");
        }
        Ok(())
    }

    // Merges dictionaries in files to a file, or folders of shards to a folder, one shard after the other.
    fn merge_whole(&mut self, rt: &R, meter: &mut Meter) -> Result<(), u8> {
        let first = self.names.first().copied().unwrap_or("");
        if !is_folder(rt, first) {
            return self.merge_files(rt, meter);
        }
        let (header, _) = read_shard(rt, first, 0)?;
        let mut parts = self.merge_shard(rt, 0, None)?;
        for shard in 1..header.place.shards {
            parts = self.merge_shard(rt, shard, Some(&parts))?;
        }
        Ok(())
    }

    // Merges dictionaries in files to a file.
    fn merge_files(&mut self, rt: &R, meter: &mut Meter) -> Result<(), u8> {
        let parts = read_parts(rt, self.names, None, meter)?;
        let (bytes, maps) = self.merged_whole(rt, &parts)?;
        self.write_maps(rt, &parts, &bytes, &maps)?;
        write_to(rt, self.output, &mut Bytes { bytes: &bytes })
    }

    // The bytes of the merged dictionary, and the map of each part.
    fn merged_whole(&mut self, rt: &R, parts: &Parts) -> Result<(Vec<u8>, Vec<Vec<Symbol>>), u8> {
        let (builder, kind) = (random_builder(rt)?, common_kind(&parts.files));
        let tables = tables_of(rt, &parts.names, &parts.files)?;
        match merge(
            rt.alloc(),
            &tables,
            kind,
            self.keys,
            builder,
            &mut self.shown,
        ) {
            Ok(made) => Ok(made),
            Err(refused) => Err(refusal(rt, self.output, refused, None)),
        }
    }

    // Merges one shard of each part, and returns the header of each. It must belong to the one that is given,
    // which is that of another shard.
    fn merge_shard(
        &mut self,
        rt: &R,
        shard: u32,
        before: Option<&[Header]>,
    ) -> Result<Vec<Header>, u8> {
        let parts = read_parts(rt, self.names, Some(shard), &mut Meter::silent())?;
        if let Some(before) = before {
            self.check_sets(rt, shard, before, &parts.headers)?;
        }
        self.merge_parts(rt, shard, &parts)?;
        Ok(parts.headers)
    }

    // Merges the same shard of all parts.
    fn merge_parts(&mut self, rt: &R, shard: u32, parts: &Parts) -> Result<(), u8> {
        let (bytes, maps) = self.merged_parts(rt, shard, parts)?;
        make_folder(rt, self.output)?;
        self.write_maps(rt, parts, &bytes, &maps)?;
        let Ok(name) = shard_name(rt.alloc(), self.output, shard) else {
            return Err(report::out_of_memory(rt));
        };
        write_to(rt, name.as_str(), &mut Bytes { bytes: &bytes })
    }

    // The bytes of a merged shard, and the map of each part.
    fn merged_parts(
        &mut self,
        rt: &R,
        shard: u32,
        parts: &Parts,
    ) -> Result<(Vec<u8>, Vec<Vec<Symbol>>), u8> {
        let sets = sets_of(rt, parts)?;
        let tables = tables_of(rt, &parts.names, &parts.files)?;
        let shards = parts
            .headers
            .first()
            .map_or(1, |header| header.place.shards);
        self.merged(rt, parts, &tables, &sets, (shards, shard))
    }

    // The bytes of a merged shard, by its place among so many, and the map of each part.
    fn merged(
        &mut self,
        rt: &R,
        parts: &Parts,
        tables: &[Frozen<'_>],
        sets: &[SetId],
        place: (u32, u32),
    ) -> Result<(Vec<u8>, Vec<Vec<Symbol>>), u8> {
        if sets.len() != tables.len() {
            return Err(2);
        }
        let (builder, kind) = (random_builder(rt)?, common_kind(&parts.files));
        match merge_shard(
            rt.alloc(),
            tables,
            sets,
            place.0,
            place.1,
            kind,
            self.keys,
            builder,
            &mut self.shown,
        ) {
            Ok(made) => Ok((made.bytes, made.maps)),
            Err(ShardMergeError::Misplaced(part, string)) => match parts.names.get(part) {
                Some(name) => Err(misplaced(rt, name.as_str(), string)),
                None => Err(2),
            },
            Err(ShardMergeError::NoShard) => Err(report::of_input(rt, ShardMergeError::NoShard)),
            Err(ShardMergeError::Strings(refused)) => {
                Err(refusal(rt, self.output, refused, None))
            }
        }
    }

    // Writes the maps to the dictionary that has these bytes, if they are asked for: before the dictionary
    // has its place, so that whoever sees it can read them.
    fn write_maps(
        &mut self,
        rt: &R,
        parts: &Parts,
        bytes: &[u8],
        maps: &[Vec<Symbol>],
    ) -> Result<(), u8> {
        let header = header_of(rt, self.output, bytes)?;
        self.count(maps, header.count);
        match self.maps {
            Some(folder) => {
                let to = Reference::of(&header);
                Maps { folder, to }.write_all(rt, &parts.headers, maps)
            }
            None => Ok(()),
        }
    }

    // Counts the strings of a merge.
    fn count(&mut self, maps: &[Vec<Symbol>], distinct: u64) {
        for map in maps {
            self.strings = self.strings.saturating_add(map.len() as u64);
        }
        self.distinct = self.distinct.saturating_add(distinct);
    }

    // Refuses a shard that isn't of the same set as the one before it in its folder.
    fn check_sets(
        &self,
        rt: &R,
        shard: u32,
        before: &[Header],
        found: &[Header],
    ) -> Result<(), u8> {
        for ((name, header), other) in self.names.iter().zip(before.iter()).zip(found.iter()) {
            if !are_of_one_set(header, other) {
                return Err(other_set(rt, name, shard));
            }
        }
        Ok(())
    }

    // Merges dictionaries in files to a folder of so many shards.
    fn share_out(&mut self, rt: &R, shards: u32, meter: &mut Meter) -> Result<(), u8>
        requires { 0 < shards }
    {
        let parts = read_parts(rt, self.names, None, meter)?;
        let (merged, kind) = (self.union_of(rt, &parts)?, common_kind(&parts.files));
        match ShardedList::of(rt.alloc(), &merged.table, kind, shards) {
            Ok(shared) => self.write_shared(rt, &parts, &merged.maps, &shared),
            Err(_) => Err(report::out_of_memory(rt)),
        }
    }

    // The strings of all parts, and the map of each.
    fn union_of(&self, rt: &R, parts: &Parts) -> Result<Merged<KeyedState>, u8> {
        let builder = random_builder(rt)?;
        let tables = tables_of(rt, &parts.names, &parts.files)?;
        match merged_tables(rt.alloc(), &tables, builder) {
            Ok(merged) => Ok(merged),
            Err(refused) => Err(refusal(rt, self.output, refused, None)),
        }
    }

    // Writes the maps to shards, and these.
    fn write_shared(
        &mut self,
        rt: &R,
        parts: &Parts,
        maps: &[Vec<Symbol>],
        shared: &ShardedList<'_>,
    ) -> Result<(), u8> {
        let to = Reference {
            id: shared.id(),
            shards: shared.shards,
        };
        self.count(maps, to.id.count);
        make_folder(rt, self.output)?;
        if let Some(folder) = self.maps {
            make_folder(rt, folder)?;
            for (header, symbols) in parts.headers.iter().zip(maps.iter()) {
                write_shared_map(rt, Maps { folder, to }, header, shared, symbols)?;
            }
        }
        write_shards(rt, self.output, shared, self.keys, &mut self.shown)
    }
}

// Writes the map of a part whose strings have these symbols in the merged list.
fn write_shared_map<R: Files + RandomSource + Print + Tell + AllocGlobal>(
    rt: &R,
    maps: Maps<'_>,
    header: &Header,
    shared: &ShardedList<'_>,
    symbols: &[Symbol],
) -> Result<(), u8> {
    match shared.codes(rt.alloc(), symbols) {
        Ok(codes) => maps.write(rt, header, &codes),
        Err(_) => Err(report::out_of_memory(rt)),
    }
}

// The set of each part.
fn sets_of<R: Tell + AllocGlobal>(rt: &R, parts: &Parts) -> Result<Vec<SetId>, u8> {
    let mut sets = Vec::new(rt.alloc());
    for header in &parts.headers {
        if sets.push(header.place.set).is_err() {
            return Err(report::out_of_memory(rt));
        }
    }
    Ok(sets)
}

// These dictionaries, in a file each, or else the shard with this number of each: of a folder, or a file.
fn read_parts<R: Files + Input + Tell + AllocGlobal>(
    rt: &R,
    names: &[&str],
    shard: Option<u32>,
    meter: &mut Meter,
) -> Result<Parts, u8> {
    let mut parts = Parts::new(rt);
    for name in names {
        let (header, bytes) = if is_folder(rt, name) {
            read_shard(rt, name, shard.unwrap_or(0))?
        } else {
            let bytes = whole(rt, name, meter)?;
            (header_of(rt, name, &bytes)?, bytes)
        };
        match shard {
            Some(number) => check_number(rt, name_of(name), &header, number)?,
            None => check_single(rt, name_of(name), &header)?,
        }
        parts.add(rt, name, header, bytes)?;
    }
    Ok(parts)
}

// Refuses a shard of several.
fn check_single<R: Tell>(rt: &R, name: &str, header: &Header) -> Result<(), u8> {
    let (shards, shard) = (header.place.shards, header.place.shard);
    if shards == 1 {
        return Ok(());
    }
    Err(report::failed(
        rt,
        name,
        format_args!(
            "shard {shard} of {shards}; merge it by --shard, \
             or name folders of as many shards each, without --shards"
        ),
    ))
}

impl Parts {
    // None.
    fn new<R: AllocGlobal>(rt: &R) -> Parts {
        Parts {
            names: Vec::new(rt.alloc()),
            headers: Vec::new(rt.alloc()),
            files: Vec::new(rt.alloc()),
        }
    }

    // Adds one, of as many shards as the first.
    fn add<R: Tell + AllocGlobal>(
        &mut self,
        rt: &R,
        name: &str,
        header: Header,
        bytes: Vec<u8>,
    ) -> Result<(), u8> {
        let (shards, shard) = (header.place.shards, header.place.shard);
        if let (Some(first), Some(before)) = (self.names.first(), self.headers.first()) {
            let others = before.place.shards;
            if others != shards {
                return Err(report::failed(
                    rt,
                    name_of(name),
                    format_args!("shard {shard} of {shards}, and {first} has {others} shards"),
                ));
            }
        }
        let Ok(name) = String::from_str(rt.alloc(), name) else {
            return Err(report::out_of_memory(rt));
        };
        if self.names.push(name).is_err()
            || self.headers.push(header).is_err()
            || self.files.push(bytes).is_err()
        {
            return Err(report::out_of_memory(rt));
        }
        Ok(())
    }
}
