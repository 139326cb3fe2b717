//! Folders of shards and of maps: the names of their files, and which files are in a folder.
use crate::io::apart::Named;
use crate::io::input::STANDARD;
use crate::io::output::OUTPUT;
use crate::io::report;
use crate::io::report::Tell;
use intaglio_frozen::SetId;
use std::alloc::{AllocError, Global};
use std::fs::DirEntry;
use std::io::ErrorKind;
use std::rt::Files;
use std::{fs, io};

/// The name of the shard with this number in a folder.
pub fn shard_name(alloc: Global, folder: &str, shard: u32) -> Result<String, AllocError> {
    format!(in alloc; "{folder}/{shard}.dict")
}

/// The name of the map from a shard of the dictionary with this identity, in a folder of maps.
pub fn map_name(alloc: Global, folder: &str, set: SetId, shard: u32) -> Result<String, AllocError> {
    let (hash0, hash1) = (set.hash0, set.hash1);
    format!(in alloc; "{folder}/{hash0:016x}{hash1:016x}.{shard}.map")
}

/// Whether this is a name that a command gives to a shard or a map.
pub fn is_given(name: &str) -> bool {
    name.ends_with(".dict") || name.ends_with(".map")
}

/// Whether a folder has this name.
pub fn is_folder<R: Files>(rt: &R, name: &str) -> bool {
    match fs::metadata(rt, name) {
        Ok(found) => found.is_dir(),
        Err(_) => false,
    }
}

/// Makes the folder if it isn't there. Otherwise the exit status after a message.
pub fn make_folder<R: Files + Tell + AllocGlobal>(rt: &R, name: &str) -> Result<(), u8> {
    if name == STANDARD {
        return Err(report::of_folder(rt, OUTPUT, "shards are written to a folder"));
    }
    match fs::create_dir(rt, name) {
        Ok(()) => Ok(()),
        Err(e) if e.kind() == ErrorKind::AlreadyExists => Ok(()),
        Err(e) => Err(report::of_file(rt, name, e)),
    }
}

/// Adds what is in this folder, and in the folders in it. Nothing is added if it isn't a folder.
///
/// # Errors
///
/// That there is no memory.
pub fn add_all_entries<R: Files + AllocGlobal>(
    rt: &R,
    folder: &str,
    all: &mut Vec<Named>,
) -> io::Result<()> {
    let names = names_in(rt, folder)?;
    for name in names {
        for inner in names_in(rt, name.as_str())? {
            all.push(Named::of(rt, inner)?)?;
        }
        all.push(Named::of(rt, name)?)?;
    }
    Ok(())
}

// The names of what is in this folder, or none if it isn't a folder.
fn names_in<R: Files + AllocGlobal>(rt: &R, folder: &str) -> io::Result<Vec<String>> {
    let mut names = Vec::new(rt.alloc());
    let entries = match fs::read_dir(&rt, folder) {
        Ok(entries) => entries,
        Err(e) if e.kind() == ErrorKind::OutOfMemory => return Err(e),
        Err(_) => return Ok(names),
    };
    for entry in entries {
        if let Some(name) = path_of(rt.alloc(), entry)? {
            names.push(name)?;
        }
    }
    Ok(names)
}

// The name of what was read of a folder. (One that isn't UTF-8 is that of no file which a command reads or
// writes.)
fn path_of<R: Files + Drop>(
    alloc: Global,
    entry: io::Result<DirEntry<R>>,
) -> io::Result<Option<String>> {
    match entry {
        Ok(entry) => Ok(Some(String::from_str(alloc, entry.path().as_str())?)),
        Err(e) if e.kind() == ErrorKind::OutOfMemory => Err(e),
        Err(_) => Ok(None),
    }
}
