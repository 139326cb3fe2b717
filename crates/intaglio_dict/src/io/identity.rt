//! Which file an input or an output is.
use crate::io::replacing::followed;
use std::fs::Metadata;
use std::io::ErrorKind;
use std::os::unix::fs::{FileTypeExt, MetadataExt};
use std::path::{Path, PathBuf};
use std::rt::Files;
use std::{fs, io};

/// The file that a name leads to.
#[derive(Drop)]
pub enum Identity {
    /// One that is there: its device, its number there, and whether it keeps what is written to it.
    There(u64, u64, bool),
    /// One that isn't there: the device and the number of its folder, and its name.
    New(u64, u64, String),
    /// One that can't be reached. The command itself reports why.
    Unknown,
}

impl Identity {
    /// The file at this path, or, if symbolic links are there, at the one that they lead to.
    ///
    /// # Errors
    ///
    /// That there is no memory.
    pub fn of<R: Files + AllocGlobal>(rt: &R, path: &str) -> io::Result<Identity> {
        match fs::metadata(rt, path) {
            Ok(found) => Ok(Identity::there(&found)),
            Err(e) if e.kind() == ErrorKind::NotFound => known(Identity::new_at(rt, path)),
            Err(_) => Ok(Identity::Unknown),
        }
    }

    /// The folder of the file at this path, or of that to which symbolic links lead from there.
    ///
    /// # Errors
    ///
    /// That there is no memory.
    pub fn of_folder<R: Files + AllocGlobal>(rt: &R, path: &str) -> io::Result<Identity> {
        match followed(rt, path) {
            Ok(path) => Identity::of(rt, folder_of(&path).as_str()),
            Err(e) if e.kind() == ErrorKind::OutOfMemory => Err(e),
            Err(_) => Ok(Identity::Unknown),
        }
    }

    // Of a file that is there. Devices and pipes keep nothing.
    fn there(found: &Metadata) -> Identity {
        let keeps = found.is_file() || found.file_type().is_block_device();
        Identity::There(found.dev(), found.ino(), keeps)
    }

    // Of a file that isn't there, whose folder is.
    fn new_at<R: Files + AllocGlobal>(rt: &R, path: &str) -> io::Result<Identity> {
        let path = followed(rt, path)?;
        let Some(name) = path.file_name() else {
            return Ok(Identity::Unknown);
        };
        let folder = fs::metadata(rt, folder_of(&path))?;
        let name = String::from_str(rt.alloc(), name)?;
        Ok(Identity::New(folder.dev(), folder.ino(), name))
    }

    /// Whether both are one file.
    pub fn is_same(&self, other: &Identity) -> bool {
        match (self, other) {
            (Identity::There(d, n, _), Identity::There(e, m, _)) => d == e && n == m,
            (Identity::New(d, n, name), Identity::New(e, m, other)) => d == e
                && n == m
                && name == other,
            _ => false,
        }
    }

    /// Whether both are one file, which keeps what is written to it.
    pub fn overwrites(&self, other: &Identity) -> bool {
        match self {
            Identity::There(_, _, true) => self.is_same(other),
            _ => false,
        }
    }
}

// The identity, or none if there was an error other than of memory.
fn known(found: io::Result<Identity>) -> io::Result<Identity> {
    match found {
        Err(e) if e.kind() != ErrorKind::OutOfMemory => Ok(Identity::Unknown),
        _ => found,
    }
}

fn folder_of(path: &PathBuf) -> Path<'_> {
    match path.parent() {
        Some(folder) if !folder.as_str().is_empty() => folder,
        _ => Path::new("."),
    }
}
