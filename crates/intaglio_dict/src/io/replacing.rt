//! Replaces a file by one that is written beside it, and renamed to it when it is whole.
//!
//! The new file is made exclusively, under a name that is drawn at random: this process writes to, renames
//! and removes no file that another made.
use crate::io::report;
use crate::io::report::Tell;
use std::alloc::{AllocError, Global};
use std::fs::{OpenFile, OpenOptions, Permissions};
use std::io::ErrorKind;
use std::os::unix::fs::{OpenOptionsExt, PermissionsExt};
use std::path::{Path, PathBuf};
use std::random::RandomSource;
use std::rt::Files;
use std::{fs, io};

// How many symbolic links are followed: as many as Linux follows.
const MAX_LINKS: usize = 40;

// How many names are drawn.
const MAX_NAMES: usize = 100;

// The mode of what replaces a file, until it is that file's.
const OWNER_ONLY: u32 = 0o600;

/// The place of a file that is to be made or replaced.
#[derive(Drop)]
pub struct Place<'a> {
    // As it was given, for messages.
    name: &'a str,
    path: PathBuf,
    // The mode of the file that is there, if one is.
    mode: Option<u32>,
}

impl<'a> Place<'a> {
    /// The place of this name, or, if that is a symbolic link, the place that it leads to. Otherwise the exit
    /// status after a message: what is there and isn't a regular file, such as a device, isn't replaced.
    pub fn of<R: Files + Tell + AllocGlobal>(rt: &R, name: &'a str) -> Result<Place<'a>, u8> {
        let mode = match fs::metadata(rt, name) {
            Ok(found) if found.is_file() => Some(found.permissions().mode()),
            Ok(_) => return Err(report::failed(rt, name, "not a regular file")),
            Err(e) if e.kind() == ErrorKind::NotFound => None,
            Err(e) => return Err(report::of_file(rt, name, e)),
        };
        match followed(rt, name) {
            Ok(path) => Ok(Place { name, path, mode }),
            Err(e) => Err(report::of_file(rt, name, e)),
        }
    }

    /// Makes a file in the folder of the place, and returns its path with it. Otherwise the exit status
    /// after a message.
    pub fn create_beside<R: Files + RandomSource + Tell + AllocGlobal>(
        &self,
        rt: &R,
    ) -> Result<(PathBuf, R::File), u8> {
        for _ in 0..MAX_NAMES {
            let path = self.draw_path(rt)?;
            match self.create(rt, path.as_path()) {
                Ok(file) => return Ok((path, file)),
                Err(e) if e.kind() == ErrorKind::AlreadyExists => {}
                Err(e) => return Err(report::of_file(rt, path.as_str(), e)),
            }
        }
        Err(report::failed(rt, self.name, "no name is free beside it"))
    }

    // Makes a file that isn't there. The number of a standard stream that is closed is free, and what is
    // written to that stream would go into the file: so it gets a copy of the descriptor, which is above 2.
    fn create<R: Files>(&self, rt: &R, path: Path<'_>) -> io::Result<R::File> {
        let mut options = OpenOptions::new();
        options.write(true).create_new(true);
        if self.mode.is_some() {
            options.mode(OWNER_ONLY);
        }
        let file = options.open(rt, path)?;
        let copy = file.try_clone();
        if copy.is_err() {
            let _ = fs::remove_file(rt, path);
        }
        copy
    }

    fn draw_path<R: RandomSource + Tell + AllocGlobal>(&self, rt: &R) -> Result<PathBuf, u8> {
        let mut bytes = [0; 8];
        if rt.fill_bytes(&mut bytes).is_err() {
            return Err(report::no_random_bytes(rt));
        }
        match self.path_beside(rt.alloc(), u64::from_le_bytes(bytes)) {
            Ok(path) => Ok(path),
            Err(_) => Err(report::out_of_memory(rt)),
        }
    }

    fn path_beside(&self, alloc: Global, number: u64) -> Result<PathBuf, AllocError> {
        let name = format!(in alloc; ".intaglio.{number:016x}.new")?;
        self.path.as_path().with_file_name(alloc, name.as_str())
    }

    /// Renames a file, which is whole, to this place, with the mode of the one that is there. Otherwise the
    /// exit status after a message.
    pub fn replace<R: Files + Tell + AllocGlobal>(
        &self,
        rt: &R,
        path: Path<'_>,
        file: R::File,
    ) -> Result<(), u8> {
        if let Err(e) = self.sync(&file) {
            return Err(report::of_file(rt, path.as_str(), e));
        }
        match fs::rename(rt, path, self.path.as_path()) {
            Ok(()) => Ok(()),
            Err(e) => Err(report::of_file(rt, self.name, e)),
        }
    }

    fn sync<F: OpenFile>(&self, file: &F) -> io::Result<()> {
        if let Some(mode) = self.mode {
            file.set_permissions(Permissions::from_mode(mode))?;
        }
        file.sync_all()
    }
}

/// The path to which symbolic links lead from this one, whether or not a file is there. (The
/// system has refused a circle of links.)
///
/// # Errors
///
/// That a link can't be read, or that there is no memory.
pub fn followed<R: Files + AllocGlobal>(rt: &R, name: &str) -> io::Result<PathBuf> {
    let mut path = PathBuf::from_str(rt.alloc(), name)?;
    for _ in 0..MAX_LINKS {
        match fs::symlink_metadata(rt, path.as_path()) {
            Ok(found) if found.is_symlink() => {}
            _ => return Ok(path),
        }
        let target = fs::read_link(rt, path.as_path())?;
        path.pop();
        path.push(target)?;
    }
    Ok(path)
}
