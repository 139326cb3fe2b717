//! Outputs, which are files or standard output.
use crate::io::input::STANDARD;
use crate::io::noticing::Noticing;
use crate::io::replacing::Place;
use crate::io::report;
use crate::io::report::Tell;
use intaglio_lines::error::StreamError;
use std::fs::{OpenFile, OpenOptions};
use std::io::Write;
use std::os::unix::fs::FileTypeExt;
use std::path::Path;
use std::random::RandomSource;
use std::rt::Files;
use std::{fs, io};

/// What standard output is called in messages.
pub const OUTPUT: &str = "standard output";

/// What an output is given.
pub trait Payload<R> {
    /// Writes all of it to the output with this name. Otherwise the exit status after a message.
    fn write<W: Write>(&mut self, rt: &R, name: &str, output: &mut Noticing<W>) -> Result<(), u8>;
}

/// Bytes as they are.
#[derive(Drop)]
pub struct Bytes<'a> {
    /// The bytes.
    pub bytes: &'a [u8],
}

impl<R: Tell + AllocGlobal> Payload<R> for Bytes<'_> {
    fn write<W: Write>(&mut self, rt: &R, name: &str, output: &mut Noticing<W>) -> Result<(), u8> {
        match write_whole(self.bytes, output) {
            Ok(()) => Ok(()),
            Err(_) => Err(report::stopped(rt, StreamError::Write, name, output.error)),
        }
    }
}

fn write_whole<W: Write>(bytes: &[u8], output: &mut W) -> io::Result<()> {
    output.write_all(bytes)?;
    output.flush()
}

/// Writes to standard output, to a device or a pipe, or beside a file, which is replaced when the new one is
/// whole. Otherwise the exit status after a message.
pub fn write_to<R: Files + RandomSource + Print + Tell + AllocGlobal, C: Payload<R>>(
    rt: &R,
    name: &str,
    content: &mut C,
) -> Result<(), u8> {
    if name == STANDARD {
        return content.write(rt, OUTPUT, &mut Noticing::new(io::writer(rt)));
    }
    if is_stream(rt, name) {
        return write_through(rt, name, content);
    }
    let place = Place::of(rt, name)?;
    write_beside(rt, &place, content)
}

/// Whether a device or a pipe is there.
pub fn is_stream<R: Files>(rt: &R, name: &str) -> bool {
    match fs::metadata(rt, name) {
        Ok(found) => found.file_type().is_char_device() || found.file_type().is_fifo(),
        Err(_) => false,
    }
}

// Writes to a device or a pipe.
fn write_through<R: Files + Tell + AllocGlobal, C: Payload<R>>(
    rt: &R,
    name: &str,
    content: &mut C,
) -> Result<(), u8> {
    match open_stream(rt, name) {
        Ok(file) => content.write(rt, name, &mut Noticing::new(file)),
        Err(e) => Err(report::of_file(rt, name, e)),
    }
}

// Opens a device or a pipe. Like a file that is made, it gets no number of a standard stream that is closed.
fn open_stream<R: Files>(rt: &R, name: &str) -> io::Result<R::File> {
    let mut options = OpenOptions::new();
    options.write(true);
    options.open(rt, name)?.try_clone()
}

// Writes beside a file, which is replaced when the new one is whole.
fn write_beside<R: Files + RandomSource + Tell + AllocGlobal, C: Payload<R>>(
    rt: &R,
    place: &Place<'_>,
    content: &mut C,
) -> Result<(), u8> {
    let (path, file) = place.create_beside(rt)?;
    let replaced = write_and_replace(rt, place, path.as_path(), file, content);
    if replaced.is_err() {
        let _ = fs::remove_file(rt, path.as_path());
    }
    replaced
}

// Writes to a file, and renames it to its place.
fn write_and_replace<R: Files + Tell + AllocGlobal, C: Payload<R>>(
    rt: &R,
    place: &Place<'_>,
    path: Path<'_>,
    file: R::File,
    content: &mut C,
) -> Result<(), u8> {
    let mut output = Noticing::new(file);
    content.write(rt, path.as_str(), &mut output)?;
    place.replace(rt, path, output.stream)
}

/// The exit status after standard output, and a message if it isn't whole.
pub fn ended<R: Tell + AllocGlobal>(
    rt: &R,
    answer: Result<(), StreamError>,
    error: Option<io::Error>,
) -> u8 {
    match answer {
        Ok(()) => 0,
        Err(fault) => report::stopped(rt, fault, OUTPUT, error),
    }
}
