//! Inputs, which are files or standard input.
use crate::io::files::INPUT_PATH;
use crate::io::metered::{Meter, Metered};
use crate::io::report;
use crate::io::report::Tell;
use clap::ArgMatches;
use intaglio_lines::read::read_all;
use std::rt::Files;
use std::{fs, str};

/// The name by which a file is standard input or standard output.
pub const STANDARD: &str = "-";

/// The inputs if none are named.
pub const STANDARD_INPUT: &[&str] = &[STANDARD];

/// What standard input is called in messages.
pub const INPUT: &str = "standard input";

/// What an input is called in messages.
pub fn name_of<'a>(name: &'a str) -> &'a str {
    if name == STANDARD { INPUT } else { name }
}

// The path of an input.
fn path_of<'a>(name: &'a str) -> &'a str {
    if name == STANDARD { INPUT_PATH } else { name }
}

// How many bytes these inputs have together, or 0 if that isn't known: one of them isn't a regular file.
fn size_of<R: Files>(rt: &R, names: &[&str]) -> u64 {
    let mut size = 0u64;
    for name in names {
        match fs::metadata(rt, path_of(name)) {
            Ok(found) if found.is_file() => size = size.saturating_add(found.len()),
            _ => return 0,
        }
    }
    size
}

/// A meter of these inputs, which shows something if that is asked for.
pub fn meter_of<R: Files>(rt: &R, names: &[&str], is_shown: bool) -> Meter {
    Meter::of(if is_shown { size_of(rt, names) } else { 0 })
}

/// The bytes of an input, or the exit status after a message.
pub fn whole<R: Files + Input + Tell + AllocGlobal>(
    rt: &R,
    name: &str,
    meter: &mut Meter,
) -> Result<Vec<u8>, u8> {
    let mut input = Metered::open(rt, name, *meter)?;
    let read = rest_of(rt, name, &mut input);
    *meter = input.meter;
    read
}

/// The bytes of an input that is open, or the exit status after a message.
pub fn rest_of<R: Files + Input + Tell + AllocGlobal>(
    rt: &R,
    name: &str,
    input: &mut Metered<'_, R>,
) -> Result<Vec<u8>, u8> {
    match read_all(rt.alloc(), input) {
        Ok(bytes) => Ok(bytes),
        Err(fault) => Err(report::stopped(rt, fault, name_of(name), input.error)),
    }
}

/// The name and the bytes of the file by which the other inputs are read. Otherwise the exit status after a
/// message.
pub fn first_input<'a, R: Files + Input + Tell + AllocGlobal>(
    rt: &R,
    found: &ArgMatches<'a>,
    first: &str,
) -> Result<(&'a str, Vec<u8>), u8> {
    let Some(name) = found.get_str(first) else {
        return Err(2);
    };
    let bytes = whole(rt, name, &mut Meter::silent())?;
    Ok((name, bytes))
}

/// Whether bytes are UTF-8: otherwise the exit status after a message that names the input and the line.
pub fn check_text<R: Tell>(rt: &R, name: &str, bytes: &[u8]) -> Result<(), u8> {
    match str::from_utf8(bytes) {
        Ok(_) => Ok(()),
        Err(fault) => Err(report::line_not_utf8(
            rt,
            name_of(name),
            line_at(bytes, fault.valid_up_to()),
        )),
    }
}

// The line of a position, counted from 1.
fn line_at(bytes: &[u8], position: usize) -> usize {
    let before = bytes.iter().take(position).filter(|b| **b == b'\n');
    before.count().saturating_add(1)
}
