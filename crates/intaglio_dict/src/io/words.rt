//! The words of the command line.
use crate::io::report;
use crate::io::report::Tell;
use std::env::FillError;
use std::io::ErrorKind;
use std::rt::Env;
use std::{env, io, str};

// An argument is shown if it is no longer than this, a path's greatest length.
const MAX_SHOWN: usize = 4096;

/// The arguments, and the program's name before them. Otherwise the exit status after a message.
pub fn words<R: Env + Tell + AllocGlobal>(rt: &R) -> Result<Vec<String>, u8> {
    match all_words(rt) {
        Ok(words) => Ok(words),
        Err(e) if e.kind() == ErrorKind::OutOfMemory => Err(report::out_of_memory(rt)),
        Err(_) => Err(report_not_utf8(rt)),
    }
}

fn all_words<R: Env + AllocGlobal>(rt: &R) -> io::Result<Vec<String>> {
    // A loop, since `collect` asks for less memory again after an allocation failed.
    let mut words = Vec::new(rt.alloc());
    for word in env::args(rt)? {
        words.push(word)?;
    }
    Ok(words)
}

// Reports an argument that isn't UTF-8. Number 0 is the program's name.
fn report_not_utf8<R: Env + Tell>(rt: &R) -> u8 {
    let mut bytes = [0; MAX_SHOWN];
    for number in 0..usize::MAX {
        match rt.arg(number, &mut bytes) {
            Ok(length) if str::from_utf8(&bytes[..length]).is_err() => {
                return report::not_utf8(rt, number, &bytes[..length]);
            }
            Ok(_) | Err(FillError::TooLong) => {}
            Err(FillError::NotPresent) => break,
        }
    }
    report::long_not_utf8(rt)
}
