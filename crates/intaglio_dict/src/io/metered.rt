//! How much of the inputs is read, on standard error.
ghost use Rattle.std.specs.Prelude.{◌≤◌, length, IfOk, None};

use crate::io::input::STANDARD;
use crate::io::report;
use crate::io::report::Tell;
use intaglio_lines::error::StreamError;
use std::io::{ErrorKind, Read};
use std::rt::Files;
use std::{fs, io};

/// How many bytes of the inputs were read.
#[derive(Clone, Copy)]
pub struct Meter {
    // How many there are, or 0 if nothing is to be shown.
    total: u64,
    done: u64,
    // The tenths of them that were shown last.
    tenths: u64,
}

impl Meter {
    /// Shows each tenth of this many bytes.
    pub fn of(total: u64) -> Meter {
        Meter {
            total,
            done: 0,
            tenths: 0,
        }
    }

    /// Shows nothing.
    pub fn silent() -> Meter {
        Meter::of(0)
    }

    /// How many bytes were read.
    pub fn done(self) -> u64 {
        self.done
    }

    // More bytes were read. A line that can't be written is lost.
    fn add<R: Tell>(&mut self, rt: &R, count: usize) {
        self.done = self.done.saturating_add(count as u64);
        if self.total == 0 {
            return;
        }
        let (tenths, total) = (self.done.saturating_mul(10) / self.total, self.total);
        if tenths > self.tenths {
            self.tenths = tenths;
            report::say(rt, format_args!("{tenths}0 % of {total} bytes read"));
        }
    }
}

/// Reads standard input or a file, counts the bytes, and keeps the last error.
#[derive(Drop)]
pub struct Metered<'a, R: Files + Input> {
    rt: &'a R,
    source: Source<R::Reader, R::File>,
    /// How many bytes were read.
    pub meter: Meter,
    /// The last error.
    pub error: Option<io::Error>,
}

#[derive(Drop)]
enum Source<I, F> {
    Standard(I),
    File(F),
}

impl<'a, R: Files + Input + Tell + AllocGlobal> Metered<'a, R> {
    /// Opens an input, and counts on from this meter. Otherwise the exit status after a message.
    pub fn open(rt: &'a R, name: &str, meter: Meter) -> Result<Metered<'a, R>, u8> {
        let source = if name == STANDARD {
            Source::Standard(rt.reader())
        } else {
            match fs::open(rt, name) {
                Ok(file) => Source::File(file),
                Err(e) => return Err(report::of_file(rt, name, e)),
            }
        };
        Ok(Metered {
            rt,
            source,
            meter,
            error: None,
        })
    }
}

impl<R: Files + Input + Tell> Metered<'_, R> {
    // Reads, and keeps the error.
    fn read_source(&mut self, buf: &mut [u8]) -> io::Result<usize>
        ensures { IfOk result (λ n. n ≤ length buf.old) }
    {
        let read = match &mut self.source {
            Source::Standard(input) => input.read(buf),
            Source::File(file) => file.read(buf),
        };
        if let Err(error) = read {
            self.error = Some(error);
        }
        read
    }
}

impl<R: Files + Input + Tell> Read for Metered<'_, R> {
    // What a reader has yet to give is said of none of the inputs.
    ghost remaining = { λ _. None };

    fn read(&mut self, buf: &mut [u8]) -> io::Result<usize> {
        let taken = self.read_source(buf)?;
        self.meter.add(self.rt, taken);
        Ok(taken)
    }
}
