//! Several inputs as one, read one behind the other.
ghost use Rattle.std.specs.Prelude.{◌≤◌, length, IfOk, None};

use crate::io::input::{meter_of, name_of};
use crate::io::metered::{Meter, Metered};
use crate::io::report;
use crate::io::report::Tell;
use intaglio_lines::error::StreamError;
use std::io::{ErrorKind, Read};
use std::rt::Files;
use std::{io, str};

/// The lines of several inputs, each of which is opened when those before it are read. The last line of each
/// is ended, but for the last input's.
#[derive(Drop)]
pub struct Inputs<'a, R: Files + Input> {
    rt: &'a R,
    names: &'a [&'a str],
    // How many of them were opened, and the last of these until it is read.
    opened: usize,
    current: Option<Metered<'a, R>>,
    // Of all inputs that were read before the current one.
    meter: Meter,
    // Whether it is said how many bytes all inputs have.
    is_shown: bool,
    // Whether the last byte was a line end, or there was none.
    is_ended: bool,
    // What was read of the current input, if its lines must be texts.
    text: Option<Text>,
    /// The exit status after a message on an input that can't be read, or on a line that isn't UTF-8.
    pub status: Option<u8>,
}

// A text that is checked as it is read.
#[derive(Drop)]
struct Text {
    // The line that is being read, counted from 1.
    line: usize,
    // The bytes of a character that isn't whole.
    part: Vec<u8>,
}

impl Text {
    // Takes the next bytes, and returns the line of the first that is of no character.
    fn take(&mut self, bytes: &[u8]) -> Option<usize> {
        let mut rest = bytes;
        while let [byte, behind @ ..] = rest {
            if self.part.is_empty() {
                break;
            }
            if !self.complete(*byte) {
                return Some(self.line);
            }
            rest = behind;
        }
        match str::from_utf8(rest) {
            Ok(_) => self.count(rest),
            Err(fault) => {
                let (whole, part) = rest.split_at(fault.valid_up_to());
                self.count(whole);
                if fault.error_len().is_some() || self.part.extend_from_slice(part).is_err() {
                    return Some(self.line);
                }
            }
        }
        None
    }

    // Adds a byte to the character that isn't whole, and returns whether it can be one.
    fn complete(&mut self, byte: u8) -> bool {
        if self.part.push(byte).is_err() {
            return false;
        }
        match str::from_utf8(&self.part) {
            Ok(_) => {
                self.part.clear();
                true
            }
            Err(fault) => fault.error_len().is_none(),
        }
    }

    // Counts the lines that end in these bytes.
    fn count(&mut self, bytes: &[u8]) {
        let ends = bytes.iter().filter(|b| **b == b'\n').count();
        self.line = self.line.saturating_add(ends);
    }
}

impl<'a, R: Files + Input + Tell + AllocGlobal> Inputs<'a, R> {
    /// None of these inputs is open yet. If their lines must be texts, the message on a line that isn't UTF-8
    /// has its input and its number. If that is asked for, it is shown how far the reading is.
    pub fn new(rt: &'a R, names: &'a [&'a str], are_texts: bool, is_shown: bool) -> Inputs<'a, R> {
        Inputs {
            rt,
            names,
            opened: 0,
            current: None,
            meter: meter_of(rt, names, is_shown),
            is_shown,
            is_ended: true,
            text: if are_texts {
                Some(Text {
                    line: 1,
                    part: Vec::new(rt.alloc()),
                })
            } else {
                None
            },
            status: None,
        }
    }

    // What the current input is called.
    fn name(&self) -> &'a str {
        match self.names.get(self.opened.saturating_sub(1)) {
            Some(name) => name_of(*name),
            None => "",
        }
    }

    // After a message, which names the current input.
    fn fail(&mut self, status: u8) -> io::Error {
        self.status = Some(status);
        io::Error::from(ErrorKind::InvalidData)
    }

    // Opens the next input, if there is one.
    fn open(&mut self) -> io::Result<bool> {
        let Some(name) = self.names.get(self.opened) else {
            return Ok(false);
        };
        self.opened = self.opened.saturating_add(1);
        match Metered::open(self.rt, *name, self.meter) {
            Ok(input) => {
                self.current = Some(input);
                Ok(true)
            }
            Err(status) => Err(self.fail(status)),
        }
    }

    // Reads from the current input. At its end it is closed.
    fn read_current(&mut self, buf: &mut [u8]) -> io::Result<usize>
        ensures { IfOk result (λ n. n ≤ length buf.old) }
    {
        let Some(input) = &mut self.current else {
            return Ok(0);
        };
        let read = input.read(buf);
        let meter = input.meter;
        match read {
            Ok(0) => {
                self.meter = meter;
                self.close()?;
                Ok(0)
            }
            Ok(n) => {
                self.check(&buf[..n])?;
                Ok(n)
            }
            Err(e) if e.kind() == ErrorKind::Interrupted => Err(e),
            Err(e) => {
                let status = report::stopped(self.rt, StreamError::Read, self.name(), Some(e));
                Err(self.fail(status))
            }
        }
    }

    // Closes the current input, whose last character must be whole.
    fn close(&mut self) -> io::Result<()> {
        self.current = None;
        let Some(text) = &mut self.text else {
            return Ok(());
        };
        let (line, is_whole) = (text.line, text.part.is_empty());
        text.line = 1;
        if is_whole {
            return Ok(());
        }
        let status = report::line_not_utf8(self.rt, self.name(), line);
        Err(self.fail(status))
    }

    // All inputs are read.
    fn end(&mut self) {
        if self.is_shown {
            let count = self.meter.done();
            report::say(self.rt, format_args!("{count} bytes read"));
        }
    }

    // Looks at bytes that were read.
    fn check(&mut self, bytes: &[u8]) -> io::Result<()> {
        self.is_ended = bytes.last() == Some(&b'\n');
        let fault = match &mut self.text {
            Some(text) => text.take(bytes),
            None => None,
        };
        match fault {
            None => Ok(()),
            Some(line) => {
                let status = report::line_not_utf8(self.rt, self.name(), line);
                Err(self.fail(status))
            }
        }
    }
}

impl<R: Files + Input + Tell + AllocGlobal> Read for Inputs<'_, R> {
    // What a reader has yet to give is said of none of the inputs.
    ghost remaining = { λ _. None };

    fn read(&mut self, buf: &mut [u8]) -> io::Result<usize> {
        if buf.is_empty() {
            return Ok(0);
        }
        for _ in self.opened..=self.names.len() {
            let n = self.read_current(buf)?;
            if n > 0 {
                return Ok(n);
            }
            if !self.open()? {
                self.end();
                return Ok(0);
            }
            if !self.is_ended {
                self.is_ended = true;
                buf[0] = b'\n';
                return Ok(1);
            }
        }
        Ok(0)
    }
}
