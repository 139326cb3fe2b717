//! An input that keeps what was read last, so that a message can show a line or code that isn't translated.
ghost use Rattle.std.specs.Prelude.{None};

use crate::io::metered::Metered;
use crate::io::report::Tell;
use intaglio_columns::codes::CODE;
use std::alloc::AllocError;
use std::io;
use std::io::{ErrorKind, Read};
use std::rt::Files;

/// Reads through an input, and keeps the bytes that were read last, with the
/// part of a line or code before them.
#[derive(Drop)]
pub struct Keeping<'a, R: Files + Input> {
    /// The input.
    pub input: Metered<'a, R>,
    // Whether it has codes. Otherwise it has lines.
    has_codes: bool,
    kept: Vec<u8>,
    // How many of the kept bytes were read before the last ones, or were looked
    // through for the end of a line.
    seen: usize,
}

impl<'a, R: Files + Input + Tell + AllocGlobal> Keeping<'a, R> {
    /// Keeps nothing yet.
    pub fn new(rt: &R, input: Metered<'a, R>, has_codes: bool) -> Keeping<'a, R> {
        Keeping {
            input,
            has_codes,
            kept: Vec::new(rt.alloc()),
            seen: 0,
        }
    }
}

impl<R: Files + Input> Keeping<'_, R> {
    /// The bytes that were read last, with the part of a line or code before them.
    pub fn kept(&self) -> &[u8] {
        &self.kept
    }

    // Keeps bytes that were read, and drops the whole lines or codes before them.
    fn keep(&mut self, bytes: &[u8]) -> Result<(), AllocError> {
        let (whole, length) = (self.whole(), self.kept.len());
        if 0 < whole && whole <= length {
            self.kept.copy_within(whole.., 0);
            self.kept.truncate(length - whole);
        }
        self.seen = self.kept.len();
        self.kept.extend_from_slice(bytes)
    }

    // How many of the kept bytes are whole lines or codes.
    fn whole(&self) -> usize {
        if self.has_codes {
            let length = self.kept.len();
            return length.saturating_sub(length % CODE);
        }
        match self.kept.get(self.seen..) {
            Some(last) => match last.iter().rposition(|b| *b == b'\n') {
                Some(end) => self.seen.saturating_add(end).saturating_add(1),
                None => 0,
            },
            None => 0,
        }
    }
}

impl<R: Files + Input + Tell> Read for Keeping<'_, R> {
    // What a reader has yet to give is said of none of the inputs.
    ghost remaining = { λ _. None };

    fn read(&mut self, buf: &mut [u8]) -> io::Result<usize> {
        let taken = self.input.read(buf)?;
        if self.keep(&buf[..taken]).is_err() {
            self.input.error = Some(io::Error::from(ErrorKind::OutOfMemory));
            return Err(io::Error::from(ErrorKind::OutOfMemory));
        }
        Ok(taken)
    }
}
