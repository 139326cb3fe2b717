//! Messages that begin with the name of the program.
ghost use Rattle.std.specs.Prelude.{None};

use std::io::Write;
use std::rt::Env;
use std::{io, str};

/// The longest name that a program is called by: longer ones aren't shown.
pub const MAX_NAME: usize = 4096;

/// The name by which the program was called, without its folder, or the other name if that isn't
/// known. The bytes are room for it.
pub fn program_name<'b, R: Env>(rt: &R, other: &'static str, bytes: &'b mut [u8]) -> &'b str {
    let Ok(length) = rt.arg(0, bytes) else {
        return other;
    };
    match str::from_utf8(&bytes[..length]) {
        Ok(path) => without_folder(path),
        Err(_) => other,
    }
}

fn without_folder(path: &str) -> &str {
    match path.rsplit_once('/') {
        Some((_, name)) => name,
        None => path,
    }
}

/// Writes a name before what is written first.
#[derive(Drop)]
pub struct Named<'a, W> {
    stream: W,
    name: &'a str,
    has_name: bool,
}

impl<'a, W> Named<'a, W> {
    /// Nothing was written yet.
    pub fn new(stream: W, name: &'a str) -> Named<'a, W> {
        Named {
            stream,
            name,
            has_name: false,
        }
    }
}

impl<W: Write> Write for Named<'_, W> {
    // What was written before a failure isn't known.
    ghost contents = { λ _. None };

    fn write(&mut self, buf: &[u8]) -> io::Result<usize> {
        if !self.has_name {
            self.has_name = true;
            self.stream.write_all(self.name.as_bytes())?;
            self.stream.write_all(b": ")?;
        }
        self.stream.write(buf)
    }

    fn flush(&mut self) -> io::Result<()> {
        self.stream.flush()
    }
}
