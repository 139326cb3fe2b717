//! An output that notices how a write failed.
use std::io;
use std::io::Write;

/// Writes through another stream, and keeps the last error.
#[derive(Drop)]
pub struct Noticing<S> {
    /// The stream.
    pub stream: S,
    /// The last error.
    pub error: Option<io::Error>,
}

impl<S> Noticing<S> {
    /// Nothing has failed yet.
    pub fn new(stream: S) -> Noticing<S> {
        Noticing {
            stream,
            error: None,
        }
    }
}

impl<W: Write> Write for Noticing<W> {
    ghost contents = { λ w. W.contents w.stream };

    fn write(&mut self, buf: &[u8]) -> io::Result<usize> {
        match self.stream.write(buf) {
            Ok(taken) => Ok(taken),
            Err(error) => {
                self.error = Some(error);
                Err(error)
            }
        }
    }

    fn flush(&mut self) -> io::Result<()> {
        match self.stream.flush() {
            Ok(()) => Ok(()),
            Err(error) => {
                self.error = Some(error);
                Err(error)
            }
        }
    }
}
