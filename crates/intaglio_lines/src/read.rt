//! Reads an input to its end.
ghost use Rattle.std.specs.Prelude.{◌≡◌, OnOk, IfOk, IfErr, IfSome};
ghost use Rattle.std.specs.Io.KnownBytes.{IsAtEnd};
ghost use Rattle.intaglio_lines.specs.StreamError.{IsReadingError};

use crate::error::StreamError;
use std::alloc::Global;
use std::io::{ErrorKind, Read};

// How many bytes a read may return.
const BLOCK: usize = 64 * 1024;

/// Reads all bytes of the input. An interrupted read is repeated.
///
/// The memory for a read is reserved before it, so that an allocation failure is
/// never mistaken for a failed read.
///
/// # Errors
///
/// `Memory` if an allocation failed, `Read` if a read failed or the end wasn't
/// reached after `u64::MAX` reads.
pub fn read_all<R: Read>(alloc: Global, reader: &mut R) -> Result<Vec<u8>, StreamError>
    ensures bytes { IfOk result (λ bytes. IfSome (R.remaining reader.old) (λ input. bytes.items ≡ input)) }
    ensures end { OnOk result (IsAtEnd (R.remaining reader.new)) }
    ensures err { IfErr result IsReadingError }
{
    let mut bytes = Vec::new(alloc);
    let mut block = [0u8; BLOCK];
    for _ in 0..u64::MAX {
        bytes.reserve(BLOCK)?;
        match reader.read(&mut block) {
            Ok(0) => return Ok(bytes),
            Ok(n) => bytes.extend_from_slice(&block[..n]).unwrap(),
            Err(e) => {
                if e.kind() != ErrorKind::Interrupted {
                    return Err(StreamError::Read);
                }
            }
        }
    }
    Err(StreamError::Read)
}
