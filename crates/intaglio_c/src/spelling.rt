//! How C gets a content's bytes: their place, or a copy.
ghost use Rattle.std.specs.Prelude.{◌≡◌};
ghost use Rattle.intaglio_c.specs.Cited.{Some, length, Gives, filled};

use crate::refusal::Refusal;
use std::ptr::from_ref;

// What the pointer of no bytes leads to. C may pass it on, since it isn't null.
const NO_BYTES: &'static u8 = &0;

/// Bytes, as a pointer and a length. If the length is 0, the pointer leads to a byte of no string.
#[repr(C)]
#[derive(Drop)]
pub struct Spelling {
    /// The address of the first byte.
    pub at: *const u8,
    /// How many bytes there are.
    pub len: usize,
}

impl Spelling {
    pub(crate) fn of(bytes: &[u8]) -> Spelling
        ensures len { result.len ≡ length bytes.now }
    {
        Spelling {
            at: from_ref(bytes.first().unwrap_or(NO_BYTES)),
            len: bytes.len(),
        }
    }
}

// Copies bytes to the start of a buffer that has space for them.
pub(crate) fn fill(buffer: &mut [u8], bytes: &[u8])
    ensures copied { buffer.new ≡ filled buffer.old (Some bytes.now) }
{
    if buffer.len() < bytes.len() {
        return;
    }
    buffer[..bytes.len()].copy_from_slice(bytes);
}

// Writes how many bytes there are, and copies them to the start of a buffer that has space for them.
pub(crate) fn give(bytes: &[u8], buffer: &mut [u8], len: &mut usize) -> Result<(), Refusal>
    ensures given { Gives bytes.now buffer.old buffer.new len.new result }
{
    *len = bytes.len();
    fill(buffer, bytes);
    if buffer.len() < bytes.len() {
        return Err(Refusal::NoSpace);
    }
    Ok(())
}
