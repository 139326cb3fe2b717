//! Writes outputs through a block of fixed size.
ghost use Rattle.std.specs.Prelude.{◌≡◌, ◌≢◌, ◌+◌, ◌≤◌, ◌⊎◌, ◌++◌, ℕ, List, [], OnOk, OnErr, IfOk, IfErr, length, take, vec_len, vec_capacity};
ghost use Rattle.std.specs.Io.KnownBytes.{Keeps};
ghost use Rattle.intaglio_lines.specs.Output.{number_line, spelling_line};
ghost use Rattle.intaglio_lines.specs.Puts.{Puts, Writes, WritesFront, held};
ghost use Rattle.intaglio_lines.specs.StreamError.{IsWritingError};
ghost use Rattle.intaglio_lines.specs.declared.error.StreamError.TheVariants.{Write as WriteFailed};

use crate::error::StreamError;
use std::alloc::Global;
use std::io;
use std::io::{ErrorKind, Write};

// How many bytes are buffered before they are written.
const BLOCK: usize = 64 * 1024;

// The length of the longest line of a number: twenty digits and byte 10.
const NUMBER_LINE: usize = 21;

/// An output that is written piece by piece, through a block.
pub trait Output {
    ghost bytes: { Self → List ℕ };

    // What holds of each value when it is written.
    ghost is_ready: { Self → Type 0 };

    /// Writes all of its bytes, with [`put`].
    fn put_all<W: Write>(&self, block: &mut Vec<u8>, writer: &mut W) -> io::Result<()>
        requires { is_ready self.now }
        ensures { OnOk result (Puts W.contents writer.old block.old writer.new block.new (bytes self.now)) };
}

/// Writes all bytes of an output, and flushes.
///
/// One block is allocated before the first write, and nothing after that.
///
/// # Errors
///
/// `Memory` if the allocation of the block fails: then nothing was written. `Write` if a write or the flush
/// fails: then it isn't known how much was written.
pub fn write_output<O: Output, W: Write>(
    alloc: Global,
    output: &O,
    writer: &mut W,
) -> Result<(), StreamError>
    requires { O.is_ready output.now }
    ensures written { OnOk result (Writes W.contents writer.old writer.new (O.bytes output.now)) }
    ensures nothing_written { IfErr result (λ e. e ≢ WriteFailed → writer.new ≡ writer.old) }
    ensures err { IfErr result IsWritingError }
{
    let mut block = Vec::with_capacity(alloc, BLOCK)?;
    match write_through(output, &mut block, writer) {
        Ok(()) => Ok(()),
        Err(_) => Err(StreamError::Write),
    }
}

// Writes all of an output through an empty block, and flushes.
fn write_through<O: Output, W: Write>(
    output: &O,
    block: &mut Vec<u8>,
    writer: &mut W,
) -> io::Result<()>
    requires ready { O.is_ready output.now }
    requires empty { block.old.items ≡ [] }
    ensures { OnOk result (Writes W.contents writer.old writer.new (O.bytes output.now)) }
{
    output.put_all(block, writer)?;
    writer.write_all(block)?;
    writer.flush()
}

/// Writes a line and byte 10 through the block.
///
/// # Errors
///
/// Those of the writer.
pub fn put_line<W: Write>(line: &[u8], block: &mut Vec<u8>, writer: &mut W) -> io::Result<()>
    ensures put { OnOk result
        (Puts W.contents writer.old block.old writer.new block.new (spelling_line line.now)) }
    ensures front { WritesFront W.contents writer.old writer.new (block.old.items ++ spelling_line line.now) }
{
    put(line, block, writer)?;
    put(b"\n", block, writer)
}

/// Writes a number and byte 10 through the block.
///
/// # Errors
///
/// Those of the writer.
pub fn put_number<W: Write>(number: u64, block: &mut Vec<u8>, writer: &mut W) -> io::Result<()>
    ensures { OnOk result
        (Puts W.contents writer.old block.old writer.new block.new (number_line number)) }
{
    // There is room for the longest line, so a block of that size never grows.
    make_room(NUMBER_LINE, block, writer)?;
    writeln!(block, "{number}")
}

/// Appends a piece to what was put before: to the block, or directly to the writer if the piece is longer
/// than the block.
///
/// # Errors
///
/// Those of the writer.
#[tactic(auto, using(crate::proofs::Appended::front_more))]
pub fn put<W: Write>(piece: &[u8], block: &mut Vec<u8>, writer: &mut W) -> io::Result<()>
    ensures put { OnOk result (Puts W.contents writer.old block.old writer.new block.new piece.now) }
    ensures front { WritesFront W.contents writer.old writer.new (block.old.items ++ piece.now) }
{
    make_room(piece.len(), block, writer)?;
    if piece.len() > block.capacity() - block.len() {
        return write_bytes(piece, writer);
    }
    block.extend_from_slice(piece).unwrap();
    Ok(())
}

/// If the block has no room for `count` more bytes, writes out what it holds. Afterwards it
/// has room for them or is empty.
///
/// # Errors
///
/// Those of the writer.
pub fn make_room<W: Write>(count: usize, block: &mut Vec<u8>, writer: &mut W) -> io::Result<()>
    ensures same { OnOk result
        (Keeps (held W.contents writer.old block.old) (held W.contents writer.new block.new)) }
    ensures room { OnOk result
        ((block.new.items ≡ []) ⊎ (vec_len block.new + count ≤ vec_capacity block.new)) }
    ensures front { WritesFront W.contents writer.old writer.new block.old.items }
{
    if count > block.capacity() - block.len() {
        write_bytes(block, writer)?;
        block.clear();
    }
    Ok(())
}

/// Writes all bytes, and repeats writes that were interrupted.
///
/// # Errors
///
/// Those of the writer, or `WriteZero` if it takes no more bytes. Then the front of the bytes is
/// written, up to where it failed.
#[tactic(auto, using(crate::proofs::Appended::written_next, std::proofs::lemmas::Grind::common_steps, std::proofs::lemmas::List::take_rest))]
pub fn write_bytes<W: Write>(bytes: &[u8], writer: &mut W) -> io::Result<()>
    ensures written { OnOk result (Writes W.contents writer.old writer.new bytes.now) }
    ensures front { WritesFront W.contents writer.old writer.new bytes.now }
{
    let mut at = 0;
    for _ in 0..u64::MAX {
        if at == bytes.len() {
            return Ok(());
        }
        at += write_some(&bytes[at..], writer)?;
    }
    Err(io::Error::from(ErrorKind::Interrupted))
}

// Writes some bytes, and returns how many: none if the write was interrupted.
fn write_some<W: Write>(bytes: &[u8], writer: &mut W) -> io::Result<usize>
    ensures within { IfOk result (λ n. n ≤ length bytes.now) }
    ensures written { IfOk result (λ n. Writes W.contents writer.old writer.new (take n bytes.now)) }
    ensures kept { OnErr result (Keeps (W.contents writer.old) (W.contents writer.new)) }
{
    match writer.write(bytes) {
        Ok(0) => Err(io::Error::from(ErrorKind::WriteZero)),
        Ok(count) => Ok(count),
        Err(e) => {
            if e.kind() == ErrorKind::Interrupted {
                Ok(0)
            } else {
                Err(e)
            }
        }
    }
}
