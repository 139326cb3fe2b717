//! A run of the program over any input and output.
ghost use Rattle.std.specs.Prelude.{◌≡◌, ◌≢◌, ◌≤◌, ◌↔◌, None, IsTrue, IfSome};
ghost use Rattle.std.specs.Io.KnownBytes.{IsAtEnd};
ghost use Rattle.intaglio_decode.specs.Restores.{Restores};
ghost use Rattle.intaglio_lines.specs.Fault.{fault_of};

use crate::restore::restore;
use intaglio_lines::error::report;
use std::alloc::Global;
use std::io::{Read, Write};

const USAGE: &str = "usage: intaglio_restore";

/// Runs the program, and returns its exit status. An error is written to the last writer,
/// whose own failures are ignored.
///
/// The status is 0 after the whole output, 2 if there are arguments, and 1 otherwise. If there are arguments,
/// nothing is read or written.
pub fn serve<R: Read, W: Write, E: Write>(
    alloc: Global,
    has_arguments: bool,
    reader: &mut R,
    writer: &mut W,
    errors: &mut E,
) -> u8
    ensures statuses { result ≤ 2 }
    ensures usage { (result ≡ 2) ↔ IsTrue has_arguments }
    ensures unread { result ≡ 2 → reader.new ≡ reader.old }
    ensures unwritten { result ≡ 2 → writer.new ≡ writer.old }
    ensures written { result ≡ 0 → Restores (R.remaining reader.old) W.contents writer.old writer.new }
    ensures all_read { result ≡ 0 → IsAtEnd (R.remaining reader.new) }
    ensures refuses { IfSome (R.remaining reader.old)
        (λ input. fault_of input ≢ None → (result ≢ 0) × (writer.new ≡ writer.old)) }
{
    if has_arguments {
        let _ = writeln!(errors, "{USAGE}");
        return 2;
    }
    match restore(alloc, reader, writer) {
        Ok(()) => 0,
        Err(error) => report(error, errors),
    }
}
