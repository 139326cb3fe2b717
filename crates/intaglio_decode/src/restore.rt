//! From the bytes read to the bytes written.
ghost use Rattle.std.specs.Prelude.{◌≡◌, ◌≢◌, None, OnOk, IfErr, IfSome};
ghost use Rattle.std.specs.Io.KnownBytes.{IsAtEnd};
ghost use Rattle.intaglio_lines.specs.Fault.{fault_of};
ghost use Rattle.intaglio_lines.specs.declared.error.StreamError.TheVariants.{Write as WriteFailed};
ghost use Rattle.intaglio_decode.specs.Restores.{Restores};
ghost use Rattle.intaglio_decode.specs.RestoreError.{IfFault, IsRefused, Reports};
ghost use Rattle.intaglio_decode.specs.declared.error.RestoreError.TheVariants.{Stream};

use crate::error::RestoreError;
use crate::parts::parse;
use intaglio_lines::read::read_all;
use intaglio_lines::write::write_output;
use std::alloc::Global;
use std::io::{Read, Write};

/// Decodes an output of `intaglio_tool`: writes the string of each symbol, followed by byte 10.
///
/// The whole input is read and checked before anything is written.
///
/// # Errors
///
/// Those of [`RestoreError`]: the first fault of the input, or a failed allocation, read or write. After each
/// but `Write` nothing was written.
pub fn restore<R: Read, W: Write>(
    alloc: Global,
    reader: &mut R,
    writer: &mut W,
) -> Result<(), RestoreError>
    ensures written { OnOk result (Restores (R.remaining reader.old) W.contents writer.old writer.new) }
    ensures all_read { OnOk result (IsAtEnd (R.remaining reader.new)) }

    // The fault reported is that of the first wrong line, and is never passed over.
    ensures fault { IfSome (R.remaining reader.old)
        (λ input. IfErr result (λ e. Reports e (fault_of input))) }
    ensures end_met { IfErr result (λ e. IfFault e (IsAtEnd (R.remaining reader.new))) }
    ensures refuses { IfSome (R.remaining reader.old) (λ input. fault_of input ≢ None → IsRefused result) }

    ensures nothing_written { IfErr result (λ e. e ≢ Stream WriteFailed → writer.new ≡ writer.old) }
{
    let input = read_all(alloc, reader)?;
    let parts = parse(alloc, &input)?;
    write_output(alloc, &parts, writer)?;
    Ok(())
}
