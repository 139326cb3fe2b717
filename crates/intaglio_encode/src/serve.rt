//! A run of the program over any input and output.
ghost use Rattle.std.specs.Prelude.{◌≡◌, ◌≢◌, ◌≤◌, ◌↔◌, None, OnOk, IfErr, IfSome, IsErrAnd, map, string_bytes};
ghost use Rattle.std.specs.Io.KnownBytes.{IsAtEnd};
ghost use Rattle.intaglio_lines.specs.Kind.{is_fit, kind_of_words};
ghost use Rattle.intaglio_encode.specs.Encodes.{Accepts, Encodes, EncodesBy, Forbids, IsTooMany, ReadsForbidden};
ghost use Rattle.intaglio_encode.specs.Encodes.{RefusesBy};
ghost use Rattle.intaglio_lines.specs.Puts.{WritesOnlyIf};
ghost use Rattle.intaglio_lines.specs.ToolError.{IsInputError, ReportsFirstUnfit};
ghost use Rattle.intaglio_encode.specs.RunError.{IfEncode};
ghost use Rattle.intaglio_encode.specs.declared.error.RunError.TheVariants.{Encode, NoSeed};
ghost use Rattle.intaglio_lines.specs.declared.tool_error.ToolError.TheVariants.{NotUtf8, Overflow, Write as WriteFailed};

use crate::encode::encode;
use crate::error::RunError;
use intaglio_lines::error::report;
use intaglio_lines::kind::Kind;
use std::alloc::Global;
use std::hash::BuildHasher;
use std::io::{Read, Write};

const USAGE: &str = "usage: intaglio_tool text|bytes|bstr|cstr|osstr|path";

/// Runs the program on the arguments after its name, and returns its exit status. An error is written to
/// `faults`, whose own failures are ignored.
///
/// The status is 0 after the whole output, 2 if the arguments name no kind, and 1 otherwise. If they name
/// none, or there is no builder, nothing is read or written.
pub fn serve<S: BuildHasher + Drop, R: Read, W: Write, E: Write>(
    alloc: Global,
    words: &[String],
    builder: Option<S>,
    reader: &mut R,
    writer: &mut W,
    faults: &mut E,
) -> u8
    ensures statuses { result ≤ 2 }
    ensures usage { (result ≡ 2) ↔ (kind_of_words (map string_bytes words.now) ≡ None) }
    ensures unread { result ≡ 2 → reader.new ≡ reader.old }
    ensures unwritten { result ≡ 2 → writer.new ≡ writer.old }
    ensures seedless { builder ≡ None → (result ≢ 0) × (reader.new ≡ reader.old) × (writer.new ≡ writer.old) }
    ensures written { result ≡ 0 → EncodesBy words.now
        (R.remaining reader.old) W.contents writer.old writer.new }
    ensures all_read { result ≡ 0 → IsAtEnd (R.remaining reader.new) }
    ensures refuses { RefusesBy words.now (R.remaining reader.old) result writer.old writer.new }
{
    let Some(kind) = Kind::from_words(words) else {
        let _ = writeln!(faults, "{USAGE}");
        return 2;
    };
    match run(alloc, kind, builder, reader, writer) {
        Ok(()) => 0,
        Err(fault) => report(fault, faults),
    }
}

/// Encodes the input if there is a builder.
///
/// # Errors
///
/// `NoSeed` exactly if there is none, and then nothing was read; otherwise the error of [`encode`]. After
/// each error but a failed write nothing was written.
pub fn run<S: BuildHasher + Drop, R: Read, W: Write>(
    alloc: Global,
    kind: Kind,
    builder: Option<S>,
    reader: &mut R,
    writer: &mut W,
) -> Result<(), RunError>
    ensures no_seed { (result ≡ Err NoSeed) ↔ (builder ≡ None) }
    ensures unread { result ≡ Err NoSeed → reader.new ≡ reader.old }
    ensures written { OnOk result (Encodes kind (R.remaining reader.old) W.contents writer.old writer.new) }
    ensures all_read { OnOk result (IsAtEnd (R.remaining reader.new)) }

    // What `encode` promises of its errors.
    ensures not_utf8 { result ≡ Err (Encode NotUtf8) →
        ReadsForbidden kind (R.remaining reader.old) (R.remaining reader.new) }
    ensures refuses { IfSome (R.remaining reader.old)
        (λ input. Forbids kind input → IsErrAnd result (λ e. IfEncode e IsInputError)) }
    ensures zero { IfSome (R.remaining reader.old)
        (λ input. IfErr result (λ e. IfEncode e (ReportsFirstUnfit (is_fit kind) input))) }
    ensures accepts { IfSome (R.remaining reader.old)
        (λ input. WritesOnlyIf (Accepts kind input) result writer.old writer.new) }
    ensures overflow { result ≡ Err (Encode Overflow) → IfSome (R.remaining reader.old) (IsTooMany kind) }
    ensures nothing_written { IfErr result (λ e. e ≢ Encode WriteFailed → writer.new ≡ writer.old) }
{
    let Some(builder) = builder else {
        return Err(RunError::NoSeed);
    };
    encode(alloc, kind, builder, reader, writer)?;
    Ok(())
}
