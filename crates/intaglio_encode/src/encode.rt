//! From the bytes read to the bytes written.
ghost use Rattle.std.specs.Prelude.{◌≡◌, ◌≢◌, ◌<◌, ◌^◌, [], OnOk, IfOk, IfErr, IfSome, IsErrAnd};
ghost use Rattle.std.specs.Io.KnownBytes.{IsAtEnd};
ghost use Rattle.intaglio_lines.specs.Encoded.{encoded};
ghost use Rattle.intaglio_lines.specs.Kind.{Allows, is_fit, key_of};
ghost use Rattle.intaglio_lines.specs.Puts.{Writes, WritesOnlyIf};
ghost use Rattle.intaglio_encode.specs.Encodes.{Accepts, Encodes, Forbids, IsEncoding, IsTooMany, ReadsForbidden};
ghost use Rattle.intaglio_lines.specs.ToolError.{IsEncodingError, IsInputError};
ghost use Rattle.intaglio_lines.specs.ToolError.{ReportsFirstUnfit};
ghost use Rattle.intaglio_lines.specs.declared.tool_error.ToolError.TheVariants.{Memory, NotUtf8, Overflow, Write as WriteFailed};

use intaglio_bytes::b_str::BStrKind;
use intaglio_bytes::bytes::BytesKind;
use intaglio_core::{ContentOf, Core, KindOwned};
use intaglio_cstr::CStrKind;
use intaglio_lines::encoding::encode_lines;
use intaglio_lines::from_line::LineKind;
use intaglio_lines::kind::Kind;
use intaglio_lines::read::read_all;
use intaglio_lines::tool_error::ToolError;
use intaglio_path::PathKind;
use intaglio_text::StrKind;
use intaglio_text::osstr::OsStrKind;
use std::alloc::Global;
use std::hash::BuildHasher;
use std::io::{Read, Write};

/// Interns the lines of the input into a table of that kind, and writes the symbol of each line, an empty
/// line, and the spelling of each symbol.
///
/// The whole input is read before the first line is interned, all lines are interned before anything is
/// written, and nothing is allocated after the first write.
///
/// # Errors
///
/// Those of [`ToolError`]; the first one that occurs is returned. After each but `Write` nothing was written.
pub fn encode<S: BuildHasher + Drop, R: Read, W: Write>(
    alloc: Global,
    kind: Kind,
    builder: S,
    reader: &mut R,
    writer: &mut W,
) -> Result<(), ToolError>
    ensures written { OnOk result (Encodes kind (R.remaining reader.old) W.contents writer.old writer.new) }
    ensures all_read { OnOk result (IsAtEnd (R.remaining reader.new)) }

    // `NotUtf8` is returned only after the whole input was read, and only if the kind doesn't allow that
    // input. A contract can't distinguish a reader at its end from one that has reported it, so an allocation
    // may have failed there: `encode_input` is exact.
    ensures not_utf8 { result ≡ Err NotUtf8 →
        ReadsForbidden kind (R.remaining reader.old) (R.remaining reader.new) }
    ensures refuses { IfSome (R.remaining reader.old)
        (λ input. Forbids kind input → IsErrAnd result IsInputError) }

    // The first line that doesn't fit is reported by its number, and never passed over.
    ensures zero { IfSome (R.remaining reader.old)
        (λ input. IfErr result (ReportsFirstUnfit (is_fit kind) input)) }
    ensures accepts { IfSome (R.remaining reader.old)
        (λ input. WritesOnlyIf (Accepts kind input) result writer.old writer.new) }

    ensures overflow { result ≡ Err Overflow → IfSome (R.remaining reader.old) (IsTooMany kind) }
    ensures nothing_written { IfErr result (λ e. e ≢ WriteFailed → writer.new ≡ writer.old) }
{
    let input = read_all(alloc, reader)?;
    encode_input(alloc, kind, builder, &input, writer)
}

/// The same for an input that was read: it returns `NotUtf8` exactly if the kind doesn't allow the input.
///
/// # Errors
///
/// Those of [`ToolError`] but `Read`; the first one that occurs is returned. After each
/// but `Write` nothing was written.
pub fn encode_input<S: BuildHasher + Drop, W: Write>(
    alloc: Global,
    kind: Kind,
    builder: S,
    input: &[u8],
    writer: &mut W,
) -> Result<(), ToolError>
    ensures written { OnOk result (Writes W.contents writer.old writer.new (encoded kind input.now)) }
    ensures not_utf8 { result ≡ Err NotUtf8 → Forbids kind input.now }
    ensures refuses { Forbids kind input.now → result ≡ Err NotUtf8 }
    ensures zero { IfErr result (ReportsFirstUnfit (is_fit kind) input.now) }
    ensures accepts { WritesOnlyIf (Accepts kind input.now) result writer.old writer.new }
    ensures overflow { result ≡ Err Overflow → IsTooMany kind input.now }
    ensures nothing_written { IfErr result (λ e. e ≢ WriteFailed → writer.new ≡ writer.old) }
    ensures err { IfErr result IsEncodingError }
{
    if !kind.allows(input) {
        return Err(ToolError::NotUtf8);
    }
    encode_allowed(alloc, kind, builder, input, writer)
}

// The same for an input that the kind allows.
fn encode_allowed<S: BuildHasher + Drop, W: Write>(
    alloc: Global,
    kind: Kind,
    builder: S,
    input: &[u8],
    writer: &mut W,
) -> Result<(), ToolError>
    requires { Allows kind input.now }
    ensures { IsEncoding W.contents (key_of kind) (is_fit kind) input.now result writer.old writer.new }
{
    match kind {
        Kind::Text => encode_by::<StrKind, S, W>(alloc, builder, input, writer),
        Kind::Bytes => encode_by::<BytesKind, S, W>(alloc, builder, input, writer),
        Kind::BStr => encode_by::<BStrKind, S, W>(alloc, builder, input, writer),
        Kind::CStr => encode_by::<CStrKind, S, W>(alloc, builder, input, writer),
        Kind::OsStr => encode_by::<OsStrKind, S, W>(alloc, builder, input, writer),
        Kind::Path => encode_by::<PathKind, S, W>(alloc, builder, input, writer),
    }
}

// As `encode_input`, for an input whose lines become contents of this kind.
fn encode_by<'a, K: KindOwned + LineKind<'a>, S: BuildHasher + Drop, W: Write>(
    alloc: Global,
    builder: S,
    input: &'a [u8],
    writer: &mut W,
) -> Result<(), ToolError>
    requires { K.allows input.now }
    ensures { IsEncoding W.contents K.key_of K.fits input.now result writer.old writer.new }
{
    let table = new_table::<K, S>(alloc, builder)?;
    encode_lines(alloc, table, input, writer)
}

// An empty table.
fn new_table<K: KindOwned, S: BuildHasher + Drop>(
    alloc: Global,
    builder: S,
) -> Result<Core<ContentOf<K>, S>, ToolError>
    ensures empty { IfOk result (λ table. table.state.contents ≡ []) }
    ensures limit { IfOk result (λ table. table.state.limit ≡ 2 ^ 32) }
    ensures err { IfErr result (λ e. e ≡ Memory) }
{
    Ok(Core::with_hasher(alloc, builder)?)
}
