//! The header of a column.
ghost use Rattle.std.specs.Prelude.{◌≡◌, ◌==◌, ◌&&◌, IfErr, IfOk, IsOk, length, nat_le};
ghost use Rattle.intaglio_hash.specs.Numbers.{u32_at};
ghost use Rattle.intaglio_frozen.specs.Id.{kind_number};
ghost use Rattle.intaglio_columns.specs.Layout.{kind, source_of, width};
ghost use Rattle.intaglio_columns.specs.IsColumn.{HasHeader, HasKind, HasSource, HasWidth, IsHeaderOf, IsReserved, magic_start};
ghost use Rattle.intaglio_columns.specs.Fault.{IsFault};

use crate::file::error::ColumnError;
use crate::file::source::RowSource;
use crate::file::width::Width;
use intaglio_frozen::DictionaryId;
use intaglio_hash::numbers::{read_u32, read_u64};

/// How many bytes the header of a column has. Its codes follow.
pub const HEADER: usize = 128;

// The letters INT, the byte 0x89, the letters COL, and a line end.
pub(crate) const MAGIC: u64 = 0x0a4c_4f43_8954_4e49;

// Its first four bytes. As a plain code, they are no symbol and not the missing code.
const MAGIC_START: u32 = 0x8954_4e49;

pub(crate) const VERSION: u32 = 2;

pub(crate) const MAX_COUNT: u64 = (1 << 32) - 1;

/// What the header of a column says.
#[derive(Debug, Clone, Copy, PartialEq, Eq)]
pub struct ColumnHeader {
    /// The dictionary to which the codes lead.
    pub id: DictionaryId,
    /// How many shards it has: 1 if it is in one file.
    pub shards: u32,
    /// From where the rows come.
    pub source: RowSource,
    /// How many bytes a code has.
    pub width: Width,
    /// How many rows there are.
    pub rows: u64,
}

impl ColumnHeader {
    /// Reads the header at the beginning of these bytes. Nothing behind it is read, and the checksum isn't
    /// compared.
    ///
    /// # Errors
    ///
    /// What is wrong with the header.
    pub fn read(bytes: &[u8]) -> Result<ColumnHeader, ColumnError>
        ensures header { IfOk result (IsHeaderOf bytes.now) }
        ensures ok { IfOk result (λ _. HasHeader bytes.now) }
        ensures only { HasHeader bytes.now → IsOk result }
        ensures err { IfErr result (IsFault bytes.now) }
    {
        let is_text = read_kind(bytes)?;
        let width = check_width(bytes)?;
        let source = read_source(bytes)?;
        check_reserved(bytes)?;
        Ok(ColumnHeader {
            id: DictionaryId {
                is_text,
                count: read_u64(bytes, 32),
                hash0: read_u64(bytes, 16),
                hash1: read_u64(bytes, 24),
            },
            shards: read_u32(bytes, 52),
            source,
            width,
            rows: read_u64(bytes, 40),
        })
    }
}

/// Whether these bytes begin as those of a column do, by the first four. No plain code of a dictionary in
/// one file has these.
pub fn begins_as_column(bytes: &[u8]) -> bool
    ensures { result ≡ (nat_le 4 (length bytes.now) && (u32_at bytes.now 0 == magic_start)) }
{
    bytes.len() >= 4 && read_u32(bytes, 0) == MAGIC_START
}

// Whether the dictionary is of texts, after the magic and the version.
fn read_kind(bytes: &[u8]) -> Result<bool, ColumnError>
    ensures kind { IfOk result (λ is_text. kind_number is_text ≡ kind bytes.now) }
    ensures ok { IfOk result (λ _. HasKind bytes.now) }
    ensures only { HasKind bytes.now → IsOk result }
    ensures err { IfErr result (IsFault bytes.now) }
{
    if bytes.len() < 12 || read_u64(bytes, 0) != MAGIC {
        return Err(ColumnError::Magic);
    }
    let version = read_u32(bytes, 8);
    if version == 1 {
        return Err(ColumnError::OldVersion);
    }
    if version != VERSION {
        return Err(ColumnError::Version);
    }
    if bytes.len() < HEADER {
        return Err(ColumnError::Header);
    }
    match read_u32(bytes, 12) {
        0 => Ok(false),
        1 => Ok(true),
        _ => Err(ColumnError::Kind),
    }
}

// Reads the width of codes, and checks that it is that of the number of strings.
fn check_width(bytes: &[u8]) -> Result<Width, ColumnError>
    requires { HasKind bytes.now }
    ensures width { IfOk result (λ found. found ≡ width bytes.now) }
    ensures ok { IfOk result (λ _. HasWidth bytes.now) }
    ensures only { HasWidth bytes.now → IsOk result }
    ensures err { IfErr result (IsFault bytes.now) }
{
    let count = read_u64(bytes, 32);
    if count > MAX_COUNT {
        return Err(ColumnError::TooMany);
    }
    let width = Width::of(count);
    if read_u32(bytes, 48) as usize != width.bytes() {
        return Err(ColumnError::Width);
    }
    Ok(width)
}

// Reads from where the rows come, and checks that they can.
fn read_source(bytes: &[u8]) -> Result<RowSource, ColumnError>
    requires { HasWidth bytes.now }
    ensures source { IfOk result (λ found. found ≡ source_of bytes.now) }
    ensures ok { IfOk result (λ _. HasSource bytes.now) }
    ensures only { HasSource bytes.now → IsOk result }
    ensures err { IfErr result (IsFault bytes.now) }
{
    let kind = read_u32(bytes, 68);
    let source = RowSource {
        shards: read_u32(bytes, 64),
        is_text: kind == 1,
        hash0: read_u64(bytes, 72),
        hash1: read_u64(bytes, 80),
        shard: read_u32(bytes, 88),
    };
    if kind > 1 {
        return Err(ColumnError::Source);
    }
    if !source.fits(read_u32(bytes, 52)) {
        return Err(ColumnError::Source);
    }
    Ok(source)
}

// Checks that the reserved bytes are zero.
fn check_reserved(bytes: &[u8]) -> Result<(), ColumnError>
    requires { HasSource bytes.now }
    ensures ok { IfOk result (λ _. HasHeader bytes.now) }
    ensures only { IsReserved bytes.now → IsOk result }
    ensures err { IfErr result (IsFault bytes.now) }
{
    if read_u32(bytes, 92) != 0 || read_u64(bytes, 96) != 0 || read_u64(bytes, 104) != 0 {
        return Err(ColumnError::Reserved);
    }
    if read_u64(bytes, 112) != 0 || read_u64(bytes, 120) != 0 {
        return Err(ColumnError::Reserved);
    }
    Ok(())
}
