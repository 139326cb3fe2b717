//! How a list of codes is made a column.
ghost use Rattle.std.specs.Prelude.{◌≡◌, ◌++◌, ◌<◌, ◌^◌, length, true, IfErr, IfOk};
ghost use Rattle.std.specs.Int.{w32, w64, to_le_bytes};
ghost use Rattle.std.specs.List.{flat_map};
ghost use Rattle.intaglio_columns.specs.Layout.{checksum_of, codes as codes_of, source_of, strings as strings_of};
ghost use Rattle.intaglio_columns.specs.Codes.{AreCodes};
ghost use Rattle.intaglio_columns.specs.IsColumn.{Describes, HasRows, IsColumn, IsFull, IsHeaderOf};
ghost use Rattle.intaglio_columns.specs.Source.{fits};
ghost use Rattle.intaglio_columns.specs.Width.{width_for};
ghost use Rattle.intaglio_columns.specs.Writing.{HasRanges, IsRefusal, code_bytes, column_of, file_of, header_for, header_of, source_bytes, start_of};

use crate::file::checksum::seal;
use crate::file::code::MISSING;
use crate::file::column::Column;
use crate::file::error::ColumnWriteError;
use crate::file::header::{ColumnHeader, HEADER, MAGIC, MAX_COUNT, VERSION};
use crate::file::list::CodeList;
use crate::file::source::RowSource;
use crate::file::width::Width;
use intaglio_frozen::{DictionaryId, kind_number};
use std::alloc::{AllocError, Global};

/// The bytes of a column of lines that have these codes, under this dictionary in one file: they open, to the
/// same codes. The same arguments always give the same bytes.
///
/// # Errors
///
/// `NoString` for a code that is neither that of a string nor [`MISSING`](crate::MISSING), `TooMany` if the
/// dictionary has 2^32 strings or more, `Memory` if an allocation fails.
pub fn column_bytes<L: CodeList>(
    alloc: Global,
    id: DictionaryId,
    codes: &L,
) -> Result<Vec<u8>, ColumnWriteError>
    ensures bytes { IfOk result (λ bytes. bytes.items ≡ column_of id (L.codes codes.now)) }
    ensures column { IfOk result (λ bytes. IsColumn bytes.items) }
    ensures codes { IfOk result (λ bytes. codes_of bytes.items ≡ L.codes codes.now) }
    ensures id { IfOk result (λ bytes. Describes bytes.items id) }
    ensures err { IfErr result (IsRefusal 0 id.count (L.codes codes.now)) }
{
    sourced_column_bytes(alloc, id, 1, RowSource::LINES, codes)
}

/// The bytes of a column of these codes, whose rows come from this source, under a dictionary with so many
/// shards: they open, to the same codes.
///
/// # Errors
///
/// Those of [`column_bytes`], and `Missing` for a missing code, unless the rows are lines.
pub fn sourced_column_bytes<L: CodeList>(
    alloc: Global,
    id: DictionaryId,
    shards: u32,
    source: RowSource,
    codes: &L,
) -> Result<Vec<u8>, ColumnWriteError>
    requires { fits shards source ≡ true }
    ensures bytes { let cs = L.codes codes.now in
        IfOk result (λ bytes. bytes.items ≡ file_of (header_for id shards source cs) cs) }
    ensures column { IfOk result (λ bytes. IsColumn bytes.items) }
    ensures codes { IfOk result (λ bytes. codes_of bytes.items ≡ L.codes codes.now) }
    ensures header { let header = header_for id shards source (L.codes codes.now) in
        IfOk result (λ bytes. IsHeaderOf bytes.items header) }
    ensures id { IfOk result (λ bytes. Describes bytes.items id) }
    ensures err { IfErr result (IsRefusal source.shards id.count (L.codes codes.now)) }
{
    let header = ColumnHeader {
        id,
        shards,
        source,
        width: Width::of(id.count),
        rows: codes.len() as u64,
    };
    let bytes = assemble(alloc, header, codes)?;
    match check_full(&bytes) {
        Ok(()) => Ok(bytes),
        Err(refused) => Err(refused),
    }
}

/// The bytes of a header with zeros in place of the checksum. With as many codes behind it as it has rows,
/// each in the bytes of its width, it is a column that opens if it is trusted.
///
/// # Errors
///
/// [`AllocError`] if the allocation fails.
pub fn header_bytes(alloc: Global, header: ColumnHeader) -> Result<Vec<u8>, AllocError>
    ensures { IfOk result (λ bytes. bytes.items ≡ header_of header) }
{
    let mut bytes = Vec::with_capacity(alloc, HEADER)?;
    put_header(&mut bytes, header)?;
    Ok(bytes)
}

// The bytes of a column of these codes, some of which may be missing in a map.
fn assemble<L: CodeList>(
    alloc: Global,
    header: ColumnHeader,
    codes: &L,
) -> Result<Vec<u8>, ColumnWriteError>
    requires width { header.width ≡ width_for header.id.count }
    requires rows { header.rows ≡ length (L.codes codes.now) }
    ensures bytes { IfOk result (λ bytes. bytes.items ≡ file_of header (L.codes codes.now)) }
    ensures small { let bare = header_of header ++ flat_map (code_bytes header.width) (L.codes codes.now) in
        IfOk result (λ _. checksum_of bare < 2 ^ 64) }
    ensures ranges { HasRanges header }
    ensures few { IfOk result (λ _. header.id.count < 2 ^ 32) }
    ensures known { IfOk result (λ _. AreCodes header.id.count (L.codes codes.now)) }
    ensures err { IfErr result (IsRefusal header.source.shards header.id.count (L.codes codes.now)) }
{
    if header.id.count > MAX_COUNT {
        return Err(ColumnWriteError::TooMany);
    }
    let mut bytes = Vec::with_capacity(alloc, size_of_column(header.width, codes.len()))?;
    put_header(&mut bytes, header)?;
    put_codes(&mut bytes, header.id.count, header.width, codes)?;
    seal(&mut bytes);
    Ok(bytes)
}

// Checks that no row is missing, if the rows come from a dictionary.
fn check_full(bytes: &[u8]) -> Result<(), ColumnWriteError>
    requires { HasRows bytes.now }
    ensures full { IfOk result (λ _. IsFull bytes.now) }
    ensures err { IfErr result (IsRefusal (source_of bytes.now).shards (strings_of bytes.now) (codes_of bytes.now)) }
{
    match Column::open_trusted(bytes) {
        Ok(column) => match column.first_gap() {
            Some(row) => Err(ColumnWriteError::Missing(row as u64)),
            None => Ok(()),
        },
        Err(_) => Ok(()),
    }
}

// How many bytes a column has.
fn size_of_column(width: Width, rows: usize) -> usize {
    rows.saturating_mul(width.bytes()).saturating_add(HEADER)
}

fn put_header(bytes: &mut Vec<u8>, header: ColumnHeader) -> Result<(), AllocError>
    ensures { IfOk result (λ _. bytes.new.items ≡ bytes.old.items ++ header_of header) }
{
    put_start(bytes, header)?;
    bytes.extend_from_slice(&[0u8; 8])?;
    put_source(bytes, header.source)?;
    bytes.extend_from_slice(&[0u8; 36])?;
    Ok(())
}

// Adds what a header has before its checksum.
fn put_start(bytes: &mut Vec<u8>, header: ColumnHeader) -> Result<(), AllocError>
    ensures { IfOk result (λ _. bytes.new.items ≡ bytes.old.items ++ start_of header) }
{
    put_u64(bytes, MAGIC)?;
    put_u32(bytes, VERSION)?;
    put_u32(bytes, kind_number(header.id.is_text))?;
    put_u64(bytes, header.id.hash0)?;
    put_u64(bytes, header.id.hash1)?;
    put_u64(bytes, header.id.count)?;
    put_u64(bytes, header.rows)?;
    put_u32(bytes, header.width.bytes() as u32)?;
    put_u32(bytes, header.shards)?;
    Ok(())
}

fn put_source(bytes: &mut Vec<u8>, source: RowSource) -> Result<(), AllocError>
    ensures { IfOk result (λ _. bytes.new.items ≡ bytes.old.items ++ source_bytes source) }
{
    put_u32(bytes, source.shards)?;
    put_u32(bytes, kind_number(source.is_text))?;
    put_u64(bytes, source.hash0)?;
    put_u64(bytes, source.hash1)?;
    put_u32(bytes, source.shard)?;
    Ok(())
}

fn put_u32(bytes: &mut Vec<u8>, number: u32) -> Result<(), AllocError>
    ensures { IfOk result (λ _. bytes.new.items ≡ bytes.old.items ++ to_le_bytes w32 number) }
{
    bytes.extend_from_slice(&number.to_le_bytes())
}

fn put_u64(bytes: &mut Vec<u8>, number: u64) -> Result<(), AllocError>
    ensures { IfOk result (λ _. bytes.new.items ≡ bytes.old.items ++ to_le_bytes w64 number) }
{
    bytes.extend_from_slice(&number.to_le_bytes())
}

// Adds the codes.
fn put_codes<L: CodeList>(
    bytes: &mut Vec<u8>,
    strings: u64,
    width: Width,
    codes: &L,
) -> Result<(), ColumnWriteError>
    ensures added { let added = flat_map (code_bytes width) (L.codes codes.now) in
        IfOk result (λ _. bytes.new.items ≡ bytes.old.items ++ added) }
    ensures known { IfOk result (λ _. AreCodes strings (L.codes codes.now)) }
    ensures err { IfErr result (IsRefusal 0 strings (L.codes codes.now)) }
{
    for row in 0..codes.len() {
        let code = codes.code(row);
        if code as u64 >= strings && code != MISSING {
            return Err(ColumnWriteError::NoString(row as u64));
        }
        put_code(bytes, width, code)?;
    }
    Ok(())
}

// Adds a code of a width.
fn put_code(bytes: &mut Vec<u8>, width: Width, code: u32) -> Result<(), AllocError>
    ensures { IfOk result (λ _. bytes.new.items ≡ bytes.old.items ++ code_bytes width code) }
{
    match width {
        Width::One => bytes.extend_from_slice(&[(code % (1 << 8)) as u8]),
        Width::Two => bytes.extend_from_slice(&((code % (1 << 16)) as u16).to_le_bytes()),
        Width::Four => bytes.extend_from_slice(&code.to_le_bytes()),
    }
}
