//! Calls on columns, which C passes as their bytes. Each call reads the header of the column again, and reads
//! nothing outside the bytes.
ghost use Rattle.std.specs.Prelude.{◌≡◌, ◌-◌};
ghost use Rattle.intaglio_c.specs.Cited.{drop, false, length, min, slice_get, HasRows, IsColumn, codes, width_of, overlaid, rows_of, bytes_of, IsCodeOf, given, ChecksColumn, Counts, WritesColumn, ReadsSource, ReadsTarget};

use crate::reference::Reference;
use crate::refusal::{Refusal, code, done, failed};
use crate::spelling::give;
use intaglio_columns::{Column, DictionaryId, RowSource, sourced_column_bytes};
use std::alloc::Global;

/// Checks that these bytes are a column, and reads all of them. Fails with what is wrong with them.
#[unsafe(no_mangle)]
pub extern "C" fn intaglio_column_check(bytes: &[u8]) -> u32
    ensures checked { IsCodeOf result (ChecksColumn bytes.now) }
    ensures only { IsColumn bytes.now → result ≡ 0 }
{
    let _column = or_code!(Column::open(bytes));
    code(done())
}

/// The number of rows of a column, or 0 if the bytes have no header, or are shorter or longer than it says.
#[unsafe(no_mangle)]
pub extern "C" fn intaglio_column_len(bytes: &[u8]) -> usize
    ensures rows { HasRows bytes.now → result ≡ length (codes bytes.now) }
    ensures none { ¬ HasRows bytes.now → result ≡ 0 }
{
    or_code!(Column::open_trusted(bytes), 0).len()
}

/// How many bytes a code of a column has, or 0 as [`intaglio_column_len`].
#[unsafe(no_mangle)]
pub extern "C" fn intaglio_column_width(bytes: &[u8]) -> usize
    ensures width { HasRows bytes.now → result ≡ bytes_of (width_of bytes.now) }
    ensures none { ¬ HasRows bytes.now → result ≡ 0 }
{
    or_code!(Column::open_trusted(bytes), 0).width().bytes()
}

/// Writes which dictionary a column belongs to, with the number of its strings, or of those of one shard if the
/// column is the map of a shard. Fails with what is wrong with the header, or with how many bytes there are;
/// then nothing is written.
#[unsafe(no_mangle)]
pub extern "C" fn intaglio_column_id(bytes: &[u8], id: &mut Reference) -> u32
    ensures read { IsCodeOf result (ReadsTarget bytes.now id.old id.new) }
{
    let header = or_code!(Column::open_trusted(bytes)).header();
    *id = Reference::of(header.id, header.shards, header.source.shard);
    code(done())
}

/// Writes the dictionary, or the shard of one, whose strings are the rows of a column, which is then a map. For
/// a column of lines it writes that there are no shards. Fails as [`intaglio_column_id`].
#[unsafe(no_mangle)]
pub extern "C" fn intaglio_column_source(bytes: &[u8], id: &mut Reference) -> u32
    ensures read { IsCodeOf result (ReadsSource bytes.now id.old id.new) }
{
    let header = or_code!(Column::open_trusted(bytes)).header();
    let source = header.source;
    let strings = DictionaryId {
        is_text: source.is_text,
        count: header.rows,
        hash0: source.hash0,
        hash1: source.hash1,
    };
    *id = Reference::of(strings, source.shards, source.shard);
    code(done())
}

/// Writes the code of a row of a column, if there is that row, and returns whether there is.
#[unsafe(no_mangle)]
pub extern "C" fn intaglio_column_code(bytes: &[u8], row: usize, found: &mut u32) -> bool
    ensures code { HasRows bytes.now → given result found.new ≡ slice_get (codes bytes.now) row }
    ensures none { ¬ HasRows bytes.now → result ≡ false }
    ensures unwritten { result ≡ false → found.new ≡ found.old }
{
    write_found!(or_code!(Column::open_trusted(bytes), false).code(row), code => found = code)
}

/// Writes the codes of the rows of a column from one on, as many as there are places and
/// rows, and returns how many that is.
#[unsafe(no_mangle)]
pub extern "C" fn intaglio_column_codes(bytes: &[u8], from: usize, places: &mut [u32]) -> usize
    ensures codes { HasRows bytes.now → places.new ≡ overlaid (drop from (codes bytes.now)) places.old }
    ensures count { HasRows bytes.now → result ≡ min (length places.old) (length (codes bytes.now) - from) }
    ensures none { ¬ HasRows bytes.now → result ≡ 0 }
    ensures unwritten { ¬ HasRows bytes.now → places.new ≡ places.old }
{
    or_code!(Column::open_trusted(bytes), 0).codes_into(from, places)
}

/// Writes the rows of a column that have this code, in ascending order, as far as there are places.
/// Returns how many rows have it.
#[unsafe(no_mangle)]
pub extern "C" fn intaglio_column_rows(bytes: &[u8], code: u32, places: &mut [u64]) -> usize
    ensures rows { HasRows bytes.now → places.new ≡ overlaid (rows_of code (codes bytes.now)) places.old }
    ensures count { HasRows bytes.now → result ≡ length (rows_of code (codes bytes.now)) }
    ensures none { ¬ HasRows bytes.now → result ≡ 0 }
    ensures unwritten { ¬ HasRows bytes.now → places.new ≡ places.old }
{
    or_code!(Column::open_trusted(bytes), 0).rows_into(code, places)
}

/// Writes how often each string of the dictionary occurs in a column, and how many rows are missing. Fails
/// with `BadEnds` if there isn't a place for each string, and with what is wrong with the header or with how
/// many bytes there are; then nothing is written.
#[unsafe(no_mangle)]
pub extern "C" fn intaglio_column_counts(bytes: &[u8], places: &mut [u64], missing: &mut u64) -> u32
    ensures counted { IsCodeOf result (Counts bytes.now places.old places.new missing.old missing.new) }
{
    let column = or_code!(Column::open_trusted(bytes));
    if places.len() as u64 != column.id().count {
        return code(failed(Refusal::BadEnds));
    }
    *missing = column.counts_into(places);
    code(done())
}

/// Writes how many bytes a column of lines that have these codes under this dictionary has, and copies them to the
/// start of a buffer that has space for them. Fails with `BadShard` for a dictionary without shards,
/// `NoSymbol` for a code that is neither that of a string nor 2^32 - 1, `TooMany` and `NoMemory`, and nothing
/// is written; and with `NoSpace` if the buffer is too short, with the number written.
#[unsafe(no_mangle)]
pub extern "C" fn intaglio_column_write(
    alloc: Global,
    id: &Reference,
    codes: &[u32],
    buffer: &mut [u8],
    len: &mut usize,
) -> u32
    ensures written { IsCodeOf result (WritesColumn id.now codes.now buffer.old buffer.new len.old len.new) }
{
    if id.shards == 0 {
        return code(failed(Refusal::BadShard));
    }
    let bytes = or_code!(sourced_column_bytes(alloc, id.id, id.shards, RowSource::LINES, &codes));
    code(give(&bytes, buffer, len))
}
