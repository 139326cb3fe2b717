//! Freezes the lines of an input, from bytes read to bytes written.
ghost use Rattle.std.specs.Prelude.{◌≡◌, ◌≢◌, ◌⊎◌, ◌<◌, ℕ, List, true, OnOk, IfErr, IfOk, IfSome};
ghost use Rattle.std.specs.Io.KnownBytes.{IsAtEnd};
ghost use Rattle.intaglio_lines.specs.Lines.{lines_of};
ghost use Rattle.intaglio_lines.specs.Puts.{Writes};
ghost use Rattle.intaglio_lines.specs.declared.error.StreamError.TheVariants.{Memory, Write as WriteFailed};
ghost use Rattle.intaglio_frozen.specs.Freezing.{HasKeysFor, IsRefusal as IsTableRefusal, IsTableOf};
ghost use Rattle.intaglio_frozen.specs.Layout.{shards};
ghost use Rattle.intaglio_frozen.specs.SetId.{IsAt};
ghost use Rattle.intaglio_columns.specs.Frozen.{Allows, IsColumnOf, IsRefusal, WritesColumn, WritesTable, distinct_lines, line_symbols};
ghost use Rattle.intaglio_columns.specs.Translation.{count_of};
ghost use Rattle.intaglio_columns.specs.declared.error.FreezingError.TheVariants.{Stream};

use crate::error::FreezingError;
use crate::interning::intern_input;
use crate::progress::Progress;
use crate::{column_bytes, id_of_table};
use intaglio_frozen::{FreezeError, FrozenKind, Place, StringList, freeze_at};
use intaglio_lines::error::StreamError;
use intaglio_symbol::Symbol;
use std::alloc::Global;
use std::hash::BuildHasher;
use std::io::{Read, Write};

/// Writes a frozen table of the distinct lines of an input, and returns how many lines
/// there are, or `u64::MAX` if there are more. The symbol of a line is the number of
/// distinct lines before its first occurrence.
///
/// The builder is that of the table in which the lines are interned. The keys are those of the frozen table
/// ([`freeze`]). If none are given, they are chosen as [`freeze_with_default_keys`] says, and the same lines
/// always give the same table. The input is read in blocks ([`intern_input`]). All is made before anything is
/// written. Each stage is reported to `progress`; what is written doesn't depend on it.
///
/// # Errors
///
/// `NotUtf8` if the kind is text and the input isn't; `Table` if the lines have no frozen table; `Memory`,
/// `Read` or `Write`. After each but `Write` nothing was written.
pub fn freeze_lines<S: BuildHasher + Drop, R: Read, W: Write, P: Progress>(
    alloc: Global,
    kind: FrozenKind,
    keys: Option<(u64, u64)>,
    builder: S,
    reader: &mut R,
    writer: &mut W,
    progress: &mut P,
) -> Result<u64, FreezingError>
    ensures written { OnOk result
        (IfSome (R.remaining reader.old) (λ input. let lines = distinct_lines input in
        WritesTable kind (HasKeysFor keys lines) lines W.contents writer.old writer.new)) }
    ensures count { IfOk result
        (λ n. IfSome (R.remaining reader.old) (λ input. n ≡ count_of (lines_of input))) }
    ensures allowed { OnOk result (IfSome (R.remaining reader.old) (Allows kind)) }
    ensures all_read { OnOk result (IsAtEnd (R.remaining reader.new)) }
    ensures err { IfErr result (λ e. IfSome (R.remaining reader.old) (λ input. IsRefusal kind input e)) }
    ensures nothing_written { IfErr result (λ e. e ≢ Stream WriteFailed → writer.new ≡ writer.old) }
{
    let (bytes, _, count) = frozen_input(alloc, kind, keys, false, builder, reader, progress)?;
    write_whole(&bytes, writer)?;
    Ok(count)
}

/// As [`freeze_lines`], and writes the column of the lines to `column`. It is written first: nothing of the
/// table is written before all of it is.
///
/// # Errors
///
/// Those of [`freeze_lines`]; after each but `Write` nothing was written. After that either nothing of the
/// table was written, or the whole column was.
pub fn freeze_column_file<S: BuildHasher + Drop, R: Read, W: Write, V: Write, P: Progress>(
    alloc: Global,
    kind: FrozenKind,
    keys: Option<(u64, u64)>,
    builder: S,
    reader: &mut R,
    writer: &mut W,
    column: &mut V,
    progress: &mut P,
) -> Result<u64, FreezingError>
    ensures written { OnOk result
        (IfSome (R.remaining reader.old) (λ input. let lines = distinct_lines input in
        WritesTable kind (HasKeysFor keys lines) lines W.contents writer.old writer.new)) }
    ensures column { OnOk result (IfSome (R.remaining reader.old)
        (λ input. WritesColumn kind input V.contents column.old column.new)) }
    ensures count { IfOk result
        (λ n. IfSome (R.remaining reader.old) (λ input. n ≡ count_of (lines_of input))) }
    ensures allowed { OnOk result (IfSome (R.remaining reader.old) (Allows kind)) }
    ensures all_read { OnOk result (IsAtEnd (R.remaining reader.new)) }
    ensures err { IfErr result (λ e. IfSome (R.remaining reader.old) (λ input. IsRefusal kind input e)) }
    ensures nothing_written { IfErr result (λ e. e ≢ Stream WriteFailed → writer.new ≡ writer.old) }
    ensures no_column { IfErr result (λ e. e ≢ Stream WriteFailed → column.new ≡ column.old) }
    ensures order { (writer.new ≡ writer.old) ⊎ IfSome (R.remaining reader.old)
        (λ input. WritesColumn kind input V.contents column.old column.new) }
{
    let (bytes, symbols, count) = frozen_input(alloc, kind, keys, true, builder, reader, progress)?;
    write_column(alloc, &bytes, &symbols, column)?;
    write_whole(&bytes, writer)?;
    Ok(count)
}

// The bytes of a frozen table of the distinct lines of an input, the symbols of its lines if they are kept, and
// how many lines there are.
fn frozen_input<S: BuildHasher + Drop, R: Read, P: Progress>(
    alloc: Global,
    kind: FrozenKind,
    keys: Option<(u64, u64)>,
    is_kept: bool,
    builder: S,
    reader: &mut R,
    progress: &mut P,
) -> Result<(Vec<u8>, Vec<Symbol>, u64), FreezingError>
    ensures table { IfOk result (λ made. IfSome (R.remaining reader.old) (λ input.
        let lines = distinct_lines input in let table = made.0.items in
        IsTableOf kind lines table × (shards table ≡ 1) × HasKeysFor keys lines table)) }
    ensures symbols { is_kept ≡ true → IfOk result
        (λ made. IfSome (R.remaining reader.old) (λ input. made.1.items ≡ line_symbols input)) }
    ensures count { IfOk result
        (λ made. IfSome (R.remaining reader.old) (λ input. made.2 ≡ count_of (lines_of input))) }
    ensures allowed { OnOk result (IfSome (R.remaining reader.old) (Allows kind)) }
    ensures all_read { OnOk result (IsAtEnd (R.remaining reader.new)) }
    ensures err { IfErr result (λ e. IfSome (R.remaining reader.old) (λ input. IsRefusal kind input e)) }
{
    let made = intern_input(alloc, kind, is_kept, builder, reader)?;
    let bytes = frozen_list(alloc, &made.table, kind, keys, Place::SINGLE, progress)?;
    Ok((bytes, made.symbols, made.count))
}

// Writes the column file of the symbols of lines under their frozen table.
fn write_column<V: Write>(
    alloc: Global,
    table: &[u8],
    symbols: &[Symbol],
    column: &mut V,
) -> Result<(), FreezingError>
    ensures column { OnOk result ((file : List ℕ) × IsColumnOf table.now symbols.now file
        × Writes V.contents column.old column.new file) }
    ensures err { IfErr result (λ e. (e ≡ Stream Memory) ⊎ (e ≡ Stream WriteFailed)) }
    ensures no_column { IfErr result (λ e. e ≢ Stream WriteFailed → column.new ≡ column.old) }
{
    // The bytes are a frozen table, and each symbol is that of one of its
    // strings: only memory can be lacking.
    let Ok(id) = id_of_table(table) else {
        return Err(FreezingError::Stream(StreamError::Memory));
    };
    match column_bytes(alloc, id, &symbols) {
        Ok(file) => write_whole(&file, column),
        Err(_) => Err(FreezingError::Stream(StreamError::Memory)),
    }
}

// Freezes a list at a place. Both stages are reported.
pub(crate) fn frozen_list<L: StringList, P: Progress>(
    alloc: Global,
    list: &L,
    kind: FrozenKind,
    keys: Option<(u64, u64)>,
    place: Place,
    progress: &mut P,
) -> Result<Vec<u8>, FreezeError>
    requires { place.shard < place.shards }
    ensures table { IfOk result (λ bytes. IsTableOf kind (L.strings list.now) bytes.items) }
    ensures place { IfOk result (λ bytes. IsAt place bytes.items) }
    ensures keyed { IfOk result (λ bytes. HasKeysFor keys (L.strings list.now) bytes.items) }
    ensures err { IfErr result (IsTableRefusal kind (L.strings list.now)) }
{
    progress.interned(list.len());
    let bytes = freeze_at(alloc, list, kind, keys, place)?;
    progress.frozen(bytes.len());
    Ok(bytes)
}

// Writes all bytes, and flushes.
fn write_whole<W: Write>(bytes: &[u8], writer: &mut W) -> Result<(), FreezingError>
    ensures written { OnOk result (Writes W.contents writer.old writer.new bytes.now) }
    ensures err { IfErr result (λ e. e ≡ Stream WriteFailed) }
{
    if writer.write_all(bytes).is_err() || writer.flush().is_err() {
        return Err(FreezingError::Stream(StreamError::Write));
    }
    Ok(())
}
