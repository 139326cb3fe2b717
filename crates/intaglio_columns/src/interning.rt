//! Interns the lines of an input, a block at a time.
ghost use Rattle.std.specs.Prelude.{◌≡◌, ◌⊎◌, ◌↔◌, ◌≤◌, ℕ, List, [], ◌++◌, Bool, false, true, length, take, IfErr, IfOk, IfSome, IsTrue, OnOk};
ghost use Rattle.std.specs.Io.KnownBytes.{IsAtEnd};
ghost use Rattle.intaglio_frozen.specs.declared.kind.FrozenKind.{FrozenKind};
ghost use Rattle.intaglio_lines.specs.Decoded.{is_ended};
ghost use Rattle.intaglio_lines.specs.declared.error.StreamError.TheVariants.{Memory};
ghost use Rattle.intaglio_columns.specs.Frozen.{Allows, IsRefusal};
ghost use Rattle.intaglio_columns.specs.Interning.{IsInterned};
ghost use Rattle.intaglio_columns.specs.Translation.{ReadsMore};
ghost use Rattle.intaglio_columns.specs.declared.error.FreezingError.TheVariants.{Stream};

use crate::error::FreezingError;
use crate::translate::{TranslateError, drop_front, read_more};
use intaglio::TableOver;
use intaglio_bytes::bytes::BytesKind;
use intaglio_frozen::{FreezeError, FrozenKind};
use intaglio_lines::error::StreamError;
use intaglio_lines::intern_lines::intern_more_lines;
use intaglio_lines::tool_error::ToolError;
use intaglio_packed::Packed;
use intaglio_symbol::Symbol;
use std::alloc::Global;
use std::hash::BuildHasher;
use std::io::Read;
use std::str;

/// The distinct lines of an input in a table, the symbols of its lines, and how many lines there are,
/// or `u64::MAX` if there are more.
#[derive(Drop)]
pub struct Interned<S: BuildHasher> {
    pub table: TableOver<Packed<BytesKind>, S>,
    pub symbols: Vec<Symbol>,
    pub count: u64,
}

/// Reads an input to its end, and interns its lines. The symbols of the lines are kept if that is asked for.
///
/// The input is read in blocks of 64 KiB. Beside the distinct lines, and the symbols if they are kept, at
/// most a block and a line that isn't whole are held.
///
/// # Errors
///
/// `NotUtf8` if the kind is text and the input isn't, `Table` if there are too
/// many lines, `Memory` or `Read`.
pub fn intern_input<S: BuildHasher + Drop, R: Read>(
    alloc: Global,
    kind: FrozenKind,
    is_kept: bool,
    builder: S,
    reader: &mut R,
) -> Result<Interned<S>, FreezingError>
    ensures interned { IfOk result (λ made. IfSome (R.remaining reader.old)
        (λ input. IsInterned kind is_kept input made.table.state made.symbols.items made.count)) }
    ensures all_read { OnOk result (IsAtEnd (R.remaining reader.new)) }
    ensures err { IfErr result (λ e. IfSome (R.remaining reader.old) (λ input. IsRefusal kind input e)) }
{
    let mut made = Interned::new(alloc, builder)?;
    made.add_all(alloc, kind, is_kept, reader)?;
    Ok(made)
}

impl<S: BuildHasher + Drop> Interned<S> {
    // No lines.
    fn new(alloc: Global, builder: S) -> Result<Interned<S>, FreezingError>
        ensures none { IfOk result (λ made. (kind : FrozenKind) → (is_kept : Bool) → Allows kind [] →
            IsInterned kind is_kept [] made.table.state made.symbols.items made.count) }
        ensures err { IfErr result (λ e. e ≡ Stream Memory) }
    {
        let Ok(table) = TableOver::with_hasher(alloc, builder) else {
            return Err(FreezingError::Stream(StreamError::Memory));
        };
        Ok(Interned {
            table,
            symbols: Vec::new(alloc),
            count: 0,
        })
    }

    // Interns the lines of an input where there were none.
    fn add_all<R: Read>(
        &mut self,
        alloc: Global,
        kind: FrozenKind,
        is_kept: bool,
        reader: &mut R,
    ) -> Result<(), FreezingError>
        requires { IsInterned kind is_kept [] self.old.table.state self.old.symbols.items self.old.count }
        ensures interned { let new = self.new in OnOk result (IfSome (R.remaining reader.old)
            (λ input. IsInterned kind is_kept input new.table.state new.symbols.items new.count)) }
        ensures all_read { OnOk result (IsAtEnd (R.remaining reader.new)) }
        ensures err { IfErr result (λ e. IfSome (R.remaining reader.old) (λ input. IsRefusal kind input e)) }
    {
        let mut bytes = Vec::new(alloc);
        for _ in 0..u64::MAX {
            let seen = bytes.len();
            let more = read_block(reader, &mut bytes)?;
            let size = size_of_lines(&bytes, seen, more);
            self.add(alloc, kind, is_kept, &bytes[..size])?;
            if !more {
                return Ok(());
            }
            drop_front(&mut bytes, size);
        }
        Err(FreezingError::Stream(StreamError::Read))
    }

    // Drops the symbols unless they are kept.
    fn forget(&mut self, is_kept: bool)
        ensures table { self.new.table ≡ self.old.table }
        ensures symbols { is_kept ≡ true → self.new.symbols.items ≡ self.old.symbols.items }
        ensures count { self.new.count ≡ self.old.count }
    {
        if !is_kept {
            self.symbols.clear();
        }
    }

    // Interns lines behind those at the front of an input. If the symbols aren't
    // kept, those of earlier lines go.
    fn add(
        &mut self,
        alloc: Global,
        kind: FrozenKind,
        is_kept: bool,
        lines: &[u8],
    ) -> Result<(), FreezingError>
        ensures added { OnOk result ((front : List ℕ) → is_ended front ≡ true →
            IsInterned kind is_kept front self.old.table.state self.old.symbols.items self.old.count →
            IsInterned kind is_kept (front ++ lines.now) self.new.table.state self.new.symbols.items
            self.new.count) }
        ensures err { IfErr result (λ e. (front rest : List ℕ) → is_ended front ≡ true →
            (is_ended lines.now ≡ true) ⊎ (rest ≡ []) →
            IsInterned kind is_kept front self.old.table.state self.old.symbols.items self.old.count →
            IsRefusal kind (front ++ (lines.now ++ rest)) e) }
    {
        if !is_allowed(kind, lines) {
            return Err(FreezingError::NotUtf8);
        }
        self.forget(is_kept);
        let before = self.symbols.len();
        match intern_more_lines(alloc, &mut self.table, lines, &mut self.symbols) {
            Ok(()) => {}
            Err(ToolError::Overflow) => return Err(FreezingError::Table(FreezeError::TooMany)),
            // Each line of bytes fits, and nothing is read or written.
            Err(_) => return Err(FreezingError::Stream(StreamError::Memory)),
        }
        let more = self.symbols.len() - before;
        self.count = self.count.saturating_add(more as u64);
        Ok(())
    }
}

// Whether bytes can be split into lines of a kind.
fn is_allowed(kind: FrozenKind, bytes: &[u8]) -> bool
    ensures { IsTrue result ↔ Allows kind bytes.now }
{
    match kind {
        FrozenKind::Bytes => true,
        FrozenKind::Text => str::from_utf8(bytes).is_ok(),
    }
}

// Reads some bytes more, as `read_more` does.
fn read_block<R: Read>(reader: &mut R, bytes: &mut Vec<u8>) -> Result<bool, FreezingError>
    ensures read { OnOk result
        (ReadsMore (R.remaining reader.old) (R.remaining reader.new) bytes.old.items bytes.new.items) }
    ensures same { IfOk result (λ more. more ≡ false → bytes.new.items ≡ bytes.old.items) }
    ensures end { IfOk result (λ more. more ≡ false → IsAtEnd (R.remaining reader.new)) }
    ensures err { IfErr result (λ e. (kind : FrozenKind) → (input : List ℕ) → IsRefusal kind input e) }
{
    match read_more(reader, bytes) {
        Ok(more) => Ok(more),
        Err(TranslateError::Stream(fault)) => Err(FreezingError::Stream(fault)),
        Err(TranslateError::Misfit(_, _)) => unreachable!(),
    }
}

// How many bytes at the front are whole lines, or all of them if no more follow. The first `seen` have no line
// end that is sought.
fn size_of_lines(bytes: &[u8], seen: usize, more: bool) -> usize
    requires { seen ≤ length bytes.now }
    ensures within { result ≤ length bytes.now }
    ensures ended { more ≡ true → is_ended (take result bytes.now) ≡ true }
    ensures all { more ≡ false → result ≡ length bytes.now }
{
    let mut size = bytes.len();
    if !more {
        return size;
    }
    while size > seen {
        if bytes[size - 1] == b'\n' {
            return size;
        }
        size -= 1;
    }
    0
}
