//! Interning, looking up and reading strings, one or a batch.
ghost use Rattle.std.specs.Prelude.{◌≡◌, false, length, option_map};
ghost use Rattle.intaglio_c.specs.Cited.{given, IsCodeOf, ChangesWithSymbol, Keeps, filled, known, stored, ChangesWithCode, Interns, InternsStatic, CopiesAll, FindsAll, InternsAll};

use crate::ahead::find_each;
use crate::batch::{Batch, is_batch};
use crate::handle::Handle;
use crate::refusal::{Refusal, code, done, failed, symbol_code};
use crate::spelling::{Spelling, fill};
use intaglio_core::Symbol;
use intaglio_frozen::ahead::HashesAhead;

/// Interns these bytes, which are copied if they are new, and writes their symbol. Fails with `NoTable`,
/// `Full`, `NoMemory`, and the errors for bytes that the kind doesn't take; then nothing changes.
#[unsafe(no_mangle)]
pub extern "C" fn intaglio_intern(handle: &mut Handle, bytes: &[u8], symbol: &mut u32) -> u32
    ensures step { ChangesWithSymbol handle.old handle.new result symbol.old symbol.new (Interns bytes.now) }
{
    let table = table_of!(handle, symbol_code(failed(Refusal::NoTable), symbol));
    let hash = table.hash(bytes);
    symbol_code(table.intern(hash, bytes), symbol)
}

/// Interns these bytes, which must never change, and writes their symbol. They aren't copied, unless the
/// table is packed. Fails as [`intaglio_intern`].
#[unsafe(no_mangle)]
pub extern "C" fn intaglio_intern_static(
    handle: &mut Handle,
    bytes: &'static [u8],
    symbol: &mut u32,
) -> u32
    ensures step { ChangesWithSymbol handle.old handle.new result symbol.old symbol.new
        (InternsStatic bytes.now) }
{
    let table = table_of!(handle, symbol_code(failed(Refusal::NoTable), symbol));
    symbol_code(table.intern_static(bytes), symbol)
}

/// Returns whether these bytes are in the table, and writes their symbol if they are.
#[unsafe(no_mangle)]
pub extern "C" fn intaglio_check_interned(
    handle: &mut Handle,
    bytes: &[u8],
    symbol: &mut u32,
) -> bool
    ensures found { given result symbol.new ≡ known handle.old bytes.now }
    ensures unwritten { result ≡ false → symbol.new ≡ symbol.old }
    ensures kept { Keeps handle.old handle.new }
{
    let table = table_of!(handle, false);
    write_found!(table.find(table.hash(bytes), bytes), known => symbol = known.id())
}

/// Writes where the bytes of a symbol are, if it has any, and returns whether it has.
#[unsafe(no_mangle)]
pub extern "C" fn intaglio_get(handle: &mut Handle, symbol: u32, out: &mut Spelling) -> bool
    ensures found { given result out.new.len ≡ option_map length (stored handle.old symbol) }
    ensures unwritten { result ≡ false → out.new ≡ out.old }
    ensures kept { Keeps handle.old handle.new }
{
    write_found!(table_of!(handle, false).bytes_at(Symbol::new(symbol)), bytes => out = Spelling::of(bytes))
}

/// Writes how many bytes a symbol has, and copies them to the start of a buffer that has space for them.
#[unsafe(no_mangle)]
pub extern "C" fn intaglio_copy(
    handle: &mut Handle,
    symbol: u32,
    buffer: &mut [u8],
    len: &mut usize,
) -> bool
    ensures found { given result len.new ≡ option_map length (stored handle.old symbol) }
    ensures copied { buffer.new ≡ filled buffer.old (stored handle.old symbol) }
    ensures unwritten { result ≡ false → len.new ≡ len.old }
    ensures kept { Keeps handle.old handle.new }
{
    write_found!(table_of!(handle, false).bytes_at(Symbol::new(symbol)), bytes => len = {
        fill(buffer, bytes);
        bytes.len()
    })
}

/// Interns a batch of strings, all or none, and writes their symbols.
/// Fails with `NoTable`, `BadEnds` and the errors of interning one; then the contents are unchanged.
#[unsafe(no_mangle)]
pub extern "C" fn intaglio_intern_all(
    handle: &mut Handle,
    bytes: &[u8],
    ends: &[usize],
    symbols: &mut [u32],
) -> u32
    ensures step { ChangesWithCode handle.old handle.new result
        (InternsAll bytes.now ends.now symbols.old symbols.new) }
{
    code(table_of!(handle).intern_all(bytes, ends, symbols))
}

/// Looks up a batch of strings, and writes the symbol of each, or 2^64 - 1 if it has none.
/// Fails with `NoTable` and `BadEnds`; then nothing is written.
#[unsafe(no_mangle)]
pub extern "C" fn intaglio_check_all(
    handle: &mut Handle,
    bytes: &[u8],
    ends: &[usize],
    symbols: &mut [u64],
) -> u32
    ensures found { IsCodeOf result (FindsAll bytes.now ends.now symbols.old symbols.new handle.old) }
    ensures kept { Keeps handle.old handle.new }
{
    let table = table_of!(handle);
    if !is_batch(bytes, ends, symbols.len()) {
        return code(failed(Refusal::BadEnds));
    }
    find_each(&*table, &Batch { bytes, ends }, symbols);
    code(done())
}

/// Copies the bytes of many symbols to the start of a buffer, and writes the end of each.
/// Fails with `NoTable` and `BadEnds`, and then nothing is written. Fails with `NoSymbol` and `NoSpace`, and
/// then the strings before the one that isn't there or doesn't fit are copied, and nothing behind them is
/// written.
#[unsafe(no_mangle)]
pub extern "C" fn intaglio_copy_all(
    handle: &mut Handle,
    symbols: &[u32],
    buffer: &mut [u8],
    ends: &mut [usize],
) -> u32
    ensures copied { IsCodeOf result
        (CopiesAll symbols.now buffer.old ends.old buffer.new ends.new handle.old) }
    ensures kept { Keeps handle.old handle.new }
{
    let table = table_of!(handle);
    if ends.len() != symbols.len() {
        return code(failed(Refusal::BadEnds));
    }
    code(table.copy_each(symbols, buffer, ends))
}
