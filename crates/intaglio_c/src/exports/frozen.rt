//! Calls on frozen tables, which C passes as their bytes, and most with where their sections are. Nothing
//! outside the bytes is read.
ghost use Rattle.std.specs.Prelude.{◌≡◌, ◌↔◌};
ghost use Rattle.intaglio_c.specs.Cited.{false, length, slice_get, IsTrue, Some, option_map, HasHeader, HasSections, IsFrozen, text_kind, kind, AreSectionsOf, IsCodeOf, given, Absorbs, Checks, FindsEachTrusted, FreezesHeld, ReadsSections, position_in, ChangesWithCode, Keeps, IdentifiesHeld, ReadsReference, place_in, single};
ghost use Rattle.intaglio_frozen.specs.Layout.{strings};

use crate::ahead::find_each;
use crate::any_table::freeze::frozen_kind;
use crate::batch::{Batch, is_batch};
use crate::handle::Handle;
use crate::reference::Reference;
use crate::refusal::{Refusal, code, done, failed};
use crate::spelling::{Spelling, give};
use intaglio_core::Symbol;
use intaglio_frozen::{
    DictionaryId, Frozen, FrozenKind, Header, Place, Sections, TrustedFrozen, freeze_at,
};
use std::alloc::Global;

// Writes a frozen table of the contents at a place.
fn freeze(
    alloc: Global,
    handle: &mut Handle,
    keys: (u64, u64),
    place: Place,
    buffer: &mut [u8],
    len: &mut usize,
) -> Result<(), Refusal>
    ensures frozen { FreezesHeld handle.old keys place buffer.old buffer.new len.old len.new result }
    ensures kept { Keeps handle.old handle.new }
{
    let table = table_of!(handle, Err(Refusal::NoTable));
    if place.shard >= place.shards {
        return Err(Refusal::BadShard);
    }
    let kind = frozen_kind(table.rule());
    let bytes = freeze_at(alloc, &*table, kind, Some(keys), place)?;
    give(&bytes, buffer, len)
}

/// Writes how many bytes a frozen table of the contents has, under these keys or one of the seven pairs after
/// them, and copies them to the start of a buffer that has space for them. Fails with `NoTable`; `NoSpace` if
/// the buffer is too short, with the number written; `TooMany`, `TooLong`, `NoPlaces` and `NoMemory`.
#[unsafe(no_mangle)]
pub extern "C" fn intaglio_freeze(
    alloc: Global,
    handle: &mut Handle,
    key0: u64,
    key1: u64,
    buffer: &mut [u8],
    len: &mut usize,
) -> u32
    ensures frozen { IsCodeOf result
        (FreezesHeld handle.old (key0, key1) single buffer.old buffer.new len.old len.new) }
    ensures kept { Keeps handle.old handle.new }
{
    code(freeze(alloc, handle, (key0, key1), Place::SINGLE, buffer, len))
}

/// As [`intaglio_freeze`], but the table is this shard of this dictionary. The number of strings and the kind are
/// those of the contents, whatever `id` says. Fails also with `BadShard` if the number of the shard isn't below
/// the number of shards.
#[unsafe(no_mangle)]
pub extern "C" fn intaglio_freeze_shard(
    alloc: Global,
    handle: &mut Handle,
    key0: u64,
    key1: u64,
    id: &Reference,
    buffer: &mut [u8],
    len: &mut usize,
) -> u32
    ensures frozen { IsCodeOf result
        (FreezesHeld handle.old (key0, key1) (place_in id.now) buffer.old buffer.new len.old len.new) }
    ensures kept { Keeps handle.old handle.new }
{
    code(freeze(alloc, handle, (key0, key1), id.place(), buffer, len))
}

/// Writes what the dictionary of the contents is, if it is in one file. Fails with `NoTable`; then nothing is
/// written.
#[unsafe(no_mangle)]
pub extern "C" fn intaglio_own_id(handle: &mut Handle, id: &mut Reference) -> u32
    ensures made { IsCodeOf result (IdentifiesHeld handle.old id.old id.new) }
    ensures kept { Keeps handle.old handle.new }
{
    let table = table_of!(handle);
    let is_text = frozen_kind(table.rule()) == FrozenKind::Text;
    *id = Reference::of(DictionaryId::of_list(is_text, &*table), 1, 0);
    code(done())
}

/// Writes which dictionary a frozen table is, or which shard of one, with the number of its own strings. Only
/// the header is read. Fails with what is wrong with it; then nothing is written.
#[unsafe(no_mangle)]
pub extern "C" fn intaglio_frozen_id(bytes: &[u8], id: &mut Reference) -> u32
    ensures read { IsCodeOf result (ReadsReference bytes.now id.old id.new) }
{
    let header = or_code!(Header::read(bytes));
    let whole = DictionaryId {
        is_text: header.id.is_text,
        count: header.count,
        hash0: header.place.set.hash0,
        hash1: header.place.set.hash1,
    };
    *id = Reference::of(whole, header.place.shards, header.place.shard);
    code(done())
}

/// Interns all strings of a frozen table, all or none, in its order, and writes the symbol of each. Fails
/// with `NoTable`, what is wrong with the header or the ends, `BadEnds` if there isn't a place for the symbol
/// of each string, and the errors of interning one; then the contents are unchanged.
#[unsafe(no_mangle)]
pub extern "C" fn intaglio_absorb(handle: &mut Handle, bytes: &[u8], symbols: &mut [u32]) -> u32
    ensures step { ChangesWithCode handle.old handle.new result (Absorbs bytes.now symbols.old symbols.new) }
{
    code(table_of!(handle).absorb(bytes, symbols))
}

/// Checks that these bytes are a frozen table, and reads all of them. Fails with what is wrong with them.
#[unsafe(no_mangle)]
pub extern "C" fn intaglio_frozen_check(bytes: &[u8]) -> u32
    ensures checked { IsCodeOf result (Checks bytes.now) }
    ensures only { IsFrozen bytes.now → result ≡ 0 }
{
    let _table = or_code!(Frozen::open(bytes));
    code(done())
}

/// Looks up a batch of strings in the bytes of a frozen table, and writes the symbol of each, or 2^64 - 1 if
/// it isn't found. Fails with `BadEnds`, and with what is wrong with the header; then nothing is written.
#[unsafe(no_mangle)]
pub extern "C" fn intaglio_frozen_find_all(
    bytes: &[u8],
    batch: &[u8],
    ends: &[usize],
    symbols: &mut [u64],
) -> u32
    ensures found { IsCodeOf result (FindsEachTrusted bytes.now batch.now ends.now symbols.old symbols.new) }
{
    let table = or_code!(TrustedFrozen::open(bytes));
    if !is_batch(batch, ends, symbols.len()) {
        return code(failed(Refusal::BadEnds));
    }
    find_each(&table, &Batch { bytes: batch, ends }, symbols);
    code(done())
}

/// Returns whether the kind of a frozen table is text, or false if the bytes have no header.
#[unsafe(no_mangle)]
pub extern "C" fn intaglio_frozen_is_text(bytes: &[u8]) -> bool
    ensures kind { HasHeader bytes.now → IsTrue result ↔ (kind bytes.now ≡ text_kind) }
    ensures none { ¬ HasHeader bytes.now → result ≡ false }
{
    or_code!(Header::read(bytes), false).kind == FrozenKind::Text
}

/// Writes what the header of a frozen table says, and where its sections are, for the two calls below.
/// Nothing behind the header is read. Fails with what is wrong with the header, or with how many bytes
/// there are; then nothing is written.
#[unsafe(no_mangle)]
pub extern "C" fn intaglio_frozen_sections(bytes: &[u8], sections: &mut Sections) -> u32
    ensures read { IsCodeOf result (ReadsSections bytes.now sections.old sections.new) }
    ensures only { HasSections bytes.now → result ≡ 0 }
{
    *sections = or_code!(Sections::read(bytes));
    code(done())
}

/// Returns whether a string is found in the bytes of a frozen table, of which these are the sections, and writes
/// its symbol if it is. The header isn't read, and nothing outside the bytes, also if these aren't their
/// sections.
#[unsafe(no_mangle)]
pub extern "C" fn intaglio_frozen_find_in(
    bytes: &[u8],
    sections: &Sections,
    string: &[u8],
    symbol: &mut u32,
) -> bool
    ensures found { AreSectionsOf bytes.now sections.now → IsTrue result
        → slice_get (strings bytes.now) symbol.new ≡ Some string.now }
    ensures frozen { AreSectionsOf bytes.now sections.now → IsFrozen bytes.now
        → given result symbol.new ≡ position_in (strings bytes.now) string.now }
    ensures unwritten { result ≡ false → symbol.new ≡ symbol.old }
{
    write_found!(sections.check_interned(bytes, string), known => symbol = known.id())
}

/// Writes where a symbol's string is in the bytes of a frozen table, of which these are the sections, if there
/// is one, and returns whether there is. The header isn't read, and nothing outside the bytes, also if these
/// aren't their sections.
#[unsafe(no_mangle)]
pub extern "C" fn intaglio_frozen_get_in(
    bytes: &[u8],
    sections: &Sections,
    symbol: u32,
    out: &mut Spelling,
) -> bool
    ensures found { AreSectionsOf bytes.now sections.now → IsTrue result
        → option_map length (slice_get (strings bytes.now) symbol) ≡ Some out.new.len }
    ensures frozen { AreSectionsOf bytes.now sections.now → IsFrozen bytes.now
        → given result out.new.len ≡ option_map length (slice_get (strings bytes.now) symbol) }
    ensures unwritten { result ≡ false → out.new ≡ out.old }
{
    write_found!(sections.get(bytes, Symbol::new(symbol)), string => out = Spelling::of(string))
}
