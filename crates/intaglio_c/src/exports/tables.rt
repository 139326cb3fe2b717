//! Making and freeing tables; length and capacity, and the calls that change them.
ghost use Rattle.std.specs.Prelude.{◌≡◌, ◌+◌};
ghost use Rattle.intaglio_c.specs.Cited.{with_keys, IsCodeOf, ChangesWithCode, Clears, HoldsNone, Keeps, Makes, kind_of, length, option_map, table_of, unwrap_or, Capacity, Limit, Reserves, Shrinks, TakesBack};

use crate::any_table::size::Size;
use crate::handle::Handle;
use crate::refusal::{Refusal, code, failed};
use intaglio_core::Mark;
use intaglio_hash::KeyedState;
use std::alloc::Global;

/// Puts a new table of a kind with capacity 4096 into the handle, whose earlier table is freed.
/// Fails with `NoKind` for a number that is no kind's, and `NoMemory`; then the handle holds no table.
#[unsafe(no_mangle)]
pub extern "C" fn intaglio_new(
    alloc: Global,
    handle: &mut Handle,
    kind: u32,
    key0: u64,
    key1: u64,
) -> u32
    ensures made { IsCodeOf result (Makes (kind_of kind) (Capacity 4096) (with_keys key0 key1) handle.new) }
{
    intaglio_with_capacity(alloc, handle, kind, 4096, key0, key1)
}

/// Puts a new table of a kind with exactly this capacity into the handle, whose earlier table is freed.
/// Fails as [`intaglio_new`], and with `TooLarge` above 2^32.
#[unsafe(no_mangle)]
pub extern "C" fn intaglio_with_capacity(
    alloc: Global,
    handle: &mut Handle,
    kind: u32,
    capacity: usize,
    key0: u64,
    key1: u64,
) -> u32
    ensures made { IsCodeOf result
        (Makes (kind_of kind) (Capacity capacity) (with_keys key0 key1) handle.new) }
{
    let keys = KeyedState::with_keys(key0, key1);
    code(handle.make(alloc, kind, Size::Capacity(capacity), keys))
}

/// Puts a new table of a kind into the handle, which can hold at most this many contents. The earlier one is
/// freed. Fails as [`intaglio_new`], and with `TooLarge` for 0 and above 2^32.
#[unsafe(no_mangle)]
pub extern "C" fn intaglio_with_limit(
    alloc: Global,
    handle: &mut Handle,
    kind: u32,
    limit: usize,
    key0: u64,
    key1: u64,
) -> u32
    ensures made { IsCodeOf result (Makes (kind_of kind) (Limit limit) (with_keys key0 key1) handle.new) }
{
    let keys = KeyedState::with_keys(key0, key1);
    code(handle.make(alloc, kind, Size::Limit(limit), keys))
}

/// Frees the table, if there is one.
#[unsafe(no_mangle)]
pub extern "C" fn intaglio_free(alloc: Global, handle: &mut Handle)
    ensures empty { HoldsNone handle.new }
{
    *handle = Handle::none(alloc);
}

/// The number of contents, or 0 without a table.
#[unsafe(no_mangle)]
pub extern "C" fn intaglio_len(handle: &mut Handle) -> usize
    ensures count { result ≡ unwrap_or (option_map (λ t. length t.state.contents) (table_of handle.old)) 0 }
    ensures kept { Keeps handle.old handle.new }
{
    table_of!(handle, 0).len()
}

/// How many contents the table can hold before it has to grow, or 0 without a table.
#[unsafe(no_mangle)]
pub extern "C" fn intaglio_capacity(handle: &mut Handle) -> usize
    ensures capacity { result ≡
        unwrap_or (option_map (λ t. length t.state.contents + t.state.spare) (table_of handle.old)) 0 }
    ensures kept { Keeps handle.old handle.new }
{
    table_of!(handle, 0).capacity()
}

/// Reserves capacity for `additional` more contents.
/// Fails with `NoTable`, `TooLarge` and `NoMemory`; then the contents are unchanged.
#[unsafe(no_mangle)]
pub extern "C" fn intaglio_reserve(handle: &mut Handle, additional: usize) -> u32
    ensures step { ChangesWithCode handle.old handle.new result (Reserves additional) }
{
    code(table_of!(handle).reserve(additional).map_err(Refusal::from))
}

/// Shrinks the capacity to `min_capacity`, or to the number of contents if that is greater.
/// Fails with `NoTable` and `NoMemory`; then nothing has changed.
#[unsafe(no_mangle)]
pub extern "C" fn intaglio_shrink_to(handle: &mut Handle, min_capacity: usize) -> u32
    ensures step { ChangesWithCode handle.old handle.new result (Shrinks min_capacity) }
{
    let shrunk = table_of!(handle).shrink_to(min_capacity);
    code(shrunk.map_err(Refusal::from))
}

/// Drops all contents.
#[unsafe(no_mangle)]
pub extern "C" fn intaglio_clear(handle: &mut Handle)
    ensures step { Clears handle.old handle.new }
{
    table_of!(handle, ()).clear();
}

/// Drops all contents but the first ones, as many as the mark says.
/// Fails with `NoTable`, and with `Stale` if there are fewer; then nothing has changed.
#[unsafe(no_mangle)]
pub extern "C" fn intaglio_take_back(handle: &mut Handle, mark: usize) -> u32
    ensures step { ChangesWithCode handle.old handle.new result (TakesBack mark) }
{
    let taken = table_of!(handle).take_back(Mark::new(mark));
    code(taken.or(Err(Refusal::Stale)))
}
