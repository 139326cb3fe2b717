//! How the room of a list grows.
ghost use Rattle.std.specs.Prelude.{◌≡◌, ◌+◌, ◌*◌, ◌^◌, ◌<◌, ◌≤◌, length, max, vec_capacity, IfOk, OnOk, OnErr, IsOk};
ghost use Rattle.intaglio_content.specs.Growth.{Doubles};

use std::alloc::AllocError;

// The least room after a growth.
const LEAST: usize = 4;

// Makes room for this many more items. If the list has to grow, its room at least doubles, so that n items
// that are added one by one cost O(log n) growths. `Vec::reserve` grows alike, but no clause of it says so.
// Fails if the allocation fails. Then nothing has changed.
#[inline(always)]
pub(crate) fn reserve_doubling<T>(list: &mut Vec<T>, additional: usize) -> Result<(), AllocError>
    ensures items { list.new.items ≡ list.old.items }
    ensures grows { let needed = length list.old.items + additional in
        Doubles needed (vec_capacity list.old) (vec_capacity list.new) }
    ensures free { OnOk result (length list.old.items + additional ≤ vec_capacity list.new) }
    ensures err { OnErr result (vec_capacity list.new ≡ vec_capacity list.old) }
    ensures none_needed { length list.old.items + additional ≤ vec_capacity list.old → IsOk result }
{
    if additional <= list.capacity() - list.len() {
        return Ok(());
    }
    double(list, additional)
}

// The part of `reserve_doubling` that allocates. Apart, so that the test is inlined.
#[cold]
#[inline(never)]
fn double<T>(list: &mut Vec<T>, additional: usize) -> Result<(), AllocError>
    requires missing { vec_capacity list.old < length list.old.items + additional }
    ensures items { list.new.items ≡ list.old.items }
    ensures grown { let needed = length list.old.items + additional in
        OnOk result (vec_capacity list.new ≡ max 4 (max needed (2 * vec_capacity list.old))) }
    ensures err { OnErr result (vec_capacity list.new ≡ vec_capacity list.old) }
{
    let wanted = doubled(list.len(), list.capacity(), additional, LEAST)?;
    list.reserve_exact(wanted - list.len())
}

/// The room that is made for so many more than are used: at least twice as much as before, and at least so
/// much.
///
/// # Errors
///
/// [`AllocError`] where `usize` overflows.
pub fn doubled(used: usize, room: usize, more: usize, least: usize) -> Result<usize, AllocError>
    ensures room { IfOk result (λ n. n ≡ max least (max (used + more) (2 * room))) }
    ensures within { used + more < 2 ^ 64 → 2 * room < 2 ^ 64 → IsOk result }
{
    let Some(needed) = used.checked_add(more) else {
        return Err(AllocError);
    };
    let Some(twice) = room.checked_mul(2) else {
        return Err(AllocError);
    };
    Ok(needed.max(twice).max(least))
}
