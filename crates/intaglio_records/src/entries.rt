//! The lines by which records are found.
ghost use Rattle.std.specs.Prelude.{◌≡◌, ◌+◌, ◌*◌, ◌-◌, ◌^◌, ◌<◌, ◌≤◌, false, length, min, IfOk, IsOk};
ghost use Rattle.intaglio_records.specs.Strings.{byte_count_of};
ghost use Rattle.intaglio_records.specs.Chains.{IsFilled, places_of};
ghost use Rattle.intaglio_records.specs.Records.{AreRecords};
ghost use Rattle.intaglio_records.specs.Entries.{entries, slot_of};

use crate::header::read_hash;
use crate::lines::Lines;
use crate::string_buffer::StringBuffer;
use std::alloc::AllocError;

// The slot of a record, of its number and where it begins. In a short index, the
// beginning is within four bytes.
#[inline(always)]
pub(crate) fn slot_for(is_long: bool, number: usize, at: usize) -> u32
    requires few { number < 2 ^ 32 }
    requires small { is_long ≡ false → at < 2 ^ 32 }
    ensures { result ≡ slot_of is_long number at }
{
    if is_long { number as u32 } else { at as u32 }
}

// Lines that have these records, and room for so many. The hashes are read, and nothing is hashed.
pub(crate) fn lines_of(
    records: &StringBuffer,
    places: usize,
    is_long: bool,
) -> Result<Lines, AllocError>
    requires enough { length records.now.list ≤ places }
    requires few { places ≤ 2 ^ 32 }
    requires each { AreRecords records.now.list }
    requires small { is_long ≡ false → byte_count_of records.now ≤ 2 ^ 32 - 1 }
    ensures filled { let es = entries is_long records.now.list (length records.now.list) in
        IfOk result (λ lines. IsFilled lines es) }
    ensures places { IfOk result (λ lines. places ≤ places_of lines) }
    ensures tight { IfOk result (λ lines. places_of lines ≤ 2 * places + 6) }
    ensures none_needed { places ≡ 0 → IsOk result }
{
    let mut lines = Lines::with_places(records.alloc(), places)?;
    for i in 0..records.len() {
        let hash = read_hash(records.string(i), 0);
        lines.place(hash, slot_for(is_long, i, records.start(i)));
    }
    Ok(lines)
}

// Removes the entries of all records but the first `n`, the newest first.
// `is_long` is for the contract alone.
pub(crate) fn remove_behind(lines: &mut Lines, records: &StringBuffer, is_long: bool, n: usize)
    requires filled { IsFilled lines.old (entries is_long records.now.list (length records.now.list)) }
    requires each { AreRecords records.now.list }
    ensures kept { IsFilled lines.new (entries is_long records.now.list (min n (length records.now.list))) }
    ensures places { places_of lines.new ≡ places_of lines.old }
{
    let _ = is_long;
    let mut count = records.len();
    while count > n {
        count -= 1;
        lines.remove_newest(read_hash(records.string(count), 0));
    }
}
