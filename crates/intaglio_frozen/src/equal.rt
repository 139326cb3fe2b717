//! Equal strings in a list.
ghost use Rattle.std.specs.Prelude.{◌≤◌, ◌^◌, IfOk, MatchOption, length};
ghost use Rattle.intaglio_frozen.specs.Freezing.{HasNoEqual, IsFirstEqual};

use crate::list::StringList;
use crate::merging::table_for;
use intaglio_hash::KeyedState;
use intaglio_symbol::InternError;
use std::alloc::Global;

// The first string that is equal to an earlier one, as the positions of both, by a table of all strings.
pub(crate) fn equal_strings<L: StringList>(
    alloc: Global,
    list: &L,
) -> Result<Option<(u32, u32)>, InternError>
    requires { length (L.strings list.now) ≤ 2 ^ 31 }
    ensures { IfOk result (λ found. MatchOption found (HasNoEqual (L.strings list.now))
        (λ pair. IsFirstEqual (L.strings list.now) pair.0 pair.1)) }
{
    let mut table = table_for(alloc, 0, KeyedState::with_keys(0, 0))?;
    for i in 0..list.len() {
        let symbol = table.get_or_intern(list.string(i))?;
        if (symbol.id() as usize) < i {
            return Ok(Some((symbol.id(), i as u32)));
        }
    }
    Ok(None)
}
