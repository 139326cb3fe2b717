//! The first key that is there twice.
ghost use Rattle.std.specs.Prelude.{◌≡◌, map, IfOk};
ghost use Rattle.example_records.specs.Repeat.{IsFirstRepeat};

use intaglio::{SymbolTable, TableError};
use std::alloc::Global;

/// The position of the first key that is equal to an earlier one, or `None` if no two keys are equal.
///
/// Each key is hashed once, and copied only if it is new.
///
/// # Errors
///
/// If an allocation fails, or there are more than 2^32 distinct keys.
pub fn first_repeat(alloc: Global, keys: &[&str]) -> Result<Option<usize>, TableError>
    ensures { IfOk result (IsFirstRepeat (map (λ key. key.now) keys.now)) }
{
    let mut table = SymbolTable::new(alloc)?;
    for key in keys {
        let held = table.len();
        let _symbol = table.get_or_intern(*key)?;
        if table.len() == held {
            return Ok(Some(held));
        }
    }
    Ok(None)
}
