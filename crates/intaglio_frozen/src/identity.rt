//! The identity of a dictionary, from the bytes of its frozen table.
ghost use Rattle.std.specs.Prelude.{◌≡◌, IfErr, IfOk, IsOk};
ghost use Rattle.intaglio_frozen.specs.Fault.{IsIdFault};
ghost use Rattle.intaglio_frozen.specs.Identity.{HasId, IsIdOfTable, id_in};
ghost use Rattle.intaglio_frozen.specs.IsFrozen.{HasSections};

use crate::error::FrozenError;
use crate::header::Header;
use crate::id::DictionaryId;
use crate::reader::Reader;

/// What the dictionary in these bytes is. The header is checked, that there are as many bytes as it requires,
/// and that it has the identity of the strings: each byte of the ends and of the text is read.
///
/// # Errors
///
/// What is wrong with the header, `Truncated` or `TooLong` if there aren't as many bytes as it requires, or
/// `OtherIdentity`.
///
/// ```
/// # use intaglio::SymbolTable;
/// # use intaglio_frozen::{FrozenKind, freeze, id_of_table};
/// # let mut table = SymbolTable::new(rt.alloc())?;
/// # let _symbol = table.get_or_intern("rose")?;
/// let dictionary = freeze(rt.alloc(), &table, FrozenKind::Text, 0, 0)?;
/// let again = freeze(rt.alloc(), &table, FrozenKind::Text, 5, 6)?;
/// assert!(rt; id_of_table(&again)? == id_of_table(&dictionary)?);
/// let of_bytes = freeze(rt.alloc(), &table, FrozenKind::Bytes, 0, 0)?;
/// assert!(rt; id_of_table(&of_bytes)? != id_of_table(&dictionary)?);
/// ```
pub fn id_of_table(table: &[u8]) -> Result<DictionaryId, FrozenError>
    ensures id { IfOk result (IsIdOfTable table.now) }
    ensures header { IfOk result (λ id. id ≡ id_in table.now) }
    ensures sections { IfOk result (λ _. HasSections table.now) }
    ensures only { HasSections table.now → HasId table.now → IsOk result }
    ensures err { IfErr result (IsIdFault table.now) }
{
    let header = Header::read(table)?;
    if !Reader::read(table)?.has_id() {
        return Err(FrozenError::OtherIdentity);
    }
    Ok(header.id)
}
