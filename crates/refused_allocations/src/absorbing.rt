//! Tables that absorb the strings of another one.
//!
//! The prover takes seconds wherever a table of one kind is passed to a call of any
//! table, so these are of any kind.
ghost use Rattle.intaglio_frozen.specs.Merging.{AreAccepted};

use crate::fault::{Fault, Told, tell};
use crate::results::are_numbered;
use crate::words::{COUNT, forms_of};
use intaglio::packed::{Packed, PackedForm};
use intaglio::{BaseInterner, ContentOf, InternError, KindForm, Table, TableOver, Work, bytes};
use intaglio_frozen::{FromString, StringList, absorb};
use intaglio_hash::FixedState;
use std::alloc::Global;
use tests::support::builders::Fold;
use tests::support::kinds::BytesKind;

// A table of these forms.
fn table_of<'q, K: KindForm<'q>>(
    alloc: Global,
    forms: &[K::Form],
) -> Result<Table<ContentOf<K>, Fold>, Fault> {
    Table::from_slice(alloc, Fold::new(), forms).map_err(|_| Fault::Making)
}

// A table of all words.
fn list_of(alloc: Global) -> Result<bytes::SymbolTable, Fault> {
    table_of::<BytesKind>(alloc, &forms_of::<&'static [u8]>(alloc)?)
}

/// Absorbs a table of all words into empty ones, and again where that failed: the table is empty then.
pub fn absorb_each(rt: &impl Told) -> Result<(), Fault> {
    let list = list_of(rt.alloc())?;
    absorb_in_turn::<BytesKind, _>(rt, &list)
}

fn absorb_in_turn<'s, K: PackedForm<'s>, L: StringList>(
    rt: &impl Told,
    list: &'s L,
) -> Result<(), Fault>
    requires { AreAccepted K.is_spelling (L.strings list.now) }
{
    tell(rt, "table", 0);
    let owned = Table::<ContentOf<K>, Fold>::with_capacity(rt.alloc(), 0);
    absorb_into(rt, owned.map_err(|_| Fault::Making)?, list, 1)?;
    let packed = TableOver::<Packed<K>, FixedState>::with_capacity(rt.alloc(), 0);
    absorb_into(rt, packed.map_err(|_| Fault::Making)?, list, 2)
}

fn absorb_into<'s, L: StringList, T: BaseInterner + Drop>(
    rt: &impl Told,
    mut table: T,
    list: &'s L,
    number: u32,
) -> Result<(), Fault>
where
    T::Content: FromString<'s, T::Store>,
    requires { AreAccepted T.Content.accepts (L.strings list.now) }
{
    tell(rt, "absorb", number);
    let mut answer = absorb(rt.alloc(), &mut table, list, &mut Work::new());
    if matches!(answer, Err(InternError::Memory(_))) {
        tell(rt, "refused", number);
        if table.count() != 0 {
            return Err(Fault::State(number));
        }
        tell(rt, "absorb", number);
        answer = absorb(rt.alloc(), &mut table, list, &mut Work::new());
    }
    match answer {
        Ok(symbols) if are_numbered(&symbols, COUNT) && table.count() == COUNT => Ok(()),
        _ => Err(Fault::Answer(number)),
    }
}
