//! A handle of a table, as C holds it.
ghost use Rattle.std.specs.Prelude.{◌≡◌, is_some, None};
ghost use Rattle.intaglio_c.specs.Seen.{fault_in};

use crate::any_table::AnyTable;
use crate::any_table::size::Size;
use crate::kind::TableKind;
use crate::refusal::Refusal;
use crate::table_ptr::{BoxParts, TablePtr};
use intaglio_hash::KeyedState;
use std::alloc::{AllocError, Global};

/// A table, or nothing. C holds it by value, initializes it with
/// zeros, and changes nothing in it.
#[repr(C)]
pub struct Handle {
    pub(crate) live: bool,
    pub ptr: TablePtr,
    pub ghost agrees: { live ≡ is_some ptr.table },
    // All strings of the table are what its kind takes, so a look-up needn't test what it seeks.
    pub ghost faultless: { fault_in ptr.table ≡ None },
}

impl Handle {
    ghost use Rattle.std.specs.Prelude.{◌≡◌, None};
    ghost use Rattle.intaglio_c.specs.Cited.{Makes, initial_hasher, kind_of};

    pub(crate) fn none(alloc: Global) -> Handle
        ensures empty { result.ptr.table ≡ None }
    {
        Handle {
            live: false,
            ptr: TablePtr::none(alloc),
        }
    }

    // Puts a new table of a kind and a size into the handle. The earlier one is freed. For a number that is
    // no kind's it returns `NoKind`, and then, as after each error, the handle holds no table.
    pub(crate) fn make(
        &mut self,
        alloc: Global,
        kind: u32,
        size: Size,
        keys: KeyedState,
    ) -> Result<(), Refusal>
        ensures made { Makes (kind_of kind) size (initial_hasher keys) self.new result }
    {
        *self = Handle::none(alloc);
        let kind = TableKind::of(kind).ok_or(Refusal::NoKind)?;
        let table = AnyTable::of_size(alloc, kind, size, keys)?;
        // If there is no memory, std's conversion of the error drops the table.
        let table = Box::new(alloc, table).map_err(AllocError::from)?;
        *self = Handle {
            live: true,
            ptr: TablePtr::of_parts(BoxParts::of(table)),
        };
        Ok(())
    }
}

impl Drop for Handle {
    fn drop(self) {
        let Handle { live, ptr } = self;
        if live {
            drop(ptr.into_parts().into_box());
        }
    }
}
