//! The pointer of a handle, and what it owns: a box as its pointer and its allocator.
ghost use Rattle.std.specs.Prelude.{◌≡◌, Option as Maybe};
ghost use Rattle.std.specs.Box.Ownership.{box_owns};
ghost use Rattle.intaglio_c.specs.declared.any_table.AnyTable.{AnyTable};
ghost use Rattle.intaglio_c.specs.Owned.{ptr_owns, table_coded};

use crate::any_table::AnyTable;
use std::alloc::{Allocator, Global};
use std::marker::Model;
use std::ptr::null_mut;

/// The pointer and the allocator of a box. It owns what the box owned.
pub(crate) struct BoxParts<T, A: Allocator> {
    pub(crate) ptr: *mut T,
    pub(crate) alloc: A,
    pub ghost value: { T },
}

impl<T, A: Allocator> Model for BoxParts<T, A> {
    ghost also_owns = { λ p. box_owns (A.dealloc_token p.alloc) T.row p.ptr p.value };
}

impl<T, A: Allocator> BoxParts<T, A> {
    pub(crate) fn of(boxed: Box<T, A>) -> BoxParts<T, A>
    where
        T: Drop,
        ensures value { result.value ≡ boxed.value }
    {
        let (ptr, alloc) = Box::into_raw_with_allocator(boxed);
        BoxParts { ptr, alloc }
    }

    pub(crate) fn into_box(self) -> Box<T, A>
        ensures value { result.value ≡ self.value }
    {
        let BoxParts { ptr, alloc } = self;
        unsafe { Box::from_raw(alloc, ptr) }
    }
}

/// A pointer that owns a boxed table, or nothing. To C it is one pointer, since an allocator has size 0.
#[repr(C)]
#[derive(Drop)]
pub struct TablePtr {
    // Untyped, since no Rust type crosses to C.
    ptr: *mut u8,
    alloc: Global,
    pub ghost table: { Maybe AnyTable } by { table_coded },
}

impl Model for TablePtr {
    ghost also_owns = { λ h. ptr_owns h.alloc h.ptr h.table };
}

impl TablePtr {
    ghost use Rattle.std.specs.Prelude.{◌≡◌, IsSomeAnd, ⊤, None, Some};
    ghost use Rattle.std.specs.Borrow.{sem};
    ghost use Rattle.intaglio_c.specs.Lent.{table_follows};

    // Nothing, behind a null pointer.
    pub(crate) fn none(alloc: Global) -> TablePtr
        ensures empty { result.table ≡ None }
    {
        let ptr = null_mut();
        TablePtr { ptr, alloc }
    }

    // The table of a box that was taken apart.
    pub(crate) fn of_parts(parts: BoxParts<AnyTable, Global>) -> TablePtr
        ensures table { result.table ≡ Some parts.value }
    {
        let BoxParts { ptr, alloc } = parts;
        TablePtr {
            ptr: ptr as *mut u8,
            alloc,
        }
    }

    // Takes the box apart again.
    pub(crate) fn into_parts(self) -> BoxParts<AnyTable, Global>
        requires table { IsSomeAnd self.table (λ _. ⊤) }
        ensures value { Some result.value ≡ self.table }
    {
        let TablePtr { ptr, alloc } = self;
        BoxParts {
            ptr: ptr as *mut AnyTable,
            alloc,
        }
    }

    // The table, lent.
    pub(crate) fn table_mut(&mut self) -> &mut AnyTable
        requires table { IsSomeAnd self.old.table (λ _. ⊤) }
        ensures* writes_back { sem 𝓛 (table_follows self.entry result) }
        ensures value { self.old.table ≡ Some result.now }
    {
        unsafe { &mut *(self.ptr as *mut AnyTable) }
    }
}
