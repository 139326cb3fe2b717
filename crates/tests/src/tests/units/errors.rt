//! What errors print, and that all values of `SymbolOverflowError` are equal.
use crate::support::builders::hash_of;
use crate::tests::assertions::{copy_of, holds, prints, same};
use intaglio::{InternError, RoomError, StaleMark, SymbolOverflowError, TableError};
use std::alloc::{AllocError, AllocFailed};
use std::cmp::Ordering;

#[test]
fn max_capacity_is_the_number_of_symbols(rt: HostRuntime) {
    same(&rt, SymbolOverflowError::new().max_capacity(), 4294967296);
}

#[test]
fn error_texts(rt: HostRuntime) {
    let full = SymbolOverflowError::new();
    prints(&rt, full, "Symbol overflow");
    prints(&rt, InternError::from(full), "Symbol overflow");
    prints(&rt, InternError::from(AllocError), "out of memory");
    prints(&rt, RoomError::CapacityOverflow, "capacity overflow");
    prints(&rt, RoomError::from(AllocError), "out of memory");
    prints(&rt, StaleMark::new(), "stale mark");
    let shown = format!(in rt.alloc(); "{full:?}").expect(&rt, "no memory");
    holds(&rt, !shown.is_empty());
}

#[test]
fn a_table_error_prints_what_it_holds(rt: HostRuntime) {
    let full = InternError::from(SymbolOverflowError::new());
    let errors = [
        (TableError::from(full), "Symbol overflow"),
        (RoomError::CapacityOverflow.into(), "capacity overflow"),
        (TableError::from(StaleMark::new()), "stale mark"),
        (TableError::from(AllocError), "out of memory"),
    ];
    for (error, text) in errors {
        prints(&rt, error, text);
    }
    same(&rt, TableError::from(full), TableError::Intern(full));
}

#[test]
fn a_table_error_takes_the_errors_of_other_collections(rt: HostRuntime) {
    let unstored = AllocFailed { value: 1u8 };
    let memory = TableError::Memory(AllocError);
    same(&rt, TableError::from(unstored), memory);
    same(&rt, TableError::from(AllocError), memory);
}

#[test]
fn error_from_int_conversion_error(rt: HostRuntime) {
    let error = i8::try_from(255u8).err().expect(&rt, "too large");
    let full = SymbolOverflowError::from(error);
    same(&rt, full, SymbolOverflowError::new());
}

#[test]
fn error_default_is_error_new(rt: HostRuntime) {
    let full = SymbolOverflowError::default();
    same(&rt, full, SymbolOverflowError::new());
    same(&rt, StaleMark::default(), StaleMark::new());
}

#[test]
fn error_clone_is_equal_to_self(rt: HostRuntime) {
    let error = SymbolOverflowError::default();
    same(&rt, copy_of(&rt, &error), error);
}

#[test]
fn error_order_is_equal_to_self(rt: HostRuntime) {
    let error = SymbolOverflowError::default();
    same(&rt, error.cmp(&SymbolOverflowError::new()), Ordering::Equal);
    same(&rt, SymbolOverflowError::new().cmp(&error), Ordering::Equal);
}

#[test]
fn error_hash_is_equal_to_self(rt: HostRuntime) {
    let error = SymbolOverflowError::default();
    same(&rt, hash_of(error), hash_of(SymbolOverflowError::new()));
}
