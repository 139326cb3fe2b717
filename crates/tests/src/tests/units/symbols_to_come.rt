//! The iterator over the symbols of a table: tests of what the scripts don't test.
use crate::support::builders::hash_of;
use crate::tests::assertions::{copy_of, holds, same};
use intaglio::{AllSymbols, Symbol};

#[test]
fn the_last_symbol_of_a_full_table(rt: HostRuntime) {
    let mut all = AllSymbols::over(&(), 4294967296);
    same(&rt, all.size_hint(), (4294967296, Some(4294967296)));
    same(&rt, all.next_back(), Some(Symbol::new(4294967295)));
}

#[test]
fn the_same_symbols_to_come_are_equal(rt: HostRuntime) {
    let mut four = AllSymbols::over(&(), 4);
    let three = AllSymbols::over(&(), 3);
    same(&rt, four.next_back(), Some(Symbol::new(3)));
    holds(&rt, four == three);
    holds(&rt, copy_of(&rt, &four) == three);
    same(&rt, hash_of(four), hash_of(three));
}

#[test]
fn the_methods_that_come_with_the_trait(rt: HostRuntime) {
    same(&rt, AllSymbols::over(&(), 4).nth(2), Some(Symbol::new(2)));
    same(&rt, AllSymbols::over(&(), 4).nth(4), None);
    let third = AllSymbols::over(&(), 4).nth_back(1);
    same(&rt, third, Some(Symbol::new(2)));
    same(&rt, AllSymbols::over(&(), 4).count(), 4);
    same(&rt, AllSymbols::over(&(), 4).last(), Some(Symbol::new(3)));
    same(&rt, AllSymbols::over(&(), 0).last(), None);
}
