//! Conversions between symbols and numbers.
use crate::tests::assertions::same;
use intaglio::{DEFAULT_SYMBOL_TABLE_CAPACITY, Mark, Symbol, SymbolOverflowError};
use std::num::{NonZeroU8, NonZeroU16, NonZeroU32, NonZeroU64, NonZeroUsize};

#[test]
fn numbers_are_kept(rt: HostRuntime) {
    same(&rt, Symbol::new(263).id(), 263);
    same(&rt, Symbol::new(263).is(263), true);
    same(&rt, Symbol::new(263).is(262), false);
    same(&rt, Mark::new(5).count(), 5);
    same(&rt, DEFAULT_SYMBOL_TABLE_CAPACITY, 4096);
}

// Asserts that each of these converts to the symbol of this number.
macro_rules! are {
    ($rt:ident, $number:literal; $($from:expr),+) => {
        $(same(&$rt, Symbol::from($from).id(), $number);)+
    };
}

// The same of conversions that may fail, and do so without a number.
macro_rules! give {
    ($rt:ident, $number:expr; $($from:expr),+) => {
        $(same(&$rt, Symbol::try_from($from), tried($number));)+
    };
}

fn tried(number: Option<u32>) -> Result<Symbol, SymbolOverflowError> {
    match number {
        Some(number) => Ok(Symbol::new(number)),
        None => Err(SymbolOverflowError::new()),
    }
}

#[test]
fn symbol_from_primitive(rt: HostRuntime) {
    are!(rt, 0; 0u8, 0u16, 0u32);
    are!(rt, 17; 17u8, 17u16, 17u32);
    give!(rt, Some(0); 0u64, 0usize);
    give!(rt, Some(17); 17u64, 17usize);
    give!(rt, Some(4294967295); 4294967295u64, 4294967295usize);
    give!(rt, None; 4294967296u64, u64::MAX, 4294967296usize, usize::MAX);
}

#[test]
fn symbol_from_primitive_ref(rt: HostRuntime) {
    are!(rt, 0; &0u8, &0u16, &0u32);
    are!(rt, 17; &17u8, &17u16, &17u32);
    give!(rt, Some(0); &0u64, &0usize);
    give!(rt, Some(17); &17u64, &17usize);
    give!(rt, None; &4294967296u64, &u64::MAX, &4294967296usize, &usize::MAX);
}

#[test]
fn symbol_from_nonzero(rt: HostRuntime) {
    are!(rt, 17; NonZeroU8::new(17).unwrap(), NonZeroU16::new(17).unwrap());
    are!(rt, 17; NonZeroU32::new(17).unwrap());
    give!(rt, Some(17); NonZeroU64::new(17).unwrap(), NonZeroUsize::new(17).unwrap());
    give!(rt, None; NonZeroU64::new(4294967296).unwrap(), NonZeroU64::MAX);
    give!(rt, None; NonZeroUsize::new(4294967296).unwrap(), NonZeroUsize::MAX);
}

#[test]
fn symbol_from_nonzero_ref(rt: HostRuntime) {
    are!(rt, 17; &NonZeroU8::new(17).unwrap(), &NonZeroU16::new(17).unwrap());
    are!(rt, 17; &NonZeroU32::new(17).unwrap());
    give!(rt, Some(17); &NonZeroU64::new(17).unwrap(), &NonZeroUsize::new(17).unwrap());
    give!(rt, None; &NonZeroU64::new(4294967296).unwrap(), &NonZeroU64::MAX);
    give!(rt, None; &NonZeroUsize::new(4294967296).unwrap(), &NonZeroUsize::MAX);
}

// Asserts which number of each type these symbols give.
macro_rules! number {
    ($rt:ident, $number:literal; $($symbol:expr),+) => {
        $(same(&$rt, u32::from($symbol), $number);
        same(&$rt, u64::from($symbol), $number);
        same(&$rt, usize::from($symbol), $number);
        same(&$rt, i64::from($symbol), $number);)+
    };
}

#[test]
fn symbol_into_u32_is_its_id(rt: HostRuntime) {
    for number in [0, 1, 17, 192, 4294967295] {
        let symbol = Symbol::new(number);
        same(&rt, u32::from(symbol), number);
        same(&rt, u32::from(&symbol), number);
        same(&rt, symbol.id(), number);
    }
}

#[test]
fn primitive_from_symbol(rt: HostRuntime) {
    number!(rt, 0; Symbol::new(0));
    number!(rt, 17; Symbol::new(17));
}

#[test]
fn primitive_from_symbol_ref(rt: HostRuntime) {
    number!(rt, 0; &Symbol::new(0));
    number!(rt, 17; &Symbol::new(17));
}
