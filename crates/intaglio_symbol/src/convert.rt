//! Conversions between a symbol and a number. Each keeps the number; the only ones that can fail are those
//! from a 64-bit number, which fail exactly above 4294967295.
ghost use Rattle.std.specs.Prelude.{◌≡◌, pos};
ghost use Rattle.std.specs.Int.NonZero.{non_zero_u8_get, non_zero_u16_get, non_zero_u32_get};
ghost use Rattle.std.specs.Int.NonZero.{non_zero_u64_get, non_zero_usize_get};
ghost use Rattle.intaglio_symbol.specs.Convert.{Converts};

use crate::error::SymbolOverflowError;
use crate::symbol::Symbol;
use std::num::{NonZeroU8, NonZeroU16, NonZeroU32, NonZeroU64, NonZeroUsize};

impl From<u8> for Symbol {
    ghost from_gives = { λ number symbol. symbol ≡ number };

    fn from(number: u8) -> Symbol {
        Symbol::new(u32::from(number))
    }
}

impl From<&u8> for Symbol {
    ghost from_gives = { λ number symbol. symbol ≡ number.now };

    fn from(number: &u8) -> Symbol {
        Symbol::from(*number)
    }
}

impl From<u16> for Symbol {
    ghost from_gives = { λ number symbol. symbol ≡ number };

    fn from(number: u16) -> Symbol {
        Symbol::new(u32::from(number))
    }
}

impl From<&u16> for Symbol {
    ghost from_gives = { λ number symbol. symbol ≡ number.now };

    fn from(number: &u16) -> Symbol {
        Symbol::from(*number)
    }
}

impl From<u32> for Symbol {
    ghost from_gives = { λ number symbol. symbol ≡ number };

    fn from(number: u32) -> Symbol {
        Symbol::new(number)
    }
}

impl From<&u32> for Symbol {
    ghost from_gives = { λ number symbol. symbol ≡ number.now };

    fn from(number: &u32) -> Symbol {
        Symbol::from(*number)
    }
}

impl From<NonZeroU8> for Symbol {
    ghost from_gives = { λ number symbol. symbol ≡ non_zero_u8_get number };

    fn from(number: NonZeroU8) -> Symbol {
        Symbol::new(u32::from(number.get()))
    }
}

impl From<&NonZeroU8> for Symbol {
    ghost from_gives = { λ number symbol. symbol ≡ non_zero_u8_get number.now };

    fn from(number: &NonZeroU8) -> Symbol {
        Symbol::from(*number)
    }
}

impl From<NonZeroU16> for Symbol {
    ghost from_gives = { λ number symbol. symbol ≡ non_zero_u16_get number };

    fn from(number: NonZeroU16) -> Symbol {
        Symbol::new(u32::from(number.get()))
    }
}

impl From<&NonZeroU16> for Symbol {
    ghost from_gives = { λ number symbol. symbol ≡ non_zero_u16_get number.now };

    fn from(number: &NonZeroU16) -> Symbol {
        Symbol::from(*number)
    }
}

impl From<NonZeroU32> for Symbol {
    ghost from_gives = { λ number symbol. symbol ≡ non_zero_u32_get number };

    fn from(number: NonZeroU32) -> Symbol {
        Symbol::new(number.get())
    }
}

impl From<&NonZeroU32> for Symbol {
    ghost from_gives = { λ number symbol. symbol ≡ non_zero_u32_get number.now };

    fn from(number: &NonZeroU32) -> Symbol {
        Symbol::from(*number)
    }
}

impl TryFrom<u64> for Symbol {
    type Error = SymbolOverflowError;

    ghost try_from_gives = { λ number r. Converts number r };

    fn try_from(number: u64) -> Result<Symbol, SymbolOverflowError> {
        let number = u32::try_from(number)?;
        Ok(Symbol::new(number))
    }
}

impl TryFrom<&u64> for Symbol {
    type Error = SymbolOverflowError;

    ghost try_from_gives = { λ number r. Converts number.now r };

    fn try_from(number: &u64) -> Result<Symbol, SymbolOverflowError> {
        Symbol::try_from(*number)
    }
}

impl TryFrom<usize> for Symbol {
    type Error = SymbolOverflowError;

    ghost try_from_gives = { λ number r. Converts number r };

    fn try_from(number: usize) -> Result<Symbol, SymbolOverflowError> {
        let number = u32::try_from(number)?;
        Ok(Symbol::new(number))
    }
}

impl TryFrom<&usize> for Symbol {
    type Error = SymbolOverflowError;

    ghost try_from_gives = { λ number r. Converts number.now r };

    fn try_from(number: &usize) -> Result<Symbol, SymbolOverflowError> {
        Symbol::try_from(*number)
    }
}

impl TryFrom<NonZeroU64> for Symbol {
    type Error = SymbolOverflowError;

    ghost try_from_gives = { λ number r. Converts (non_zero_u64_get number) r };

    fn try_from(number: NonZeroU64) -> Result<Symbol, SymbolOverflowError> {
        Symbol::try_from(number.get())
    }
}

impl TryFrom<&NonZeroU64> for Symbol {
    type Error = SymbolOverflowError;

    ghost try_from_gives = { λ number r. Converts (non_zero_u64_get number.now) r };

    fn try_from(number: &NonZeroU64) -> Result<Symbol, SymbolOverflowError> {
        Symbol::try_from(*number)
    }
}

impl TryFrom<NonZeroUsize> for Symbol {
    type Error = SymbolOverflowError;

    ghost try_from_gives = { λ number r. Converts (non_zero_usize_get number) r };

    fn try_from(number: NonZeroUsize) -> Result<Symbol, SymbolOverflowError> {
        Symbol::try_from(number.get())
    }
}

impl TryFrom<&NonZeroUsize> for Symbol {
    type Error = SymbolOverflowError;

    ghost try_from_gives = { λ number r. Converts (non_zero_usize_get number.now) r };

    fn try_from(number: &NonZeroUsize) -> Result<Symbol, SymbolOverflowError> {
        Symbol::try_from(*number)
    }
}

impl From<Symbol> for u32 {
    ghost from_gives = { λ symbol number. number ≡ symbol };

    fn from(symbol: Symbol) -> u32 {
        symbol.id()
    }
}

impl From<&Symbol> for u32 {
    ghost from_gives = { λ symbol number. number ≡ symbol.now };

    fn from(symbol: &Symbol) -> u32 {
        u32::from(*symbol)
    }
}

impl From<Symbol> for u64 {
    ghost from_gives = { λ symbol number. number ≡ symbol };

    fn from(symbol: Symbol) -> u64 {
        u64::from(symbol.id())
    }
}

impl From<&Symbol> for u64 {
    ghost from_gives = { λ symbol number. number ≡ symbol.now };

    fn from(symbol: &Symbol) -> u64 {
        u64::from(*symbol)
    }
}

impl From<Symbol> for usize {
    ghost from_gives = { λ symbol number. number ≡ symbol };

    fn from(symbol: Symbol) -> usize {
        symbol.id() as usize
    }
}

impl From<&Symbol> for usize {
    ghost from_gives = { λ symbol number. number ≡ symbol.now };

    fn from(symbol: &Symbol) -> usize {
        usize::from(*symbol)
    }
}

impl From<Symbol> for i64 {
    ghost from_gives = { λ symbol number. number ≡ pos symbol };

    fn from(symbol: Symbol) -> i64 {
        i64::from(symbol.id())
    }
}

impl From<&Symbol> for i64 {
    ghost from_gives = { λ symbol number. number ≡ pos symbol.now };

    fn from(symbol: &Symbol) -> i64 {
        i64::from(*symbol)
    }
}
