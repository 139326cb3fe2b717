//! A symbol.
ghost use Rattle.std.specs.Prelude.{◌≡◌, ◌^◌, ◌<◌, ◌↔◌, IsTrue};

use std::marker::Model;

/// The number that a table gave to a content: 0 for the first one, then 1, and so on.
///
/// Symbols are ordered, compared and hashed as their numbers. A symbol is a `u32` and doesn't know its table.
///
/// ```
/// # use intaglio::Symbol;
/// assert_eq!(rt; Symbol::new(263).id(), 263);
/// ```
#[derive(Debug, Clone, Copy, Hash, PartialEq, Eq, PartialOrd, Ord)]
pub struct Symbol(u32);

impl Model for Symbol {
    ghost use Rattle.std.specs.Prelude.{ℕ, ◌^◌, ◌<◌};

    ghost Value = { ℕ };

    ghost view = { λ symbol. symbol.0 };

    ghost invariant = { λ symbol. symbol.0 < 2 ^ 32 };

    ghost inverse = { λ number. record { 0 = number } };
}

impl Symbol {
    /// The symbol with this number, whether or not a table has issued it.
    pub const fn new(number: u32) -> Symbol
        ensures { result ≡ number }
    {
        Symbol(number)
    }

    /// The symbol's number.
    pub const fn id(self) -> u32
        ensures { result ≡ self }
    {
        self.0
    }

    /// Whether the symbol has this number.
    pub fn is(self, number: u32) -> bool
        ensures { IsTrue result ↔ (self ≡ number) }
    {
        self.id() == number
    }
}
