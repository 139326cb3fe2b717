//! Codes of a width that is known when a loop over them is compiled.
ghost use Rattle.std.specs.Prelude.{◌≡◌, ◌==◌, ◌+◌, ◌≤◌, ℕ, length, IfSome};
ghost use Rattle.intaglio_hash.specs.Push.{number};
ghost use Rattle.intaglio_columns.specs.Width.{bytes_of, greatest};
ghost use Rattle.intaglio_columns.specs.Layout.{code_at, widened};
ghost use Rattle.intaglio_columns.specs.Codes.{is_unknown};
ghost use Rattle.intaglio_columns.specs.declared.file.width.Width.{Width};
ghost use Rattle.intaglio_columns.specs.declared.file.width.Width.TheVariants.{Four, One, Two};

use intaglio_hash::numbers::{read_u8, read_u16, read_u32};

/// The code of a row whose line isn't in the dictionary. No dictionary has that many strings.
pub const MISSING: u32 = u32::MAX;

/// A code of one width.
pub(crate) trait Code: Copy {
    ghost width: { Width };

    // Its number.
    ghost value: { Self → ℕ };

    /// The code with this number.
    fn of(number: u64) -> Self
        requires { number ≤ greatest width }
        ensures { value result ≡ number };

    /// Its number.
    fn number(self) -> u32
        ensures number { result ≡ value self }
        ensures within { value self ≤ greatest width };

    /// How many bytes a code has.
    fn bytes() -> usize
        ensures { result ≡ bytes_of width };

    /// The number of the greatest code, which stands for the missing one.
    fn greatest() -> u32
        ensures { result ≡ greatest width };

    /// The code whose bytes are at a position.
    fn at(bytes: &[u8], at: usize) -> Self
        requires { at + bytes_of width ≤ length bytes.now }
        ensures { value result ≡ number bytes.now at 0 (bytes_of width) };

    /// The code that is this one of four bytes, if the width has it.
    #[inline(always)]
    fn narrow(code: u32) -> Option<Self>
        ensures { IfSome result (λ narrow. widened width (value narrow) ≡ code) }
    {
        if code == MISSING {
            Some(Self::of(Self::greatest() as u64))
        } else if code < Self::greatest() {
            Some(Self::of(code as u64))
        } else {
            None
        }
    }

    /// The code at a position, as one of four bytes.
    #[inline(always)]
    fn read(bytes: &[u8], at: usize) -> u32
        requires { at + bytes_of width ≤ length bytes.now }
        ensures { result ≡ code_at bytes.now width at }
    {
        let code = Self::at(bytes, at).number();
        if code == Self::greatest() {
            MISSING
        } else {
            code
        }
    }

    /// Whether this code is at a position.
    #[inline(always)]
    fn is_at(self, bytes: &[u8], at: usize) -> bool
        requires { at + bytes_of width ≤ length bytes.now }
        ensures { result ≡ (code_at bytes.now width at == widened width (value self)) }
    {
        Self::at(bytes, at).number() == self.number()
    }

    /// Whether the code at a position is neither the missing one nor that of one of so many strings.
    #[inline(always)]
    fn is_unknown(self, bytes: &[u8], at: usize) -> bool
        requires { at + bytes_of width ≤ length bytes.now }
        ensures { result ≡ is_unknown (value self) (code_at bytes.now width at) }
    {
        let code = Self::at(bytes, at).number();
        code >= self.number() && code != Self::greatest()
    }
}

impl Code for u8 {
    ghost width = { One };

    ghost value = { λ code. code };

    #[inline(always)]
    fn of(number: u64) -> u8 {
        number as u8
    }

    #[inline(always)]
    fn number(self) -> u32 {
        self as u32
    }

    #[inline(always)]
    fn bytes() -> usize {
        1
    }

    #[inline(always)]
    fn greatest() -> u32 {
        u8::MAX as u32
    }

    #[inline(always)]
    #[tactic(auto, unfolding(intaglio_hash::specs::Numbers::u8_at))]
    fn at(bytes: &[u8], at: usize) -> u8 {
        read_u8(bytes, at)
    }
}

impl Code for u16 {
    ghost width = { Two };

    ghost value = { λ code. code };

    #[inline(always)]
    fn of(number: u64) -> u16 {
        number as u16
    }

    #[inline(always)]
    fn number(self) -> u32 {
        self as u32
    }

    #[inline(always)]
    fn bytes() -> usize {
        2
    }

    #[inline(always)]
    fn greatest() -> u32 {
        u16::MAX as u32
    }

    #[inline(always)]
    #[tactic(auto, unfolding(intaglio_hash::specs::Numbers::u16_at))]
    fn at(bytes: &[u8], at: usize) -> u16 {
        read_u16(bytes, at)
    }
}

impl Code for u32 {
    ghost width = { Four };

    ghost value = { λ code. code };

    #[inline(always)]
    fn of(number: u64) -> u32 {
        number as u32
    }

    #[inline(always)]
    fn number(self) -> u32 {
        self
    }

    #[inline(always)]
    fn bytes() -> usize {
        4
    }

    #[inline(always)]
    fn greatest() -> u32 {
        u32::MAX
    }

    #[inline(always)]
    #[tactic(auto, unfolding(intaglio_hash::specs::Numbers::u32_at))]
    fn at(bytes: &[u8], at: usize) -> u32 {
        read_u32(bytes, at)
    }
}
