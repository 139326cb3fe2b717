//! Tests of the codes of rows.
ghost use Rattle.std.specs.Prelude.{◌≡◌, ◌==◌, ◌+◌, ◌≤◌, ℕ, Bool, length};
ghost use Rattle.intaglio_columns.specs.Width.{bytes_of};
ghost use Rattle.intaglio_columns.specs.Layout.{code_at, widened};
ghost use Rattle.intaglio_columns.specs.Codes.{is_unknown};
ghost use Rattle.intaglio_columns.specs.Filter.{selects};

use crate::file::code::Code;
use crate::file::filter::RowFilter;

/// A test of the codes of one width.
pub(crate) trait CodeTest<C: Code> {
    ghost passes: { Self → ℕ → Bool };

    /// Whether the code at a position passes.
    fn passes_at(&self, bytes: &[u8], at: usize) -> bool
        requires { at + bytes_of C.width ≤ length bytes.now }
        ensures { result ≡ passes self.now (code_at bytes.now C.width at) };
}

/// A row has this code.
#[derive(Clone, Copy)]
pub(crate) struct HasCode<C> {
    pub code: C,
}

impl<C: Code> CodeTest<C> for HasCode<C> {
    ghost passes = { λ test code. code == widened C.width (C.value test.code) };

    #[inline(always)]
    fn passes_at(&self, bytes: &[u8], at: usize) -> bool {
        self.code.is_at(bytes, at)
    }
}

/// A row has this code, which may be none of the width.
#[derive(Clone, Copy)]
pub(crate) struct HasAnyCode {
    pub code: u32,
}

impl<C: Code> CodeTest<C> for HasAnyCode {
    ghost passes = { λ test code. code == test.code };

    #[inline(always)]
    fn passes_at(&self, bytes: &[u8], at: usize) -> bool {
        C::read(bytes, at) == self.code
    }
}

/// A row has neither the missing code nor that of one of so many strings.
#[derive(Clone, Copy)]
pub(crate) struct IsUnknown<C> {
    pub strings: C,
}

impl<C: Code> CodeTest<C> for IsUnknown<C> {
    ghost passes = { λ test code. is_unknown (C.value test.strings) code };

    #[inline(always)]
    fn passes_at(&self, bytes: &[u8], at: usize) -> bool {
        self.strings.is_unknown(bytes, at)
    }
}

impl<C: Code> CodeTest<C> for RowFilter {
    ghost passes = { selects };

    #[inline(always)]
    fn passes_at(&self, bytes: &[u8], at: usize) -> bool {
        self.selects(C::read(bytes, at))
    }
}
