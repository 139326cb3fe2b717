//! Lists of codes that are made a column.
ghost use Rattle.std.specs.Prelude.{◌≡◌, ◌<◌, ℕ, List, length, slice_get, Some};
ghost use Rattle.intaglio_columns.specs.Layout.{codes as codes_of};

use crate::file::column::Column;
use intaglio_symbol::Symbol;

/// A list of codes that can be made a column, such as the symbols of lines.
pub trait CodeList {
    ghost codes: { Self → List ℕ };

    /// The number of codes.
    fn len(&self) -> usize
        ensures { result ≡ length (codes self.now) };

    /// The code at a position.
    fn code(&self, i: usize) -> u32
        requires { i < length (codes self.now) }
        ensures { slice_get (codes self.now) i ≡ Some result };
}

impl CodeList for &[Symbol] {
    ghost codes = { λ list. list.now };

    #[inline(always)]
    fn len(&self) -> usize {
        <[Symbol]>::len(self)
    }

    #[inline(always)]
    fn code(&self, i: usize) -> u32 {
        self[i].id()
    }
}

impl CodeList for &[u32] {
    ghost codes = { λ list. list.now };

    #[inline(always)]
    fn len(&self) -> usize {
        <[u32]>::len(self)
    }

    #[inline(always)]
    fn code(&self, i: usize) -> u32 {
        self[i]
    }
}
