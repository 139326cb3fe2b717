//! In which rows of a column a string stands.
ghost use Rattle.std.specs.Prelude.{◌≡◌, ◌==◌, IfOk};
ghost use Rattle.intaglio_columns.specs.Layout.{codes, width as width_of};
ghost use Rattle.intaglio_columns.specs.Rows.{IsNextRow, rows_of};

use crate::file::code::Code;
use crate::file::column::Column;
use crate::file::testing::{HasAnyCode, HasCode};
use crate::file::width::Width;
use std::alloc::{AllocError, Global};

impl Column<'_> {
    /// The rows with this code, in ascending order: those in which the string of a symbol stands, or, of
    /// [`MISSING`](crate::MISSING), the missing ones.
    ///
    /// # Errors
    ///
    /// [`AllocError`] if an allocation for the list fails.
    pub fn rows_of(&self, alloc: Global, code: u32) -> Result<Vec<u64>, AllocError>
        ensures { IfOk result (λ rows. rows.items ≡ rows_of code (codes self.now)) }
    {
        let mut rows = Vec::new(alloc);
        // The number behind a row fits too.
        let _rows = self.len();
        let mut from = 0;
        while let Some(row) = self.next_row_of(code, from) {
            rows.push(row as u64)?;
            from = row + 1;
        }
        Ok(rows)
    }

    /// The first row, from this one on, with this code. Rows are tested in blocks of
    /// 32, without a branch for each.
    pub fn next_row_of(&self, code: u32, from: usize) -> Option<usize>
        ensures { IsNextRow (λ c. c == code) from (codes self.now) result }
    {
        match self.width() {
            Width::One => self.next_with::<u8>(code, from),
            Width::Two => self.next_with::<u16>(code, from),
            Width::Four => self.next_with::<u32>(code, from),
        }
    }

    #[inline(always)]
    fn next_with<C: Code>(&self, code: u32, from: usize) -> Option<usize>
        requires { C.width ≡ width_of self.now }
        ensures { IsNextRow (λ c. c == code) from (codes self.now) result }
    {
        match C::narrow(code) {
            Some(code) => self.next_row::<C, HasCode<C>>(&HasCode { code }, from),
            None => self.next_row::<C, HasAnyCode>(&HasAnyCode { code }, from),
        }
    }
}
