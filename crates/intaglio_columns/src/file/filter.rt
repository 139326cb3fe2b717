//! Which rows of a column are selected by their codes.
ghost use Rattle.std.specs.Prelude.{◌≡◌, ◌==◌, ℕ, IfOk, IfSome, count_by, false, replicate};
ghost use Rattle.intaglio_columns.specs.Layout.{codes, strings, widened, width as width_of};
ghost use Rattle.intaglio_columns.specs.Rows.{IsNextRow};
ghost use Rattle.intaglio_columns.specs.Filter.{selects};

use crate::file::code::{Code, MISSING};
use crate::file::column::Column;
use crate::file::testing::HasCode;
use crate::file::width::Width;
use std::alloc::{AllocError, Global};

/// Which rows are selected: those with certain codes, or all others.
#[derive(Drop)]
pub struct RowFilter {
    /// Whether the rows with the string of each symbol are meant.
    pub strings: Vec<bool>,
    /// Whether the missing rows are.
    pub missing: bool,
    /// Whether all rows but those are selected.
    pub inverts: bool,
}

impl RowFilter {
    /// Whether a row with this code is selected.
    #[inline(always)]
    pub fn selects(&self, code: u32) -> bool
        ensures { result ≡ selects self.now code }
    {
        let is_meant = if code == MISSING {
            self.missing
        } else if (code as usize) < self.strings.len() {
            self.strings[code as usize]
        } else {
            false
        };
        if self.inverts { !is_meant } else { is_meant }
    }

    /// The symbol of a string whose rows are selected, if no others are. `None`
    /// says nothing. Each mark is read.
    pub fn only_code(&self) -> Option<u32>
        ensures { IfSome result (λ code. (c : ℕ) → selects self.now c ≡ (c == code)) }
    {
        if self.inverts || self.missing {
            return None;
        }
        let mut only = None;
        for symbol in 0..self.strings.len() {
            if !self.strings[symbol] {
                continue;
            }
            if only.is_some() || symbol >= MISSING as usize {
                return None;
            }
            only = Some(symbol as u32);
        }
        only
    }
}

impl Column<'_> {
    /// A filter that selects no row.
    ///
    /// # Errors
    ///
    /// [`AllocError`] if the allocation of the list fails.
    pub fn no_rows(&self, alloc: Global) -> Result<RowFilter, AllocError>
        ensures strings { IfOk result (λ filter. filter.strings.items ≡ replicate (strings self.now) false) }
        ensures missing { IfOk result (λ filter. filter.missing ≡ false) }
        ensures inverts { IfOk result (λ filter. filter.inverts ≡ false) }
    {
        let strings = Vec::from_elem(alloc, false, self.id().count as usize)?;
        Ok(RowFilter {
            strings,
            missing: false,
            inverts: false,
        })
    }

    /// How many rows a filter selects.
    pub fn count_rows(&self, filter: &RowFilter) -> u64
        ensures { result ≡ count_by (selects filter.now) (codes self.now) }
    {
        match self.width() {
            Width::One => self.count_selected::<u8>(filter),
            Width::Two => self.count_selected::<u16>(filter),
            Width::Four => self.count_selected::<u32>(filter),
        }
    }

    fn count_selected<C: Code>(&self, filter: &RowFilter) -> u64
        requires { C.width ≡ width_of self.now }
        ensures { result ≡ count_by (selects filter.now) (codes self.now) }
    {
        match narrowed::<C>(filter) {
            Some(code) => self.count_passing::<C, HasCode<C>>(&HasCode { code }),
            None => self.count_passing::<C, RowFilter>(filter),
        }
    }

    /// The first row, from this one on, that a filter selects. If [`RowFilter::only_code`] has a code,
    /// [`next_row_of`](Column::next_row_of) is faster.
    pub fn next_selected(&self, filter: &RowFilter, from: usize) -> Option<usize>
        ensures { IsNextRow (selects filter.now) from (codes self.now) result }
    {
        match self.width() {
            Width::One => self.next_row::<u8, RowFilter>(filter, from),
            Width::Two => self.next_row::<u16, RowFilter>(filter, from),
            Width::Four => self.next_row::<u32, RowFilter>(filter, from),
        }
    }
}

// The one code whose rows a filter selects, if the width has it.
fn narrowed<C: Code>(filter: &RowFilter) -> Option<C>
    ensures { IfSome result (λ code. (c : ℕ) → selects filter.now c ≡ (c == widened C.width (C.value code))) }
{
    match filter.only_code() {
        Some(code) => C::narrow(code),
        None => None,
    }
}
