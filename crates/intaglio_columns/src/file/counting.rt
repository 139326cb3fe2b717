//! How often each string occurs in a column.
ghost use Rattle.std.specs.Prelude.{◌≡◌, IfOk, replicate};
ghost use Rattle.intaglio_columns.specs.Layout.{codes, strings, width as width_of};
ghost use Rattle.intaglio_columns.specs.Rows.{AreCounts};

use crate::file::code::{Code, MISSING};
use crate::file::column::Column;
use crate::file::width::Width;
use std::alloc::{AllocError, Global};

/// How often each string occurs.
#[derive(Drop)]
pub struct Counts {
    /// In how many rows the string of each symbol stands.
    pub of: Vec<u64>,
    /// How many rows have the missing code.
    pub missing: u64,
}

impl Column<'_> {
    /// How often each string occurs, and how many rows are missing. Together that is the number of
    /// rows, if each code was checked.
    ///
    /// # Errors
    ///
    /// [`AllocError`] if the allocation of the list fails.
    pub fn counts(&self, alloc: Global) -> Result<Counts, AllocError>
        ensures { let Are = AreCounts (strings self.now) (codes self.now) in
            IfOk result (λ counts. Are counts.of.items counts.missing) }
    {
        let mut of = Vec::from_elem(alloc, 0u64, self.id().count as usize)?;
        let missing = self.count_into(&mut of);
        Ok(Counts { of, missing })
    }

    // Adds the counts, and returns how many rows are missing.
    pub(crate) fn count_into(&self, of: &mut [u64]) -> u64
        requires { of.old ≡ replicate (strings self.now) 0 }
        ensures { AreCounts (strings self.now) (codes self.now) of.new result }
    {
        match self.width() {
            Width::One => self.count_each::<u8>(of),
            Width::Two => self.count_each::<u16>(of),
            Width::Four => self.count_each::<u32>(of),
        }
    }

    fn count_each<C: Code>(&self, of: &mut [u64]) -> u64
        requires width { C.width ≡ width_of self.now }
        requires zero { of.old ≡ replicate (strings self.now) 0 }
        ensures { AreCounts (strings self.now) (codes self.now) of.new result }
    {
        let rows = self.len();
        let mut missing = 0u64;
        for row in 0..rows {
            let code = self.read::<C>(row);
            if code == MISSING {
                missing += 1;
                continue;
            }
            if code as usize >= of.len() {
                continue;
            }
            of[code as usize] += 1;
        }
        missing
    }
}
