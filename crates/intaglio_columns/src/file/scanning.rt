//! Looks for rows whose codes pass a test, and counts them, in loops for each width of codes.
ghost use Rattle.std.specs.Prelude.{◌≡◌, ◌+◌, ◌<◌, ◌≤◌, count_by, length};
ghost use Rattle.intaglio_columns.specs.Layout.{codes, rows as rows_of, width as width_of};
ghost use Rattle.intaglio_columns.specs.Rows.{CountsAmong, IsFirstAmong, IsNextRow, rows_past};

use crate::file::code::Code;
use crate::file::column::Column;
use crate::file::testing::CodeTest;

// How many rows a block has. Their codes are tested without a branch, so that the
// compiler can test many at once.
const BLOCK: usize = 32;

impl Column<'_> {
    // The first row from this one on that passes a test. Each row is tested at most twice by calls that go on
    // behind the row that the call before returned.
    #[inline(always)]
    pub(crate) fn next_row<C: Code, T: CodeTest<C>>(&self, test: &T, from: usize) -> Option<usize>
        requires { C.width ≡ width_of self.now }
        ensures { IsNextRow (T.passes test.now) from (codes self.now) result }
    {
        if from >= self.len() {
            return None;
        }
        let end = self.end_of_block(from);
        let near = self.first_among::<C, T>(test, from, end);
        if near.is_some() {
            return near;
        }
        let start = self.skip_blocks::<C, T>(test, end);
        self.first_among::<C, T>(test, start, self.len())
    }

    // How many rows pass a test.
    #[inline(always)]
    pub(crate) fn count_passing<C: Code, T: CodeTest<C>>(&self, test: &T) -> u64
        requires { C.width ≡ width_of self.now }
        ensures { result ≡ count_by (T.passes test.now) (codes self.now) }
    {
        let mut count = 0u64;
        let mut row = 0;
        while row < self.len() {
            let end = self.end_of_block(row);
            count += self.count_among::<C, T>(test, row, end) as u64;
            row = end;
        }
        count
    }

    // Where the block of a row ends.
    #[inline(always)]
    fn end_of_block(&self, row: usize) -> usize
        requires { row < rows_of self.now }
        ensures behind { row < result }
        ensures near { result ≤ row + 32 }
        ensures within { result ≤ length (codes self.now) }
    {
        let left = self.len() - row;
        row + left.min(BLOCK - row % BLOCK)
    }

    // Goes on to the first block in which a row passes.
    #[inline(always)]
    fn skip_blocks<C: Code, T: CodeTest<C>>(&self, test: &T, from: usize) -> usize
        requires width { C.width ≡ width_of self.now }
        requires within { from ≤ rows_of self.now }
        ensures same { rows_past (T.passes test.now) result (codes self.now)
            ≡ rows_past (T.passes test.now) from (codes self.now) }
        ensures order { from ≤ result }
        ensures within { result ≤ length (codes self.now) }
    {
        let mut row = from;
        while row < self.len() {
            let end = self.end_of_block(row);
            if self.count_among::<C, T>(test, row, end) > 0 {
                return row;
            }
            row = end;
        }
        row
    }

    // The first of these rows that passes.
    #[inline(always)]
    fn first_among<C: Code, T: CodeTest<C>>(
        &self,
        test: &T,
        from: usize,
        end: usize,
    ) -> Option<usize>
        requires width { C.width ≡ width_of self.now }
        requires order { from ≤ end }
        requires within { end ≤ rows_of self.now }
        ensures { IsFirstAmong (T.passes test.now) from end (codes self.now) result }
    {
        for row in from..end {
            if self.passes::<C, T>(test, row) {
                return Some(row);
            }
        }
        None
    }

    // How many of these rows pass, without a branch.
    #[inline(always)]
    fn count_among<C: Code, T: CodeTest<C>>(&self, test: &T, from: usize, end: usize) -> u8
        requires width { C.width ≡ width_of self.now }
        requires order { from ≤ end }
        requires few { end ≤ from + 32 }
        requires within { end ≤ rows_of self.now }
        ensures { CountsAmong (T.passes test.now) from end (codes self.now) result }
    {
        let mut count = 0u8;
        for row in from..end {
            count += self.passes::<C, T>(test, row) as u8;
        }
        count
    }
}
