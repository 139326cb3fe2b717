//! Codes, rows and counts of a column, in a buffer of the caller's. Nothing is allocated.
ghost use Rattle.std.specs.Prelude.{◌≡◌, ◌-◌, ◌<◌, ◌≤◌, drop, length, min, set};
ghost use Rattle.intaglio_columns.specs.Layout.{codes, strings, width as width_of};
ghost use Rattle.intaglio_columns.specs.Rows.{AreCounts, overlaid, rows_of};

use crate::file::code::Code;
use crate::file::column::Column;
use crate::file::width::Width;

impl Column<'_> {
    /// Writes the codes of the rows from one on, as many as there are places and
    /// rows, and returns how many that is.
    pub fn codes_into(&self, from: usize, places: &mut [u32]) -> usize
        ensures codes { places.new ≡ overlaid (drop from (codes self.now)) places.old }
        ensures count { result ≡ min (length places.old) (length (codes self.now) - from) }
    {
        match self.width() {
            Width::One => self.copy_codes::<u8>(from, places),
            Width::Two => self.copy_codes::<u16>(from, places),
            Width::Four => self.copy_codes::<u32>(from, places),
        }
    }

    fn copy_codes<C: Code>(&self, from: usize, places: &mut [u32]) -> usize
        requires { C.width ≡ width_of self.now }
        ensures codes { places.new ≡ overlaid (drop from (codes self.now)) places.old }
        ensures count { result ≡ min (length places.old) (length (codes self.now) - from) }
    {
        let count = places.len().min(self.len().saturating_sub(from));
        for i in 0..count {
            let code = self.read::<C>(from + i);
            places[i] = code;
        }
        count
    }

    /// Writes the rows with this code, in ascending order, as far as there are places.
    /// Returns how many rows have the code.
    pub fn rows_into(&self, code: u32, places: &mut [u64]) -> usize
        ensures rows { places.new ≡ overlaid (rows_of code (codes self.now)) places.old }
        ensures count { result ≡ length (rows_of code (codes self.now)) }
    {
        // The number behind a row fits too.
        let _rows = self.len();
        let mut count = 0;
        let mut from = 0;
        while let Some(row) = self.next_row_of(code, from) {
            put(places, count, row as u64);
            count += 1;
            from = row + 1;
        }
        count
    }

    /// Writes how often each string occurs, and returns how many rows are missing.
    pub fn counts_into(&self, places: &mut [u64]) -> u64
        requires { length places.old ≡ strings self.now }
        ensures { AreCounts (strings self.now) (codes self.now) places.new result }
    {
        places.fill(0);
        self.count_into(places)
    }
}

// Writes a number at a place, if there is one.
#[inline(always)]
fn put(places: &mut [u64], at: usize, number: u64)
    ensures there { at < length places.old → places.new ≡ set places.old at number }
    ensures none { length places.old ≤ at → places.new ≡ places.old }
{
    if at < places.len() {
        places[at] = number;
    }
}
