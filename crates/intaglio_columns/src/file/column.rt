//! A column.
ghost use Rattle.std.specs.Prelude.{◌≡◌, ◌≢◌, ◌^◌, ◌<◌, ◌≤◌, length, slice_get, IfErr, IfOk, IsOk, MatchOption, get_or};
ghost use Rattle.intaglio_columns.specs.Codes.{AreCodes};
ghost use Rattle.intaglio_columns.specs.Layout.{codes, rows as rows_of, source_of, strings, width as width_of};
ghost use Rattle.intaglio_columns.specs.IsColumn.{Describes, HasHeader, HasRows, IsColumn, IsFull, IsHeaderOf};
ghost use Rattle.intaglio_columns.specs.Fault.{HasGap, HasNoString, IsFault};

use crate::file::checksum::checksum_of;
use crate::file::code::{Code, MISSING};
use crate::file::error::ColumnError;
use crate::file::header::{ColumnHeader, HEADER};
use crate::file::testing::{CodeTest, IsUnknown};
use crate::file::width::Width;
use intaglio_frozen::DictionaryId;
use intaglio_hash::numbers::read_u64;
use std::marker::Model;

/// A column: a list of codes, and which dictionary they belong to. A contract sees its bytes.
#[derive(Drop)]
pub struct Column<'a> {
    bytes: &'a [u8],
    header: ColumnHeader,
    rows: usize,
}

impl<'a> Model for Column<'a> {
    ghost use Rattle.std.specs.Prelude.{ℕ, List};
    ghost use Rattle.intaglio_columns.specs.Read.{IsRead};

    ghost Value = { List ℕ };

    ghost view = { λ c. c.bytes.now };

    ghost invariant = { IsRead };
}

impl<'a> Column<'a> {
    /// The column in these bytes, after a check of the header, of the checksum and of each code.
    ///
    /// # Errors
    ///
    /// What is wrong with the bytes, if they are no column.
    pub fn open(bytes: &'a [u8]) -> Result<Column<'a>, ColumnError>
        ensures bytes { IfOk result (λ c. c ≡ bytes.now) }
        ensures column { IfOk result (λ _. IsColumn bytes.now) }
        ensures only { IsColumn bytes.now → IsOk result }
        ensures err { IfErr result (IsFault bytes.now) }
    {
        let column = Column::open_trusted(bytes)?;
        if checksum_of(bytes) != read_u64(bytes, 56) {
            return Err(ColumnError::Damaged);
        }
        if let Some(row) = column.first_fault() {
            return Err(ColumnError::NoString(row as u64));
        }
        match column.first_gap() {
            Some(row) => Err(ColumnError::Missing(row as u64)),
            None => Ok(column),
        }
    }

    /// The column in these bytes, after a check of the header and of how many bytes there are: then a code
    /// may be that of no string, and the checksum another. Nothing behind the header is read.
    ///
    /// # Errors
    ///
    /// What is wrong with the header, or that there are fewer or more bytes than the rows have.
    pub fn open_trusted(bytes: &'a [u8]) -> Result<Column<'a>, ColumnError>
        ensures bytes { IfOk result (λ c. c ≡ bytes.now) }
        ensures rows { IfOk result (λ _. HasRows bytes.now) }
        ensures only { HasRows bytes.now → IsOk result }
        ensures err { IfErr result (IsFault bytes.now) }
    {
        let header = ColumnHeader::read(bytes)?;
        let rows = rows_within(bytes, header.width, header.rows)?;
        Ok(Column {
            bytes,
            header,
            rows,
        })
    }

    /// The number of rows.
    #[inline]
    pub fn len(&self) -> usize
        ensures count { result ≡ rows_of self.now }
        ensures length { result ≡ length (codes self.now) }
        ensures few { strings self.now < 2 ^ 32 }
    {
        self.rows
    }

    /// What the header says.
    pub fn header(&self) -> ColumnHeader
        ensures { IsHeaderOf self.now result }
    {
        self.header
    }

    /// The dictionary of the column.
    pub fn id(&self) -> DictionaryId
        ensures { Describes self.now result }
    {
        self.header.id
    }

    /// How many bytes a code has.
    pub fn width(&self) -> Width
        ensures { result ≡ width_of self.now }
    {
        self.header.width
    }

    /// The code of a row, counted from 0: a symbol, or [`MISSING`]. If the bytes were
    /// trusted, it may be that of no string.
    #[inline]
    pub fn code(&self, row: usize) -> Option<u32>
        ensures { result ≡ slice_get (codes self.now) row }
    {
        if row >= self.rows {
            return None;
        }
        match self.header.width {
            Width::One => Some(self.read::<u8>(row)),
            Width::Two => Some(self.read::<u16>(row)),
            Width::Four => Some(self.read::<u32>(row)),
        }
    }

    // The code of a row that is there.
    #[inline(always)]
    pub(crate) fn read<C: Code>(&self, row: usize) -> u32
        requires width { C.width ≡ width_of self.now }
        requires row { row < rows_of self.now }
        ensures { slice_get (codes self.now) row ≡ Some result }
    {
        C::read(self.bytes, HEADER + C::bytes() * row)
    }

    // Whether the code of a row that is there passes a test.
    #[inline(always)]
    pub(crate) fn passes<C: Code, T: CodeTest<C>>(&self, test: &T, row: usize) -> bool
        requires width { C.width ≡ width_of self.now }
        requires row { row < rows_of self.now }
        ensures { result ≡ T.passes test.now (get_or (codes self.now) row 0) }
    {
        test.passes_at(self.bytes, HEADER + C::bytes() * row)
    }

    // The first row whose code is neither that of a string nor the missing one.
    fn first_fault(&self) -> Option<usize>
        ensures { let n = strings self.now in
            MatchOption result (AreCodes n (codes self.now)) (HasNoString n (codes self.now)) }
    {
        match self.header.width {
            Width::One => self.first_unknown::<u8>(),
            Width::Two => self.first_unknown::<u16>(),
            Width::Four => self.first_unknown::<u32>(),
        }
    }

    fn first_unknown<C: Code>(&self) -> Option<usize>
        requires { C.width ≡ width_of self.now }
        ensures { let n = strings self.now in
            MatchOption result (AreCodes n (codes self.now)) (HasNoString n (codes self.now)) }
    {
        let strings = C::of(self.header.id.count);
        self.next_row::<C, IsUnknown<C>>(&IsUnknown { strings }, 0)
    }

    // The first row that is missing, if the rows come from a dictionary.
    pub(crate) fn first_gap(&self) -> Option<usize>
        ensures { MatchOption result (IsFull self.now)
            (λ row. ((source_of self.now).shards ≢ 0) × HasGap (codes self.now) row) }
    {
        if self.header.source.shards == 0 {
            return None;
        }
        self.next_row_of(MISSING, 0)
    }
}

// How many rows there are, if the bytes end where the last one does.
fn rows_within(bytes: &[u8], width: Width, rows: u64) -> Result<usize, ColumnError>
    requires header { HasHeader bytes.now }
    requires width { width ≡ width_of bytes.now }
    requires rows { rows ≡ rows_of bytes.now }
    ensures rows { IfOk result (λ n. n ≡ rows) }
    ensures ok { IfOk result (λ _. HasRows bytes.now) }
    ensures only { HasRows bytes.now → IsOk result }
    ensures err { IfErr result (IsFault bytes.now) }
{
    let room = bytes.len() - HEADER;
    let whole = width.codes_in(room);
    if (whole as u64) < rows {
        return Err(ColumnError::Truncated);
    }
    if rows as usize * width.bytes() != room {
        return Err(ColumnError::TooLong);
    }
    Ok(rows as usize)
}
