//! Reads the header of a column file and the codes of some rows, and nothing else of it.
use crate::column_files::opening::no_column;
use crate::io::input::STANDARD;
use crate::io::report;
use crate::io::report::Tell;
use intaglio_columns::rows::RowRange;
use intaglio_columns::{ColumnError, ColumnHeader, HEADER, header_bytes};
use std::alloc::Global;
use std::io::{Read, Seek, SeekFrom};
use std::rt::Files;
use std::{fs, io};

/// A column file that is open.
#[derive(Drop)]
pub struct OpenColumn<F> {
    file: F,
    /// What its header says.
    pub header: ColumnHeader,
}

/// Whether an input is a file, in which a position can be sought.
pub fn is_file<R: Files>(rt: &R, name: &str) -> bool {
    match fs::metadata(rt, name) {
        Ok(found) => name != STANDARD && found.is_file(),
        Err(_) => false,
    }
}

/// Opens a column file, and checks its header and how long it is. Otherwise the exit status after a message.
pub fn open_column<R: Files + Tell + AllocGlobal>(
    rt: &R,
    name: &str,
) -> Result<OpenColumn<R::File>, u8> {
    match open_file(rt, name) {
        Ok((file, start, length)) => match header_of(&start, length) {
            Ok(header) => Ok(OpenColumn { file, header }),
            Err(fault) => Err(no_column(rt, name, fault)),
        },
        Err(e) => Err(report::of_file(rt, name, e)),
    }
}

// A file, the bytes of its header, and how long it is.
fn open_file<R: Files + AllocGlobal>(rt: &R, name: &str) -> io::Result<(R::File, Vec<u8>, u64)> {
    let mut file = fs::open(rt, name)?;
    let length = file.seek(SeekFrom::End(0))?;
    let mut start = Vec::new(rt.alloc());
    read_part(
        rt.alloc(),
        &mut file,
        0,
        length.min(HEADER as u64) as usize,
        &mut start,
    )?;
    Ok((file, start, length))
}

// What the header says, if the file is as long as it requires.
fn header_of(start: &[u8], length: u64) -> Result<ColumnHeader, ColumnError> {
    let header = ColumnHeader::read(start)?;
    let whole = header
        .rows
        .saturating_mul(header.width.bytes() as u64)
        .saturating_add(HEADER as u64);
    if length < whole {
        Err(ColumnError::Truncated)
    } else if length > whole {
        Err(ColumnError::TooLong)
    } else {
        Ok(header)
    }
}

impl<F: Read + Seek> OpenColumn<F> {
    /// The bytes of a column that has these rows alone, one range after the other.
    ///
    /// # Errors
    ///
    /// That there is no memory, or that the file can't be read.
    pub fn excerpt(&mut self, alloc: Global, ranges: &[RowRange]) -> io::Result<Vec<u8>> {
        let mut header = self.header;
        header.rows = 0;
        for range in ranges {
            header.rows = header.rows.saturating_add(count_of(*range));
        }
        let mut bytes = header_bytes(alloc, header)?;
        self.add_codes(alloc, ranges, &mut bytes)?;
        Ok(bytes)
    }

    // Adds the codes of these rows.
    fn add_codes(
        &mut self,
        alloc: Global,
        ranges: &[RowRange],
        bytes: &mut Vec<u8>,
    ) -> io::Result<()> {
        let width = self.header.width.bytes() as u64;
        for range in ranges {
            let at = width
                .saturating_mul(range.first as u64)
                .saturating_add(HEADER as u64);
            let size = width.saturating_mul(count_of(*range)) as usize;
            read_part(alloc, &mut self.file, at, size, bytes)?;
        }
        Ok(())
    }
}

// How many rows a range has.
fn count_of(range: RowRange) -> u64 {
    (range.last as u64)
        .saturating_add(1)
        .saturating_sub(range.first as u64)
}

// Adds bytes of a file from a position on.
fn read_part<F: Read + Seek>(
    alloc: Global,
    file: &mut F,
    at: u64,
    size: usize,
    bytes: &mut Vec<u8>,
) -> io::Result<()> {
    let mut part = Vec::from_elem(alloc, 0u8, size)?;
    file.seek(SeekFrom::Start(at))?;
    file.read_exact(&mut part)?;
    bytes.extend_from_slice(&part)?;
    Ok(())
}
