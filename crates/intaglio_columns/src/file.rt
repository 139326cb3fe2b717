//! Columns in files: the codes of a list of lines under a dictionary, behind a
//! header that says which dictionary.

mod checksum;
mod code;
mod column;
mod copying;
mod counting;
mod error;
mod filter;
mod header;
mod list;
mod scanning;
mod selecting;
mod source;
mod testing;
mod width;
mod writing;

pub use code::MISSING;
pub use column::Column;
pub use counting::Counts;
pub use error::{ColumnError, ColumnWriteError};
pub use filter::RowFilter;
pub use header::{ColumnHeader, HEADER, begins_as_column};
pub use list::CodeList;
pub use source::RowSource;
pub use width::Width;
pub use writing::{column_bytes, header_bytes, sourced_column_bytes};
