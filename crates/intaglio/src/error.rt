//! One error type for functions that make tables and call them.
ghost use Rattle.std.specs.Prelude.{◌≡◌, Some, alloc_error};
ghost use Rattle.intaglio.specs.TableError.{table_error_text};
ghost use Rattle.intaglio.specs.declared.error.TableError.TheVariants.{Intern, Memory, Room, Stale};

use intaglio_core::{InternError, RoomError, StaleMark};
use std::alloc::{AllocError, AllocFailed};
use std::error::Error;
use std::fmt;

/// Why a call of a table failed, for any call: `?` converts each error of a table into this one, which
/// keeps it. It also converts the errors of std's collections, so a table and a `Vec` can be used in one
/// function.
///
/// ```
/// use intaglio::{StrContent, Symbol, SymbolTable, TableError};
/// use std::alloc::Global;
///
/// fn symbols_of(alloc: Global, words: &'static str) -> Result<Vec<Symbol>, TableError> {
///     let mut table = SymbolTable::new(alloc)?;
///     let mut symbols = Vec::new(alloc);
///     for word in words.split_whitespace() {
///         symbols.push(table.intern(StrContent::from(word))?)?;
///     }
///     Ok(symbols)
/// }
/// ```
#[derive(Debug, Clone, Copy, PartialEq, Eq)]
pub enum TableError {
    /// A table wasn't made, or a change of its capacity failed.
    Room(RoomError),
    /// A content wasn't interned.
    Intern(InternError),
    /// A mark counts more contents than the table holds.
    Stale(StaleMark),
    /// An allocation failed that no table made, such as that of a `Vec`.
    Memory(AllocError),
}

impl fmt::Display for TableError {
    ghost output = { λ error. Some (table_error_text error) };

    fn fmt<W: fmt::Write>(&self, f: &mut fmt::Formatter<W>) -> fmt::Result {
        match self {
            TableError::Room(room) => write!(f, "{room}"),
            TableError::Intern(intern) => write!(f, "{intern}"),
            TableError::Stale(stale) => write!(f, "{stale}"),
            TableError::Memory(_) => write!(f, "out of memory"),
        }
    }
}

impl Error for TableError {}

impl From<RoomError> for TableError {
    ghost from_gives = { λ room error. error ≡ Room room };

    fn from(room: RoomError) -> TableError {
        TableError::Room(room)
    }
}

impl From<InternError> for TableError {
    ghost from_gives = { λ intern error. error ≡ Intern intern };

    fn from(intern: InternError) -> TableError {
        TableError::Intern(intern)
    }
}

impl From<StaleMark> for TableError {
    ghost from_gives = { λ stale error. error ≡ Stale stale };

    fn from(stale: StaleMark) -> TableError {
        TableError::Stale(stale)
    }
}

impl From<AllocError> for TableError {
    ghost from_gives = { λ refused error. error ≡ Memory refused };

    fn from(refused: AllocError) -> TableError {
        TableError::Memory(refused)
    }
}

// So that `v.push(x)?` converts. The value that wasn't stored is dropped.
impl<T: Drop> From<AllocFailed<T>> for TableError {
    ghost from_gives = { λ _ error. error ≡ Memory alloc_error };

    fn from(_refused: AllocFailed<T>) -> TableError {
        TableError::Memory(AllocError)
    }
}
