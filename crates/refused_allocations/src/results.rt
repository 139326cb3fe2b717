//! Whether results are those of the list.
use intaglio::cstr::{CString, CStringError};
use intaglio::{InternError, RoomError, Symbol, TableError};
use intaglio_frozen::{FreezeError, Frozen};
use std::alloc::{AllocError, Global};

/// Whether a call failed for memory.
pub fn is_refused(answer: &Result<bool, TableError>) -> bool {
    matches!(
        answer,
        Err(
            TableError::Memory(_)
                | TableError::Intern(InternError::Memory(_))
                | TableError::Room(RoomError::Memory(_))
        )
    )
}

/// Whether these are the first `count` symbols, in order.
pub fn are_numbered(symbols: &[Symbol], count: usize) -> bool {
    let mut is_right = symbols.len() == count;
    for (number, symbol) in symbols.iter().enumerate() {
        is_right = is_right && symbol.id() as usize == number;
    }
    is_right
}

/// Whether exactly the first `held` were found, each at its number.
pub fn are_found(found: &[Option<Symbol>], held: usize) -> bool {
    let mut is_right = found.len() >= held;
    for (number, symbol) in found.iter().enumerate() {
        is_right = is_right && is_place(*symbol, number, held);
    }
    is_right
}

/// Whether that is what a look-up of this number finds, if the first `held` are stored.
pub fn is_place(found: Option<Symbol>, number: usize, held: usize) -> bool {
    match found {
        Some(symbol) => number < held && symbol.id() as usize == number,
        None => number >= held,
    }
}

/// Whether frozen bytes open, as those of so many strings.
pub fn opens(bytes: Result<Vec<u8>, FreezeError>, held: usize) -> Result<bool, TableError> {
    match bytes {
        Ok(bytes) => match Frozen::open(&bytes) {
            Ok(frozen) => Ok(frozen.len() == held),
            Err(_) => Ok(false),
        },
        Err(FreezeError::Memory) => Err(TableError::from(AllocError)),
        Err(_) => Ok(false),
    }
}

/// Makes a C string of bytes without spare capacity.
pub fn c_string(alloc: Global) -> Result<bool, TableError> {
    let mut bytes = Vec::with_capacity(alloc, 3)?;
    bytes.extend_from_slice(b"abc")?;
    match CString::new(alloc, bytes) {
        Ok(string) => Ok(string.as_c_str().to_bytes() == b"abc".as_slice()),
        Err(CStringError::Memory(_)) => Err(TableError::from(AllocError)),
        Err(_) => Ok(false),
    }
}
