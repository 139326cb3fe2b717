//! Results of calls as the replies of a run.
use intaglio::{InternError, Reply, RoomError, StaleMark, Symbol};

/// The reply to an interning.
pub fn interned(answer: Result<Symbol, InternError>) -> Reply {
    match answer {
        Ok(symbol) => Reply::Symbol(Some(symbol)),
        Err(InternError::Overflow(_)) => Reply::Overflow,
        Err(InternError::Memory(_)) => Reply::NoMemory,
    }
}

/// The reply to a reservation or a shrink.
pub fn roomy(answer: Result<(), RoomError>) -> Reply {
    match answer {
        Ok(()) => Reply::Done,
        Err(RoomError::CapacityOverflow) => Reply::CapacityOverflow,
        Err(RoomError::Memory(_)) => Reply::NoMemory,
    }
}

/// The reply to a rollback.
pub fn taken(answer: Result<(), StaleMark>) -> Reply {
    match answer {
        Ok(()) => Reply::Done,
        Err(_) => Reply::Stale,
    }
}
