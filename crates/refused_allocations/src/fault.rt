//! Why a run differs from the list.
use std::alloc::AllocError;

/// Why a run differs from the list.
#[derive(Clone, Copy, Debug)]
pub enum Fault {
    /// The arguments name no run.
    Words,
    /// An allocation for the run itself failed.
    Making,
    /// The call with this number returned something else than the list does.
    Answer(u32),
    /// After the call with this number, the table differs from the list.
    State(u32),
    /// Two calls failed for memory; the second one has this number.
    Twice(u32),
}

impl From<AllocError> for Fault {
    fn from(_refused: AllocError) -> Fault {
        Fault::Making
    }
}

/// A runtime to which calls are told.
pub trait Told: Eprint + AllocGlobal {}

impl<R: Eprint + AllocGlobal> Told for R {}

/// Prints a call, or a failure for memory that it reported.
pub fn tell(rt: &impl Told, what: &str, number: u32) {
    let _ = eprintln!(rt; "{what} {number}");
}
