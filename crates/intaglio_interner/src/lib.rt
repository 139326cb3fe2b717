//! What every symbol table does, whatever its contents are kept in and however they are found.
//!
//! [`BaseInterner`] says it of all tables, and [`Interner`] what those with owned contents do besides;
//! batches of look-ups and internings, and lists of calls ([`run`]), are made on any of them.
#![tactic(auto)]

mod batch;
mod interner;
mod runs;

pub use batch::{AHEAD_FROM, GROUP, check_all, get_or_intern_all, intern_all, look_ahead};
pub use interner::{BaseInterner, Interner};
pub use runs::{Call, Reply, run};
