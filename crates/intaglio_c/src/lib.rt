//! The tables of texts, bytes, C strings, paths, OS strings and byte strings for C, and
//! packed tables of texts and of bytes.
//!
//! C sees bytes. It holds a [`Handle`], which owns an [`AnyTable`]: one of three stores, with what its
//! strings are. Each call borrows the table from the handle. Its contract is about the table as C sees it,
//! with its contents as their bytes, before and after the call.
#![tactic(auto)]

mod ahead;
mod any_table;
mod batch;
mod exports;
mod handle;
mod kind;
mod reference;
mod refusal;
mod spelling;
mod table_ptr;

pub use any_table::AnyTable;
pub use handle::Handle;
pub use kind::{Rule, TableKind};
pub use reference::Reference;
pub use refusal::Refusal;
pub use spelling::Spelling;
pub use table_ptr::TablePtr;
