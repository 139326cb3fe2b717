//! Encodes an input: the symbol of each of its lines, an empty line, and the spelling of each symbol.
//!
//! [`encode::encode`] does so over any reader and writer, and [`serve::serve`] is a run of the program
//! `intaglio_tool`.
#![tactic(auto)]

pub mod encode;
pub mod error;
pub mod serve;
