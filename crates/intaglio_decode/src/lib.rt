//! Decodes an encoded output: the string of each symbol, as a line.
//!
//! [`restore::restore`] does so over any reader and writer, and [`serve::serve`] is a run of the program
//! `intaglio_restore`. [`laws`] has what holds of encoded outputs and of what they are decoded to.
#![tactic(auto)]

pub mod error;
pub mod laws;
pub mod number;
pub mod parts;
pub mod restore;
pub mod serve;
