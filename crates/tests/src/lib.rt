//! Tests of all crates but the programs that read files, and what they share with the program
//! `refused_allocations`.
#![tactic(auto)]

pub mod support;
#[cfg(test)]
mod tests;
