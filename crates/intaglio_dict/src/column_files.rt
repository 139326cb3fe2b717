//! What the program `intaglio_dict` does with column files: lines of rows, counts and matches, checks and
//! statistics, and columns that are decoded.

pub mod checking;
pub mod counting;
pub mod decoding;
pub mod excerpt;
pub mod matching;
pub mod opening;
pub mod rows;
