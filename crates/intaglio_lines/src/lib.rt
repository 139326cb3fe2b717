//! What the programs share: reading an input to its end, its lines, the kinds of contents that they become,
//! interning them into any table, and writing an output through a block.
//!
//! An encoded output has the symbol of each line of an input, an empty line, and the spelling of each symbol.
#![tactic(auto)]

pub mod encoding;
pub mod error;
pub mod from_line;
pub mod intern_lines;
pub mod kind;
pub mod lines;
pub mod named;
pub mod read;
pub mod tool_error;
pub mod write;
