//! What the program `intaglio_dict` reads and writes: its arguments, inputs, outputs and messages.

pub mod apart;
pub mod command;
pub mod files;
pub mod folders;
pub mod identity;
pub mod input;
pub mod inputs;
pub mod keys;
pub mod metered;
pub mod noticing;
pub mod output;
pub mod replacing;
pub mod report;
pub mod symbols;
pub mod tables;
pub mod words;
