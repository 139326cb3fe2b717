//! Tests of the tables of all kinds: scripts, each row of which has calls and their expected results.

mod asks;
mod batches;
mod each;
mod hashers;
mod iterators;
mod kinds;
mod loops;
mod plain;
mod printed;
mod random;
mod rooms;
mod runs;
mod script;
mod steps;
mod table;
mod texts;
