//! Tests of what no contract says: values from outside, the tests of the ported
//! crate, and each public call once.

mod assertions;
mod formats;
mod programs;
mod scripts;
mod units;
