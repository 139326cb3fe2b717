//! Tests of encoding and decoding.

mod decoding;
mod encoding;
mod fakes;
