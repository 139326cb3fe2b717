//! The hash builder of the tables in which strings are interned.
use crate::io::report;
use crate::io::report::Tell;
use intaglio_hash::KeyedState;
use std::hash::RandomState;
use std::random::RandomSource;

/// A hash builder with keys that are drawn at random. Otherwise the exit status after a message.
pub fn random_builder<R: RandomSource + Tell>(rt: &R) -> Result<KeyedState, u8> {
    match RandomState::new(rt) {
        Ok(random) => Ok(KeyedState::from_random(&random)),
        Err(_) => Err(report::no_random_bytes(rt)),
    }
}
