#![tactic(auto)]
//! Two hash builders. One has two keys, and its hashers compute SipHash-1-3, as std's `DefaultHasher` does.
//! The other has a fixed seed, and its hashers compute what std's `FoldHasher` does.
//!
//! A table hashes contents with the hashers of its hash builder. These are the builders to choose from:
//!
//! - std's `BuildHasherDefault<FoldHasher>`, the default of owned tables, has a fixed seed. Use it where
//!   nobody chooses contents to slow the program down: hashing alone takes the least time with it.
//! - [`FixedState`] has the same seed and hashes, computed with fewer branches on the length of a string.
//!   Packed tables have it by default: their comparison branches on the same lengths, so hash and comparison
//!   together take less time there.
//! - [`KeyedState`] has two keys: random ones, or two numbers of yours. Use it where contents come from
//!   untrusted sources, or where several tables or runs must agree on hashes.
//! - std's `RandomState` has random keys. Use it where a type requires it. [`KeyedState::from_random`]
//!   computes its keys from one, and takes less time to hash.
//!
//! # What keys protect against
//!
//! Whoever can compute a table's hashes can find contents that all fall in one bucket. A search
//! among n of them then takes up to n steps. A fixed seed is the same in every program, so one such list
//! of contents works against all of them. With two random keys that stay secret, nobody is known to
//! be able to find such contents.
//!
//! - Keys that are written in a program, or that are printed, protect no better than a fixed seed.
//! - Contents are still compared where hashes are equal: a bad hash makes a table slow, never wrong.
//! - Hashes aren't signatures or checksums. 64 bits are too few for that, and SipHash-1-3 is the faster,
//!   weaker form of SipHash-2-4.
//!
//! It is proved that the hashes are those of std's hashers: [`laws`] says so of `FixedState`, and the
//! contracts of `KeyedState` for the same keys. That SipHash spreads hashes well and can't be predicted rests
//! on the work of its authors.

mod fixed_hasher;
mod fixed_state;
mod hasher;
pub mod laws;
pub mod numbers;
mod state;
mod words;

pub use fixed_hasher::FixedHasher;
pub use fixed_state::FixedState;
pub use hasher::KeyedHasher;
pub use state::KeyedState;
