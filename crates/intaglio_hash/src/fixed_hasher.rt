//! A hasher of fixed seed, with few branches on the length of what is written.
ghost use Rattle.std.specs.Prelude.{◌≡◌, ◌+◌, ◌-◌, ◌*◌, ◌/◌, ◌<◌, ◌≤◌, length};
ghost use Rattle.std.specs.Hash.FoldHasher.{initial, folded_multiply, read_short, mix, mix_blocks};
ghost use Rattle.std.specs.Hash.FoldHasher.{write as fold_write, finish as fold_finish};

use crate::words::{read_half, read_word};
use std::fmt;
use std::fmt::{Debug, Formatter};
use std::hash::Hasher;
use std::marker::Model;

const MULTIPLIER: u64 = 0x9e37_79b9_7f4a_7c15;

// The greatest lengths of the classes but the last.
const SHORT: usize = 8;

const MEDIUM: usize = 32;

const LONG: usize = 64;

/// A hasher of fixed seed that computes what std's `FoldHasher` does.
///
/// Usually a [`FixedState`](crate::FixedState) builds it. A contract sees it as the `FoldHasher` in the same
/// state, and its `write` and `finish` are those of that hasher: for the same writes it returns the same
/// hash.
///
/// It has a class for each of the lengths 0 to 8, 9 to 32, 33 to 64, and more. In the second and the third it
/// reads all that the class may need, whatever the length, since a processor can't predict the length of the
/// next word. A comparison that branches on the same lengths is then predicted. Hashing allocates nothing.
/// `Debug` doesn't print the state.
///
/// ```
/// use intaglio_hash::FixedHasher;
/// use std::hash::{FoldHasher, Hasher};
///
/// let mut hasher = FixedHasher::default();
/// hasher.write(b"word");
/// let mut std = FoldHasher::default();
/// std.write(b"word");
/// assert!(rt; hasher.finish() == std.finish());
/// ```
#[derive(Clone, Copy)]
pub struct FixedHasher {
    state: u64,
}

impl Model for FixedHasher {
    ghost use Rattle.std.specs.declared.hash.FoldHasher.{FoldHasher};

    ghost Value = { FoldHasher };

    ghost view = { λ s. record { state = s.state } };

    ghost inverse = { λ s. record { state = s.state } };
}

impl Default for FixedHasher {
    ghost is_default = { λ s. s ≡ initial };

    fn default() -> FixedHasher {
        FixedHasher {
            state: 0x243f_6a88_85a3_08d3,
        }
    }
}

// The two halves of the product, joined by xor.
#[inline(always)]
fn folded(a: u64, b: u64) -> u64
    ensures { result ≡ folded_multiply a b }
{
    let product = a as u128 * b as u128;
    (product & 0xffff_ffff_ffff_ffff) as u64 ^ (product >> 64) as u64
}

// Up to eight bytes as one number, by reads that may overlap.
#[inline(always)]
fn short(bytes: &[u8]) -> u64
    ensures { result ≡ read_short bytes.now }
{
    let len = bytes.len();
    if len >= 4 {
        read_half(bytes, 0) | read_half(bytes, len - 4) << 32
    } else if len > 0 {
        bytes[0] as u64 | (bytes[len / 2] as u64) << 8 | (bytes[len - 1] as u64) << 16
    } else {
        0
    }
}

// The state after the words at two offsets.
#[inline(always)]
fn mixed(bytes: &[u8], state: u64, first: usize, second: usize) -> u64
    requires first { first + 8 ≤ length bytes.now }
    requires second { second + 8 ≤ length bytes.now }
    ensures { result ≡ mix bytes.now state first second }
{
    folded(
        read_word(bytes, first) ^ state,
        read_word(bytes, second) ^ MULTIPLIER,
    )
}

// The state before the last 16 bytes of 9 to 32. The step is computed whatever the length.
#[inline(always)]
fn after_one(bytes: &[u8], begun: u64) -> u64
    requires more { 8 < length bytes.now }
    requires class { length bytes.now ≤ 32 }
    ensures { result ≡ mix_blocks bytes.now begun ((length bytes.now - 1) / 16) }
{
    let len = bytes.len();
    let step = mixed(bytes, begun, 0, (len - 8).min(8));
    if len > 16 { step } else { begun }
}

// The state before the last 16 bytes of 33 to 64. The third step is computed whatever the length.
//
// Its second offset isn't written as the first one plus 8: the compiler would read both words into one vector
// register, and take them apart again.
#[inline(always)]
fn after_three(bytes: &[u8], begun: u64) -> u64
    requires more { 32 < length bytes.now }
    requires class { length bytes.now ≤ 64 }
    ensures { result ≡ mix_blocks bytes.now begun ((length bytes.now - 1) / 16) }
{
    let len = bytes.len();
    let two = mixed(bytes, mixed(bytes, begun, 0, 8), 16, 24);
    let step = mixed(bytes, two, (len - 16).min(32), (len - 8).min(40));
    if len > 48 { step } else { two }
}

// The state before the last 16 bytes of any number above 16.
#[inline(never)]
fn after_all(bytes: &[u8], begun: u64) -> u64
    requires more { 16 < length bytes.now }
    ensures { result ≡ mix_blocks bytes.now begun ((length bytes.now - 1) / 16) }
{
    let len = bytes.len();
    let mut state = begun;
    let mut at = 0;
    while len - at > 16 {
        state = mixed(bytes, state, at, at + 8);
        at += 16;
    }
    state
}

// The state after a write. The last step is the same for all classes of more than eight bytes.
#[inline(always)]
fn written(state: u64, bytes: &[u8]) -> u64
    ensures { result ≡ (fold_write (record { state = state }) bytes.now).state }
{
    let len = bytes.len();
    if len <= SHORT {
        return folded(state ^ short(bytes), MULTIPLIER ^ (2 * len as u64));
    }
    let begun = state.wrapping_add(len as u64);
    let before = if len <= MEDIUM {
        after_one(bytes, begun)
    } else if len <= LONG {
        after_three(bytes, begun)
    } else {
        after_all(bytes, begun)
    };
    mixed(bytes, before, len.max(16) - 16, len - 8)
}

impl Hasher for FixedHasher {
    ghost write = { fold_write };

    ghost finish = { fold_finish };

    #[inline(always)]
    fn write(&mut self, bytes: &[u8]) {
        self.state = written(self.state, bytes);
    }

    // Mostly the end of a text: no byte is read from memory.
    #[inline(always)]
    fn write_u8(&mut self, i: u8) {
        let wide = i as u64;
        self.state = folded(self.state ^ (wide | wide << 8 | wide << 16), MULTIPLIER ^ 2);
    }

    #[inline(always)]
    fn finish(&self) -> u64 {
        self.state
    }
}

impl Debug for FixedHasher {
    fn fmt<W: fmt::Write>(&self, f: &mut Formatter<W>) -> fmt::Result {
        f.debug_struct("FixedHasher").finish_non_exhaustive()
    }
}
