//! The hasher: four words of state, the bytes since the last whole word, and a count of bytes.
ghost use Rattle.std.specs.Prelude.{◌≡◌, ◌+◌, ◌-◌, ◌^◌, ◌<◌, ◌≤◌, length};
ghost use Rattle.std.specs.Hash.DefaultHasher.{with_keys, round as sip_round};
ghost use Rattle.std.specs.Hash.DefaultHasher.{write_word as sip_write_word};
ghost use Rattle.std.specs.Hash.DefaultHasher.{write as sip_write, finish as sip_finish};
ghost use Rattle.intaglio_hash.specs.Push.{number, after_push};

use crate::words::{read_half, read_word};
use std::fmt;
use std::fmt::{Debug, Formatter};
use std::hash::Hasher;
use std::marker::Model;

/// A hasher that computes SipHash-1-3 with two keys, as std's `DefaultHasher` does.
///
/// Usually a [`KeyedState`](crate::KeyedState) builds it. A contract sees it as the `DefaultHasher` in the
/// same state, and its `write` and `finish` are those of that hasher: with the same keys and the same bytes
/// it returns the same hash, however the bytes are split into writes.
///
/// It is faster because it reads eight bytes, and those left at the end, as one word each. Hashing allocates
/// nothing. `Debug` doesn't print the state.
///
/// ```
/// use intaglio_hash::KeyedHasher;
/// use std::hash::{DefaultHasher, Hasher};
///
/// let mut hasher = KeyedHasher::with_keys(0, 0);
/// hasher.write(b"wo");
/// hasher.write(b"rd");
/// let mut std = DefaultHasher::new();
/// std.write(b"word");
/// assert!(rt; hasher.finish() == std.finish());
/// ```
#[derive(Clone, Copy)]
pub struct KeyedHasher {
    v0: u64,
    v1: u64,
    v2: u64,
    v3: u64,
    // The bytes since the last whole word, in little-endian order.
    tail: u64,
    // The number of bytes written. It wraps.
    length: u64,
}

impl Model for KeyedHasher {
    ghost use Rattle.std.specs.declared.hash.DefaultHasher.{DefaultHasher};

    ghost Value = { DefaultHasher };

    ghost view = { λ s. record {
      v0 = s.v0;
      v1 = s.v1;
      v2 = s.v2;
      v3 = s.v3;
      tail = s.tail;
      length = s.length;
    } };

    ghost inverse = { λ s. record {
      v0 = s.v0;
      v1 = s.v1;
      v2 = s.v2;
      v3 = s.v3;
      tail = s.tail;
      length = s.length;
    } };
}

impl KeyedHasher {
    /// A hasher with these two keys, before any write.
    ///
    /// ```
    /// # use intaglio_hash::KeyedHasher;
    /// # use std::hash::{DefaultHasher, Hasher};
    /// let hasher = KeyedHasher::with_keys(0, 0);
    /// assert!(rt; hasher.finish() == DefaultHasher::new().finish());
    /// ```
    #[inline]
    pub fn with_keys(key0: u64, key1: u64) -> KeyedHasher
        ensures { result ≡ with_keys key0 key1 }
    {
        KeyedHasher {
            v0: key0 ^ 0x736f_6d65_7073_6575,
            v1: key1 ^ 0x646f_7261_6e64_6f6d,
            v2: key0 ^ 0x6c79_6765_6e65_7261,
            v3: key1 ^ 0x7465_6462_7974_6573,
            tail: 0,
            length: 0,
        }
    }

    #[inline]
    fn round(&mut self)
        ensures { self.new ≡ sip_round self.old }
    {
        let left = self.v0.wrapping_add(self.v1);
        let right = self.v2.wrapping_add(self.v3);
        let one = self.v1.rotate_left(13) ^ left;
        let three = self.v3.rotate_left(16) ^ right;
        let zero = left.rotate_left(32).wrapping_add(three);
        let two = right.wrapping_add(one);
        self.v0 = zero;
        self.v1 = one.rotate_left(17) ^ two;
        self.v2 = two.rotate_left(32);
        self.v3 = three.rotate_left(21) ^ zero;
    }

    // Writes eight bytes, given as one number.
    #[inline]
    fn write_word(&mut self, word: u64)
        ensures { self.new ≡ sip_write_word self.old word }
    {
        self.v3 ^= word;
        self.round();
        self.v0 ^= word;
    }

    // Writes the `count` low bytes of `number`, whose other bytes are 0.
    #[inline(always)]
    fn push(&mut self, number: u64, count: u64)
        requires { count ≤ 8 }
        ensures value { self.new ≡ after_push self.old number count }
        ensures fits { self.old.length < 2 ^ 64 }
    {
        let held = self.length % 8;
        let word = self.tail | number << (8 * held);
        self.length = self.length.wrapping_add(count);
        if held + count < 8 {
            self.tail = word;
        } else {
            self.write_word(word);
            self.tail = (number >> 8) >> (56 - 8 * held);
        }
    }
}

// Fewer than eight bytes as one number, by reads that may overlap.
#[inline]
fn read_short(bytes: &[u8]) -> u64
    requires { length bytes.now < 8 }
    ensures { result ≡ number bytes.now 0 0 (length bytes.now) }
{
    let len = bytes.len();
    if len >= 4 {
        let high = read_half(bytes, len - 4) >> (8 * (8 - len));
        read_half(bytes, 0) | high << 32
    } else if len > 0 {
        let middle = (bytes[len / 2] as u64) << (8 * (len / 2));
        let last = (bytes[len - 1] as u64) << (8 * (len - 1));
        bytes[0] as u64 | middle | last
    } else {
        0
    }
}

// The bytes from `at` on, which are fewer than eight, of eight or more in total.
#[inline]
fn read_last(bytes: &[u8], at: usize) -> u64
    requires long { 8 ≤ length bytes.now }
    requires near { length bytes.now < at + 8 }
    requires within { at ≤ length bytes.now }
    ensures { result ≡ number bytes.now at 0 (length bytes.now - at) }
{
    let count = bytes.len() - at;
    (read_word(bytes, bytes.len() - 8) >> 8) >> (56 - 8 * count)
}

impl Hasher for KeyedHasher {
    ghost write = { sip_write };

    ghost finish = { sip_finish };

    // If this isn't inlined, the state goes through memory, and hashing takes half as long again.
    #[inline(always)]
    fn write(&mut self, bytes: &[u8]) {
        if bytes.len() < 8 {
            self.push(read_short(bytes), bytes.len() as u64);
            return;
        }
        // A local copy stays in registers.
        let mut state = *self;
        let mut at = 0;
        while bytes.len() - at >= 8 {
            state.push(read_word(bytes, at), 8);
            at += 8;
        }
        state.push(read_last(bytes, at), (bytes.len() - at) as u64);
        *self = state;
    }

    // Mostly the end of a text: no byte is read from memory.
    #[inline]
    fn write_u8(&mut self, i: u8) {
        self.push(i as u64, 1);
    }

    #[inline]
    fn finish(&self) -> u64 {
        let mut state = *self;
        state.write_word((self.length & 0xFF) << 56 | self.tail);
        state.v2 ^= 0xFF;
        state.round();
        state.round();
        state.round();
        state.v0 ^ state.v1 ^ state.v2 ^ state.v3
    }
}

impl Debug for KeyedHasher {
    fn fmt<W: fmt::Write>(&self, f: &mut Formatter<W>) -> fmt::Result {
        f.debug_struct("KeyedHasher").finish_non_exhaustive()
    }
}
