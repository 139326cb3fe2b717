//! Strings that are chosen so that under some keys one of them gets no place. The expected hashes are of the
//! bytes that `checks/formats.py` writes.
use super::words::words_of;
use crate::support::kinds::Host;
use crate::tests::assertions::same;
use intaglio_frozen::{
    FreezeError, FrozenKind, Header, StringList, freeze, freeze_with_default_keys,
};
use intaglio_hash::KeyedState;
use std::hash::{BuildHasher, Hasher};
use std::process::Abort;

// Their groups are in the lowest fifth under the keys 0 and 0.
const UNDER_ONE: &str = "
    2 4 20 40 50 56 58 62 71 77 78 80 87 89 96 102 103 104 106 109 121 126 128 129 133 137 139
    143 159 167 173 174 179 181 188 194 197 199 201 203
";
// Their groups are in the lowest fifth under each first key from 0 to 7, and the second key 0.
const UNDER_EIGHT: &str = "
    356431 778763 961768 1031485 1093268 1483254 1784164 2153174 2228903 2815661 2980024 3453168
    3609195 3770836 4340218 4372595 4434485 4831018 5212841 5252674 6163652 6826652 7315372
    8806927 9221658 9319511 9592333 10925268 11181136 11598600 11761305 11797657 11830328
    11988972 12183448 12482669 12667757 13484168 13866871 14048987
";

// SipHash-1-3 of the bytes under the keys 0 and 0.
fn hash_of(bytes: &[u8]) -> u64 {
    let mut hasher = KeyedState::with_keys(0, 0).build_hasher();
    hasher.write(bytes);
    hasher.finish()
}

// Asserts that the bytes have these keys and this hash.
fn has(rt: &impl Abort, bytes: &[u8], keys: (u64, u64), hash: u64) {
    let header = Header::read(bytes).expect(rt, "no header");
    same(rt, (header.key0, header.key1), keys);
    same(rt, hash_of(bytes), hash);
}

// The list frozen under the keys 0 and 0.
fn frozen<L: StringList>(rt: &impl Host, list: &L, kind: FrozenKind) -> Vec<u8> {
    freeze(rt.alloc(), list, kind, 0, 0).expect(rt, "not frozen")
}

// The list frozen without keys.
fn frozen_by_default<L: StringList>(rt: &impl Host, list: &L, kind: FrozenKind) -> Vec<u8> {
    freeze_with_default_keys(rt.alloc(), list, kind).expect(rt, "not frozen")
}

#[test]
fn the_first_keys_that_serve_are_taken(rt: HostRuntime) {
    let words = words_of(&rt, UNDER_ONE);
    let bytes = frozen(&rt, &words, FrozenKind::Bytes);
    has(&rt, &bytes, (1, 0), 1_153_101_347_055_206_373);
}

#[test]
fn keys_are_drawn_from_strings_after_the_first_eight(rt: HostRuntime) {
    let words = words_of(&rt, UNDER_EIGHT);
    let bytes = frozen_by_default(&rt, &words, FrozenKind::Bytes);
    let keys = (10_087_741_285_488_634_726, 4_955_475_991_202_912_833);
    has(&rt, &bytes, keys, 17_246_542_960_659_430_143);
}

#[test]
fn without_keys_the_first_are_0_and_0(rt: HostRuntime) {
    let words = words_of(&rt, UNDER_ONE);
    let given = frozen(&rt, &words, FrozenKind::Text);
    let bytes = frozen_by_default(&rt, &words, FrozenKind::Text);
    same(&rt, bytes.as_slice(), given.as_slice());
}

#[test]
fn the_first_string_that_is_equal_to_an_earlier_one_is_named(rt: HostRuntime) {
    let words = words_of(&rt, "b a c a b a");
    let error = FreezeError::Equal(1, 3);
    let refused = freeze(rt.alloc(), &words, FrozenKind::Bytes, 0, 0);
    same(&rt, refused.err(), Some(error));
    let refused = freeze_with_default_keys(rt.alloc(), &words, FrozenKind::Text);
    same(&rt, refused.err(), Some(error));
}
