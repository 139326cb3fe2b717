//! The bytes that each kind of content writes to a hasher.
use super::expected_writes::ExpectedWrites;
use crate::support::kinds::{BStrKind, BytesKind, CStrKind, OsStrKind, PathKind, StrKind};
use bstr::BStr;
use intaglio::bstr::BStrContent;
use intaglio::bytes::BytesContent;
use intaglio::cstr::{CStr, CStrContent};
use intaglio::osstr::OsStrContent;
use intaglio::path::{Path, PathContent};
use intaglio::{ContentOf, KindOwned, Packable, Sought, StrContent, Work};
use std::mem::size_of;
use std::process::Abort;

// The hash by a builder that expects these writes: 1 if it gets exactly them.
fn hash<K: KindOwned, Q: Packable<K>>(sought: &Q, writes: &'static [&'static [u8]]) -> u64 {
    Sought::<ContentOf<K>>::hash_with(sought, &ExpectedWrites::of(writes), &mut Work::new())
}

// Asserts that hashing the value makes exactly these writes.
fn feeds<K: KindOwned, Q: Packable<K>>(
    rt: &impl Abort,
    sought: &Q,
    writes: &'static [&'static [u8]],
) {
    assert!(rt; hash::<K, Q>(sought, writes) == 1);
}

// Asserts that hashing the value doesn't make exactly these writes.
fn feeds_else<K: KindOwned, Q: Packable<K>>(
    rt: &impl Abort,
    sought: &Q,
    writes: &'static [&'static [u8]],
) {
    assert!(rt; hash::<K, Q>(sought, writes) == 0);
}

#[test]
fn texts_feed_their_bytes_and_an_end(rt: HostRuntime) {
    feeds::<StrKind, StrContent>(&rt, &StrContent::from("abc"), &[b"abc", b"\xff"]);
    feeds::<StrKind, StrContent>(&rt, &StrContent::from(""), &[b"", b"\xff"]);
    feeds::<StrKind, &str>(&rt, &"abc", &[b"abc", b"\xff"]);
    feeds_else::<StrKind, &str>(&rt, &"abc", &[b"abc"]);
    feeds_else::<StrKind, &str>(&rt, &"abc", &[b"abc\xff"]);
    feeds_else::<StrKind, &str>(&rt, &"", &[b"\xff"]);
}

#[test]
fn platform_strings_feed_their_bytes_and_an_end(rt: HostRuntime) {
    let content = OsStrContent::from("a/b");
    feeds::<OsStrKind, OsStrContent>(&rt, &content, &[b"a/b", b"\xff"]);
}

#[test]
fn bytes_feed_themselves_and_an_end(rt: HostRuntime) {
    let bytes = BytesContent::from(b"\x00\xff".as_slice());
    feeds::<BytesKind, BytesContent>(&rt, &bytes, &[b"\x00\xff", b"\xff"]);
    feeds::<BytesKind, &[u8]>(&rt, &b"\x00\xff".as_slice(), &[b"\x00\xff", b"\xff"]);
    feeds_else::<BytesKind, BytesContent>(&rt, &bytes, &[b"\x00", b"\xff"]);
}

#[test]
fn byte_strings_feed_their_bytes_and_an_end(rt: HostRuntime) {
    let text = BStrContent::Borrowed(b"abc".as_slice().into());
    feeds::<BStrKind, BStrContent>(&rt, &text, &[b"abc", b"\xff"]);
    feeds::<BStrKind, BStr<'_>>(&rt, &text.form(), &[b"abc", b"\xff"]);
    feeds_else::<BStrKind, BStrContent>(&rt, &text, &[b"abc"]);
}

// The C string of bytes whose only zero is the last byte.
fn c_string(rt: &impl Abort, ended: &'static [u8]) -> CStr<'static> {
    CStr::from_bytes_with_nul(ended).expect(rt, "a C string")
}

#[test]
fn c_strings_feed_their_bytes_and_an_end(rt: HostRuntime) {
    let text = c_string(&rt, b"abc\x00");
    let empty = c_string(&rt, b"\x00");
    feeds::<CStrKind, CStr>(&rt, &text, &[b"abc", b"\xff"]);
    feeds::<CStrKind, CStrContent>(&rt, &CStrContent::from(text), &[b"abc", b"\xff"]);
    feeds::<CStrKind, CStrContent>(&rt, &CStrContent::from(empty), &[b"", b"\xff"]);
    feeds_else::<CStrKind, CStr>(&rt, &text, &[b"abc\x00", b"\xff"]);
    feeds_else::<CStrKind, CStr>(&rt, &empty, &[b"\xff"]);
}

// Paths, and the writes that they make.
static FED: [(&str, &[&[u8]]); 5] = [
    ("a//b", &[b"a", b"\xff", b"b", b"\xff"]),
    ("./a", &[b".", b"\xff", b"a", b"\xff"]),
    ("/", &[b"/", b"\xff"]),
    ("/..", &[b"/", b"\xff", b"..", b"\xff"]),
    ("", &[]),
];

#[test]
fn components_are_fed_with_their_ends(rt: HostRuntime) {
    let path = PathContent::from("a/b");
    feeds::<PathKind, PathContent>(&rt, &path, &[b"a", b"\xff", b"b", b"\xff"]);
    for (path, writes) in FED {
        feeds::<PathKind, Path>(&rt, &Path::new(path), writes);
    }
    feeds_else::<PathKind, Path>(&rt, &Path::new("a/b"), &[b"a/b", b"\xff"]);
    feeds_else::<PathKind, Path>(&rt, &Path::new("/"), &[b"/"]);
}

#[test]
fn marks_take_no_bytes(rt: HostRuntime) {
    let mut work = Work::new();
    work.hashed(&"a");
    work.compared(&"a", &"b");
    work.step();
    work.placed();
    assert_eq!(&rt; size_of::<Work>(), 0);
}
