//! What only some kinds of content have: spellings of equal paths, zero bytes, and bytes that aren't UTF-8.
use super::each::{Kept, Owned, Script, Trial, on_paths, try_on_bytes, try_on_each};
use crate::support::kinds::{CStrKind, Host, TestKind};
use crate::tests::assertions::same;
use intaglio::cstr;
use intaglio::cstr::CStrContent;

const PATHS: &str = "
spellings_of_a_path:
    new > done; intern a//b, a/b > 0, 0; get 0 > a//b; len > 1
    new > done; intern a/b, ./a/b, a/./b, a/b/, /a/b, a/../b, b > 0, 1, 0, 0, 2, 3, 4
    new > done; intern > 0; intern ., ./, /, //, /., .., /.. > 1, 1, 2, 2, 2, 3, 4
thirty_paths_have_sixteen_symbols:
    new > done; intern > 0
    intern ., ./, ./., .//., /, //, /., /./, .., /.., ../.. > 1, 1, 1, 1, 2, 2, 2, 2, 3, 4, 5
    intern ./.., a, a/, a/., a/./, a/.., a/b, a//b, a/./b, a/b/ > 6, 7, 7, 7, 7, 8, 9, 9, 9, 9
    intern ./a/b, /a/b, //a/b, /./a/b, a/../b, ..., .a/b. > 10, 11, 11, 11, 12, 13, 14
    intern a b/c > 15; len > 16
a_path_may_come_back_in_another_spelling:
    with_hasher > done; intern x > 0; mark > 1; intern a//b > 1; take_back 1 > done
    intern a/b > 1; get 1 > a/b
a_limit_counts_equal_paths_once:
    with_limit 1 > done; intern a/b, a//b, c > 0, 0, Symbol overflow; get 0 > a/b; len > 1
the_first_spelling_of_a_path_is_copied:
    new > done; get_or_intern a//b, a/b > 0, 0; get 0 > a//b; len > 1
";

#[test]
fn equal_paths_are_one_content(rt: HostRuntime) {
    on_paths(&rt, PATHS);
}

const ZEROS: &str = "
zeros_are_bytes:
    with_hasher > done; intern \0 > 0; intern > 1; intern \0\0, \0 > 2, 0
";

#[test]
fn zeros_are_bytes(rt: HostRuntime) {
    try_on_bytes(&rt, &Script(ZEROS));
}

#[test]
fn bytes_that_are_no_text_are_kept(rt: HostRuntime) {
    let bytes: [&[u8]; 5] = [b"\x00", b"\xff", b"\x00\xff", b"\x00\xfe", b"\x00\xff\x00"];
    try_on_bytes(&rt, &Kept(&bytes));
    Kept(&[b"\xff"]).try_on::<Owned<CStrKind>, _>(&rt);
}

#[test]
fn each_content_of_the_list_is_kept(rt: HostRuntime) {
    let long = Vec::from_elem(rt.alloc(), b'x', 4096).expect(&rt, "memory");
    try_on_each(&rt, &Kept(&[long.as_slice()]));
    let short: [&[u8]; 5] = [b"", b"a", b"abc", b"a/b", b"\xc3\xa4"];
    try_on_each(&rt, &Kept(&short));
    try_on_each(&rt, &Kept(&[b"a//b"]));
}

// Asserts that a table returns the bytes of a C string and the zero after them.
fn keeps_the_zero(rt: &impl Host, content: Option<CStrContent>, ended: &[u8]) {
    let mut table = cstr::SymbolTable::new(rt.alloc()).expect(rt, "no table");
    let content = content.expect(rt, "no C string");
    let symbol = table.intern(content).expect(rt, "no symbol");
    let stored = table.get(symbol).expect(rt, "no content");
    same(rt, stored.to_bytes_with_nul(), ended);
}

#[test]
fn a_zero_ends_a_c_string(rt: HostRuntime) {
    keeps_the_zero(&rt, CStrKind::borrowed("abc\0"), b"abc\x00");
    keeps_the_zero(&rt, CStrKind::owned(rt.alloc(), b"abc"), b"abc\x00");
}
