//! Equal C strings, and the iterators over contents.
use crate::support::kinds::Host;
use crate::tests::assertions::{copy_of, holds, same};
use intaglio::cstr::{CStr, CStrContent};
use intaglio::{Forms, Pairs, StrContent, Symbol};
use std::test::Fail;

#[test]
fn c_strings_are_compared_by_their_bytes(rt: HostRuntime) {
    let text = CStr::from_bytes_with_nul(b"abc\x00").expect(&rt, "no C string");
    let other = CStr::from_bytes_with_nul(b"ab\x00").expect(&rt, "no C string");
    let content = CStrContent::from(text);
    holds(&rt, content.form() == text);
    holds(&rt, content.form() != other);
}

fn letters(rt: &impl Host) -> Vec<StrContent> {
    vec![in rt.alloc();
        StrContent::from("a"),
        StrContent::from("b"),
        StrContent::from("c"),
    ]
    .expect(rt, "no memory")
}

#[test]
fn forms_are_skipped_counted_and_cloned(rt: HostRuntime) {
    let contents = letters(&rt);
    let forms = Forms::of(&contents);
    same(&rt, copy_of(&rt, &forms).nth(1), Some("b"));
    same(&rt, copy_of(&rt, &forms).nth_back(1), Some("b"));
    same(&rt, copy_of(&rt, &forms).nth_back(3), None);
    same(&rt, copy_of(&rt, &forms).count(), 3);
    same(&rt, forms.last(), Some("c"));
}

#[test]
fn pairs_are_skipped_counted_and_cloned(rt: HostRuntime) -> Result<(), Fail> {
    let contents = letters(&rt);
    assert!(&rt; contents.len() == 3);
    let pairs = Pairs::of(&contents);
    same(&rt, pairs.clone()?.count(), 3);
    assert_eq!(&rt; pairs.clone()?.nth(1), Some((Symbol::new(1), "b")));
    assert_eq!(&rt; pairs.last(), Some((Symbol::new(2), "c")));
    Ok(())
}
