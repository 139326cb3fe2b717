//! Assertions as functions: each is proved once, however many tests call it.
use std::fmt::{Debug, Display};
use std::process::Abort;

/// Asserts that both are equal.
pub fn same<T: PartialEq + Debug + Drop>(rt: &impl Abort, got: T, wanted: T) {
    assert_eq!(rt; got, wanted);
}

/// Asserts what a value prints.
pub fn prints<Rt: Abort + AllocGlobal>(rt: &Rt, value: impl Display + Drop, wanted: &str) {
    let text = format!(in rt.alloc(); "{value}").expect(rt, "no memory");
    same(rt, text.as_str(), wanted);
}

/// The copy of a value.
pub fn copy_of<T: Clone>(rt: &impl Abort, value: &T) -> T {
    value.clone().expect(rt, "no memory")
}

/// Asserts that the value is true.
pub fn holds(rt: &impl Abort, value: bool) {
    assert!(rt; value);
}
