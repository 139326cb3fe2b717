//! Which bytes `CStr` and `CString` accept, and the errors for the others.
use crate::support::kinds::Host;
use crate::tests::assertions::{holds, prints};
use intaglio::cstr::{CStr, CStrError, CString, CStringError};
use std::alloc::{AllocError, Global};

const MISSING: Result<&[u8], CStrError> = Err(CStrError::MissingZero);

fn reads(bytes: &[u8], wanted: Result<&[u8], CStrError>) -> bool {
    match CStr::from_bytes_with_nul(bytes) {
        Ok(found) => wanted == Ok(found.to_bytes()) && found.to_bytes_with_nul() == bytes,
        Err(error) => wanted == Err(error),
    }
}

fn takes(alloc: Global, bytes: &[u8], wanted: Result<&[u8], CStrError>) -> bool {
    let Ok(owned) = bytes.to_vec(alloc) else {
        return false;
    };
    match CString::from_vec_with_nul(owned) {
        Ok(found) => wanted == Ok(found.as_c_str().to_bytes()),
        Err(error) => wanted == Err(error),
    }
}

fn makes(alloc: Global, bytes: &[u8], wanted: Result<&[u8], usize>) -> bool {
    let Ok(owned) = bytes.to_vec(alloc) else {
        return false;
    };
    match CString::new(alloc, owned) {
        Ok(found) => wanted == Ok(found.as_c_str().to_bytes_with_nul()),
        Err(CStringError::InnerZero(place)) => wanted == Err(place),
        Err(CStringError::Memory(_)) => false,
    }
}

// Asserts what `from_bytes_with_nul` and `from_vec_with_nul` return, the spelling, and what `new` returns:
// the bytes with the final zero, or the position of the first one.
fn agrees(
    rt: &impl Host,
    bytes: &[u8],
    read: Result<&[u8], CStrError>,
    made: Result<&[u8], usize>,
) {
    holds(rt, reads(bytes, read));
    holds(rt, takes(rt.alloc(), bytes, read));
    holds(rt, makes(rt.alloc(), bytes, made));
}

// Bytes, what `from_bytes_with_nul` returns, and what `new` does.
type Vector = (
    &'static [u8],
    Result<&'static [u8], CStrError>,
    Result<&'static [u8], usize>,
);

static VECTORS: [Vector; 8] = [
    (b"", MISSING, Ok(b"\x00")),
    (b"\x00", Ok(b""), Err(0)),
    (b"a", MISSING, Ok(b"a\x00")),
    (b"a\x00", Ok(b"a"), Err(1)),
    (b"a\x00b", Err(CStrError::InnerZero(1)), Err(1)),
    (b"a\x00b\x00", Err(CStrError::InnerZero(1)), Err(1)),
    (b"\x00\x00", Err(CStrError::InnerZero(0)), Err(0)),
    (b"\xff\x00", Ok(b"\xff"), Err(1)),
];

#[test]
fn constructors_agree_with_the_vectors(rt: HostRuntime) {
    for (bytes, read, made) in VECTORS {
        agrees(&rt, bytes, read, made);
    }
    holds(&rt, reads(b"abc", MISSING));
}

#[test]
fn errors_print_what_is_wrong(rt: HostRuntime) {
    prints(&rt, CStrError::MissingZero, "no ending zero byte");
    prints(&rt, CStrError::InnerZero(10), "zero byte at place 10");
    prints(&rt, CStringError::InnerZero(0), "zero byte at place 0");
    let refused = CStringError::Memory(AllocError);
    prints(&rt, refused, "out of memory");
}
