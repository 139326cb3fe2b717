//! Strings of each kind, made from their spellings.
use bstr::{BStr, BString};
use intaglio::cstr::{CStr, CString};
use intaglio::path::Path;
use intaglio::{ContentOf, KindOwned};
pub use intaglio_bytes::b_str::BStrKind;
pub use intaglio_bytes::bytes::BytesKind;
pub use intaglio_cstr::CStrKind;
pub use intaglio_path::PathKind;
pub use intaglio_text::StrKind;
pub use intaglio_text::osstr::OsStrKind;
use std::alloc::Global;
use std::process::Abort;
use std::str;

/// A runtime of a test.
pub trait Host: Abort + AllocGlobal {}

impl<R: Abort + AllocGlobal> Host for R {}

/// A borrowed string that is made from a text, behind which a zero byte stands.
pub trait OfEnded: Copy + Drop {
    /// The string of the text without the zero byte, which ends a C string.
    fn of_ended(ended: &'static str) -> Option<Self>;
}

impl<'q> OfEnded for &'q str {
    fn of_ended(ended: &'static str) -> Option<&'q str> {
        ended.strip_suffix('\0')
    }
}

impl<'q> OfEnded for &'q [u8] {
    fn of_ended(ended: &'static str) -> Option<&'q [u8]> {
        Some(ended.strip_suffix('\0')?.as_bytes())
    }
}

impl<'q> OfEnded for Path<'q> {
    fn of_ended(ended: &'static str) -> Option<Path<'q>> {
        Some(Path::new(ended.strip_suffix('\0')?))
    }
}

impl<'q> OfEnded for BStr<'q> {
    fn of_ended(ended: &'static str) -> Option<BStr<'q>> {
        Some(BStr::new(ended.strip_suffix('\0')?.as_bytes()))
    }
}

impl<'q> OfEnded for CStr<'q> {
    fn of_ended(ended: &'static str) -> Option<CStr<'q>> {
        CStr::from_bytes_with_nul(ended.as_bytes()).ok()
    }
}

/// An owned string that is made from its spelling.
pub trait OfSpelling: Drop {
    /// The string, if the bytes spell one.
    fn of_spelling(alloc: Global, spelling: &[u8]) -> Option<Self>;
}

impl OfSpelling for String {
    fn of_spelling(alloc: Global, spelling: &[u8]) -> Option<String> {
        str::from_utf8(spelling).ok()?.to_string(alloc).ok()
    }
}

impl OfSpelling for Vec<u8> {
    fn of_spelling(alloc: Global, spelling: &[u8]) -> Option<Vec<u8>> {
        spelling.to_vec(alloc).ok()
    }
}

impl OfSpelling for BString {
    fn of_spelling(alloc: Global, spelling: &[u8]) -> Option<BString> {
        Some(spelling.to_vec(alloc).ok()?.into())
    }
}

impl OfSpelling for CString {
    fn of_spelling(alloc: Global, spelling: &[u8]) -> Option<CString> {
        CString::new(alloc, spelling.to_vec(alloc).ok()?).ok()
    }
}

/// A kind whose strings can be made from any spelling.
pub trait TestKind: KindOwned {
    /// An owned content of this spelling.
    fn owned(alloc: Global, spelling: &[u8]) -> Option<ContentOf<Self>>;

    /// A borrowed content of this text, behind which a zero byte stands.
    fn borrowed(ended: &'static str) -> Option<ContentOf<Self>>;
}

/// A content of such a kind.
pub trait TestContent: Drop {
    /// An owned content of this spelling.
    fn owned(alloc: Global, spelling: &[u8]) -> Option<Self>;

    /// A borrowed content of this text, behind which a zero byte stands.
    fn borrowed(ended: &'static str) -> Option<Self>;
}

impl<K: TestKind> TestContent for ContentOf<K> {
    fn owned(alloc: Global, spelling: &[u8]) -> Option<ContentOf<K>> {
        K::owned(alloc, spelling)
    }

    fn borrowed(ended: &'static str) -> Option<ContentOf<K>> {
        K::borrowed(ended)
    }
}

impl<K: KindOwned<Static: OfEnded, Owned: OfSpelling>> TestKind for K {
    fn owned(alloc: Global, spelling: &[u8]) -> Option<ContentOf<K>> {
        Some(ContentOf::Owned(OfSpelling::of_spelling(alloc, spelling)?))
    }

    fn borrowed(ended: &'static str) -> Option<ContentOf<K>> {
        Some(ContentOf::Borrowed(OfEnded::of_ended(ended)?))
    }
}
