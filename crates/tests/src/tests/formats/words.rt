//! Lists of strings.
use crate::support::kinds::Host;

/// The words of a text, as bytes.
pub fn words_of(rt: &impl Host, text: &'static str) -> Vec<&'static [u8]> {
    let words = text.split_whitespace().map(str::as_bytes);
    words.collect::<Vec<&[u8]>>(rt.alloc()).expect(rt, "memory")
}
