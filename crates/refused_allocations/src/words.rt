//! The strings of a run, made before the table.
use std::alloc::{AllocError, Global};
use tests::support::kinds::OfEnded;

/// How many words there are.
pub const COUNT: usize = 45;

/// The words, each with a zero byte behind it.
pub const ENDED: [&str; COUNT] = [
    "abc\0", "1\0", "2\0", "3\0", "4\0", "5\0", "6\0", "7\0", "8\0", "9\0", "10\0", "11\0", "12\0",
    "13\0", "14\0", "15\0", "16\0", "17\0", "18\0", "19\0", "20\0", "21\0", "22\0", "23\0", "24\0",
    "25\0", "26\0", "27\0", "28\0", "29\0", "30\0", "31\0", "32\0", "33\0", "34\0", "35\0", "36\0",
    "37\0", "38\0", "39\0", "40\0", "41\0", "42\0", "43\0", "44\0",
];

/// The bytes of a word, or none behind the last word.
pub fn spelling(number: usize) -> &'static [u8] {
    let ended = ENDED.get(number).copied().unwrap_or("");
    ended.strip_suffix('\0').unwrap_or("").as_bytes()
}

/// The borrowed forms of all words.
pub fn forms_of<F: OfEnded>(alloc: Global) -> Result<Vec<F>, AllocError> {
    let mut forms = Vec::with_capacity(alloc, COUNT)?;
    for ended in ENDED {
        forms.push(F::of_ended(ended).ok_or(AllocError)?)?;
    }
    Ok(forms)
}
