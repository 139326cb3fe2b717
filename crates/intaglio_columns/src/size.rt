//! How large the strings of a dictionary are.
ghost use Rattle.std.specs.Prelude.{◌≡◌, ◌-◌, ◌^◌, length, min};
ghost use Rattle.intaglio_columns.specs.Answers.{longest, total};

use crate::dictionary::WholeDictionary;
use intaglio_symbol::Symbol;

/// How large the strings of a dictionary are.
#[derive(Debug, Clone, Copy, PartialEq, Eq)]
pub struct Size {
    /// How many strings there are.
    pub count: u64,
    /// How many bytes they have together, or `u64::MAX` if there are more.
    pub bytes: u64,
    /// How many bytes the longest has, or 0 if there is none.
    pub longest: u64,
}

/// The sizes of all strings. Each is looked at once.
pub fn size_of_strings<D: WholeDictionary>(table: &D) -> Size
    ensures count { result.count ≡ length (D.strings table.now) }
    ensures bytes { result.bytes ≡ min (total (D.strings table.now)) (2 ^ 64 - 1) }
    ensures longest { result.longest ≡ longest (D.strings table.now) }
{
    let mut size = Size {
        count: table.len() as u64,
        bytes: 0,
        longest: 0,
    };
    for number in 0..table.len() {
        let string = table.string_of(Symbol::new(number as u32)).unwrap();
        size.bytes = size.bytes.saturating_add(string.len() as u64);
        size.longest = size.longest.max(string.len() as u64);
    }
    size
}
