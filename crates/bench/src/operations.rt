//! What is measured. Each operation returns a sum that shows what it found.
ghost use Rattle.std.specs.Iterator.{IsFinite};
ghost use Rattle.std.specs.Prelude.{◌≡◌, ◌<◌, ◌^◌};

use crate::measure::Sum;
use crate::table::{Searched, WordTable};
use intaglio::{StrContent, Symbol};
use std::alloc::{AllocError, Global};
use std::hash::BuildHasher;

/// How many words a batch has.
const BATCH: usize = 64;

// What a symbol adds to a sum: its number, plus 1. None adds nothing.
fn number_of(found: Option<Symbol>) -> u64 {
    match found {
        Some(symbol) => symbol.id() as u64 + 1,
        None => 0,
    }
}

// What the symbols of a batch add to a sum.
fn numbers_of(symbols: Vec<Symbol>) -> u64 {
    let mut sum = 0u64;
    for symbol in symbols {
        sum = sum.wrapping_add(number_of(Some(symbol)));
    }
    sum
}

/// Hashes the words, and adds up their hashes.
#[inline(never)]
pub fn hash<S: BuildHasher>(builder: &S, words: &[String]) -> u64 {
    let mut sum = 0u64;
    for word in words {
        sum = sum.wrapping_add(builder.hash_one(word.as_str()));
    }
    sum
}

/// Interns the words, and adds up the numbers of their symbols, plus 1 for each.
#[inline(never)]
pub fn intern<T: WordTable>(table: &mut T, words: Vec<String>) -> u64 {
    let mut sum = 0u64;
    for word in words {
        sum = sum.wrapping_add(number_of(table.intern_word(word).ok()));
    }
    sum
}

/// The words as contents.
pub fn contents_of(alloc: Global, words: Vec<String>) -> Result<Vec<StrContent>, AllocError> {
    words.into_iter().map(StrContent::from).collect(alloc)
}

/// The contents as forms.
pub fn forms(alloc: Global, words: &[StrContent]) -> Result<Vec<&str>, AllocError> {
    words.iter().map(|word| word.form()).collect(alloc)
}

/// The words in batches.
pub fn batches_of(
    alloc: Global,
    words: Vec<StrContent>,
) -> Result<Vec<Vec<StrContent>>, AllocError> {
    let mut batches = Vec::new(alloc);
    let mut batch = Vec::with_capacity(alloc, BATCH)?;
    for word in words {
        batch.push(word)?;
        if batch.len() == BATCH {
            batches.push(batch)?;
            batch = Vec::with_capacity(alloc, BATCH)?;
        }
    }
    batches.push(batch)?;
    Ok(batches)
}

/// Interns batches of words, and adds up the numbers of their symbols, plus 1 for each.
#[inline(never)]
pub fn intern_batches<T: WordTable>(
    alloc: Global,
    table: &mut T,
    batches: Vec<Vec<StrContent>>,
) -> Sum {
    let mut sum = 0u64;
    for batch in batches {
        sum = sum.wrapping_add(numbers_of(table.intern_words(alloc, batch)?));
    }
    Ok(sum)
}

/// Interns the words by their borrowed forms, and adds up the numbers of their symbols, plus 1 for each.
#[inline(never)]
pub fn get_or_intern<T: WordTable>(table: &mut T, words: &[String]) -> u64 {
    let mut sum = 0u64;
    for word in words {
        sum = sum.wrapping_add(number_of(table.intern_form(word.as_str()).ok()));
    }
    sum
}

/// The same in batches.
#[inline(never)]
pub fn get_or_intern_batches<T: WordTable>(table: &mut T, words: &[&str]) -> Sum {
    let mut sum = 0u64;
    for batch in words.chunks(BATCH) {
        sum = sum.wrapping_add(numbers_of(table.intern_forms(batch)?));
    }
    Ok(sum)
}

/// Looks up the words in batches, and adds up the numbers of the symbols found, plus 1 for each.
#[inline(never)]
pub fn look_up_batches<T: WordTable>(table: &T, words: &[&str]) -> Sum {
    let mut sum = 0u64;
    for batch in words.chunks(BATCH) {
        for found in table.find_all(batch)? {
            sum = sum.wrapping_add(number_of(found));
        }
    }
    Ok(sum)
}

/// Looks up the words, and adds up the numbers of the symbols found, plus 1 for each.
#[inline(never)]
pub fn look_up<T: Searched>(table: &T, words: &[String]) -> u64 {
    let mut sum = 0u64;
    for word in words {
        sum = sum.wrapping_add(number_of(table.find(word.as_str())));
    }
    sum
}

/// Adds up the lengths of the texts of these symbols.
#[inline(never)]
pub fn get<T: Searched>(table: &T, numbers: &[u32]) -> u64 {
    let mut sum = 0u64;
    for number in numbers {
        if let Some(bytes) = table.bytes(Symbol::new(*number)) {
            sum = sum.wrapping_add(bytes.len() as u64);
        }
    }
    sum
}

/// Adds up the first bytes of the texts of these symbols.
#[inline(never)]
pub fn read<T: Searched>(table: &T, numbers: &[u32]) -> u64 {
    let mut sum = 0u64;
    for number in numbers {
        if let Some([byte, ..]) = table.bytes(Symbol::new(*number)) {
            sum = sum.wrapping_add(*byte as u64);
        }
    }
    sum
}

/// Adds up the numbers of all symbols and the lengths of all texts.
#[inline(never)]
pub fn iterate<T: WordTable>(table: &T) -> u64 {
    table.sum()
}

/// The numbers of symbols and the lengths of their texts, added up.
#[inline(always)]
pub fn sum_of<'a, Pairs: Iterator<Item = (Symbol, &'a str)> + Drop>(pairs: Pairs) -> u64
    requires { Pairs.Iterator.can_next pairs × IsFinite (Pairs.Iterator.remaining pairs) }
{
    let mut sum = 0u64;
    for (symbol, text) in pairs {
        sum = sum.wrapping_add(symbol.id() as u64);
        sum = sum.wrapping_add(text.len() as u64);
    }
    sum
}

/// Drops all texts, and returns how many are left.
#[inline(never)]
pub fn clear<T: WordTable>(table: &mut T) -> u64
    ensures dropped { T.count table.new ≡ 0 }
    ensures none_left { result ≡ 0 }
{
    table.clear();
    table.len() as u64
}
