//! Counts of words, each at its word's symbol.
ghost use Rattle.std.specs.Prelude.{◌≡◌, length, IfOk, OnErr};
ghost use Rattle.example_records.specs.Counts.{KeepsOthers, count_in, one_more};

use intaglio::{SymbolTable, TableError};

/// How often the word was counted.
pub fn count_of(texts: &SymbolTable, counts: &[u64], word: &str) -> u64
    ensures { result ≡ count_in texts.now.state.contents counts.now word.now }
{
    match texts.check_interned(word) {
        Some(symbol) => *counts.get(symbol.id() as usize).unwrap_or(&0),
        None => 0,
    }
}

/// Counts the word once more, or for the first time. The greatest count stays.
///
/// # Errors
///
/// If an allocation fails, or there are more than 2^32 distinct words. Then the counts are as before.
pub fn count_word(
    texts: &mut SymbolTable,
    counts: &mut Vec<u64>,
    word: &str,
) -> Result<(), TableError>
    requires beside { length counts.old.items ≡ length texts.old.state.contents }
    ensures beside { length counts.new.items ≡ length texts.new.state.contents }
    ensures counted { let count = count_in texts.old.state.contents counts.old.items word.now in
        IfOk result (λ _. count_in texts.new.state.contents counts.new.items word.now ≡ one_more count) }
    ensures refused { let count = count_in texts.old.state.contents counts.old.items word.now in
        OnErr result (count_in texts.new.state.contents counts.new.items word.now ≡ count) }
    ensures others { let before = count_in texts.old.state.contents counts.old.items in
        KeepsOthers before word.now (count_in texts.new.state.contents counts.new.items) }
{
    // Reserved first: once a new word is interned, its count is pushed without fail.
    counts.reserve(1)?;
    let symbol = texts.get_or_intern(word)?;
    let i = symbol.id() as usize;
    if i < counts.len() {
        counts[i] = u64::saturating_add(counts[i], 1);
    } else {
        counts.push(1).unwrap();
    }
    Ok(())
}

/// Counts each word of the text.
///
/// # Errors
///
/// Those of [`count_word`]. Then the words before the failed one are counted.
pub fn count_words(
    texts: &mut SymbolTable,
    counts: &mut Vec<u64>,
    text: &str,
) -> Result<(), TableError>
    requires beside { length counts.old.items ≡ length texts.old.state.contents }
    ensures beside { length counts.new.items ≡ length texts.new.state.contents }
{
    for word in text.split_whitespace() {
        count_word(texts, counts, word)?;
    }
    Ok(())
}
