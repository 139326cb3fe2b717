//! Prints the words of a text with their counts.
ghost use Rattle.std.specs.Prelude.{◌≡◌, length};

use crate::words::{count_of, count_word, count_words};
use anyhow::Result;
use intaglio::{SymbolTable, TableError};

const TEXT: &str = "to be or not to be\nthat is the question\n";

fn print_count(rt: &impl Print, word: &str, count: u64) -> Result<()> {
    println!(rt; "{count} {word}")?;
    Ok(())
}

fn print_counts(rt: &impl Print, texts: &SymbolTable, counts: &[u64]) -> Result<()> {
    for (text, count) in texts.strings().zip(counts) {
        print_count(rt, text, *count)?;
    }
    Ok(())
}

/// Prints each word of the text with its count, in the order in which they first occur, and one that is
/// counted once more.
pub fn print_words(rt: &(impl Print + AllocGlobal)) -> Result<()> {
    let mut texts = SymbolTable::new(rt.alloc())?;
    let mut counts = Vec::new(rt.alloc());
    count_words(&mut texts, &mut counts, TEXT)?;
    print_counts(rt, &texts, &counts)?;

    let more = count_once_more(&mut texts, &mut counts)?;
    print_count(rt, "be", more)
}

// Counts `be` once more, and returns its count.
fn count_once_more(texts: &mut SymbolTable, counts: &mut Vec<u64>) -> Result<u64, TableError>
    requires beside { length counts.old.items ≡ length texts.old.state.contents }
{
    let be = count_of(texts, counts, "be");
    let not = count_of(texts, counts, "not");
    count_word(texts, counts, "be")?;
    let more = count_of(texts, counts, "be");
    let same = count_of(texts, counts, "not");
    prove!(more == u64::saturating_add(be, 1));
    prove!(same == not);
    Ok(more)
}
