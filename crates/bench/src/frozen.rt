//! Frozen tables, beside the packed tables that they are made of, under the same hash.
use crate::measure::Bench;
use crate::operations::{get, get_or_intern, look_up};
use crate::table::Searched;
use anyhow::Result;
use intaglio::packed::SymbolTable;
use intaglio_frozen::{Frozen, FrozenKind, TrustedFrozen, freeze};
use intaglio_hash::KeyedState;
use std::rt::Clock;
use std::time::Instant;

// The keys of both hashers.
const KEYS: (u64, u64) = (0x0123_4567_89ab_cdef, 0xfedc_ba98_7654_3210);

// What is sought: words that are there and others, both in an order that looks random, and symbols.
#[derive(Drop)]
struct Sought {
    known: Vec<String>,
    absent: Vec<String>,
    symbols: Vec<u32>,
}

impl<R: Print + Clock + AllocGlobal> Bench<'_, R> {
    /// Prints a line for each operation: interning the words in a new packed table, freezing it, opening the
    /// bytes, and the look-ups in the packed table, in the frozen one, and in its trusted bytes.
    pub fn frozen(&self) -> Result<()> {
        let fresh = self.first_words()?;
        let builder = KeyedState::with_keys(KEYS.0, KEYS.1);
        let capacity = self.plan.capacity;
        let mut table = SymbolTable::with_capacity_and_hasher(self.rt.alloc(), capacity, builder)?;
        self.measure("new", || Ok(get_or_intern(&mut table, &fresh)))?;
        self.freeze(&table)
    }

    // Freezes the table.
    fn freeze(&self, table: &SymbolTable<KeyedState>) -> Result<()> {
        let start = Instant::now(self.rt)?;
        let bytes = freeze(self.rt.alloc(), table, FrozenKind::Text, KEYS.0, KEYS.1)?;
        self.report("freeze", start, bytes.len() as u64)?;
        self.open_and_search(table, &bytes)
    }

    // Opens the bytes that the table was frozen to, and searches both.
    fn open_and_search(&self, table: &SymbolTable<KeyedState>, bytes: &[u8]) -> Result<()> {
        let start = Instant::now(self.rt)?;
        let opened = Frozen::open(bytes)?;
        self.report("open", start, opened.len() as u64)?;
        let symbols = self.shuffled_numbers()?;
        let (known, absent) = (self.words(&symbols)?, self.other_words()?);
        let sought = Sought {
            known,
            absent,
            symbols,
        };
        self.search(["packed_hit", "packed_miss", "packed_get"], table, &sought)?;
        self.search(
            ["frozen_hit", "frozen_miss", "frozen_get"],
            &opened,
            &sought,
        )?;
        let trusted = TrustedFrozen::open(bytes)?;
        self.search(
            ["trusted_hit", "trusted_miss", "trusted_get"],
            &trusted,
            &sought,
        )
    }

    fn search<T: Searched>(&self, names: [&str; 3], table: &T, sought: &Sought) -> Result<()> {
        self.measure(names[0], || Ok(look_up(table, &sought.known)))?;
        self.measure(names[1], || Ok(look_up(table, &sought.absent)))?;
        self.measure(names[2], || Ok(get(table, &sought.symbols)))
    }

    /// Prints the words, a line each: those that the tables have, and as many others.
    pub fn print_words(&self) -> Result<()> {
        for number in 0..self.plan.size.saturating_mul(2) {
            let text = self.plan.source.word(self.rt.alloc(), number)?;
            println!(self.rt; "{text}")?;
        }
        Ok(())
    }
}
