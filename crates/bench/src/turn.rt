//! One turn: each operation once, on a table that is empty at the start.

use crate::measure::Bench;
use crate::operations::{
    batches_of, clear, contents_of, forms, get, get_or_intern, get_or_intern_batches, intern,
    intern_batches, iterate, look_up, look_up_batches, read,
};
use crate::plan::{Calls, Task};
use crate::table::WordTable;
use anyhow::Result;
use intaglio::StrContent;
use std::rt::Clock;

impl<R: Print + Input + Clock + AllocGlobal> Bench<'_, R> {
    /// Does with the table what the plan says.
    pub fn turn<T: WordTable>(&self, table: &mut T) -> Result<()> {
        match (self.plan.task, self.plan.calls) {
            (Task::Hold, _) => self.hold(table),
            (Task::Copy, _) => self.copy(table),
            (_, Calls::Single) => self.single_calls(table),
            (_, Calls::Batch) => self.batches(table),
            (_, Calls::Both) => {
                self.single_calls(table)?;
                table.clear();
                self.batches(table)
            }
        }
    }

    fn single_calls<T: WordTable>(&self, table: &mut T) -> Result<()> {
        let shuffled = self.shuffled_numbers()?;
        let fresh = self.first_words()?;
        self.measure("new", || Ok(intern(table, fresh)))?;
        let known = self.words(&shuffled)?;
        self.call_on_known(table, known)?;
        let absent = self.other_words()?;
        self.measure("miss", || Ok(look_up(table, &absent)))?;
        self.read_and_clear(table, &shuffled)?;
        self.measure("refill", || Ok(intern(table, absent)))
    }

    // The single calls on words that are there.
    fn call_on_known<T: WordTable>(&self, table: &mut T, known: Vec<String>) -> Result<()> {
        self.measure("hit", || Ok(look_up(table, &known)))?;
        self.measure("borrowed", || Ok(get_or_intern(table, &known)))?;
        self.measure("again", || Ok(intern(table, known)))
    }

    // What is read by symbols and by iterators, and a clear.
    fn read_and_clear<T: WordTable>(&self, table: &mut T, numbers: &[u32]) -> Result<()> {
        self.measure("get", || Ok(get(table, numbers)))?;
        self.measure("read", || Ok(read(table, numbers)))?;
        self.measure("iterate", || Ok(iterate(table)))?;
        self.measure("clear", || Ok(clear(table)))
    }

    // The same operations in batches, as far as there is a call that takes a batch. The lists of the batches
    // are made before the clock starts, as the words are.
    fn batches<T: WordTable>(&self, table: &mut T) -> Result<()> {
        self.intern_batches(
            table,
            "new",
            contents_of(self.rt.alloc(), self.first_words()?)?,
        )?;
        let known = contents_of(self.rt.alloc(), self.words(&self.shuffled_numbers()?)?)?;
        self.look_up_batches(table, "hit", &known)?;
        self.get_or_intern_batches(table, &known)?;
        self.intern_batches(table, "again", known)?;
        let absent = contents_of(self.rt.alloc(), self.other_words()?)?;
        self.look_up_batches(table, "miss", &absent)?;
        table.clear();
        self.intern_batches(table, "refill", absent)
    }

    fn get_or_intern_batches<T: WordTable>(
        &self,
        table: &mut T,
        words: &[StrContent],
    ) -> Result<()> {
        let words = forms(self.rt.alloc(), words)?;
        self.measure("borrowed", || get_or_intern_batches(table, &words))
    }

    fn look_up_batches<T: WordTable>(
        &self,
        table: &T,
        name: &str,
        words: &[StrContent],
    ) -> Result<()> {
        let words = forms(self.rt.alloc(), words)?;
        self.measure(name, || look_up_batches(table, &words))
    }

    // Interns owned words in batches.
    fn intern_batches<T: WordTable>(
        &self,
        table: &mut T,
        name: &str,
        words: Vec<StrContent>,
    ) -> Result<()> {
        let batches = batches_of(self.rt.alloc(), words)?;
        self.measure(name, || intern_batches(self.rt.alloc(), table, batches))
    }

    // New words, interned by their borrowed forms.
    fn copy<T: WordTable>(&self, table: &mut T) -> Result<()> {
        let fresh = self.first_words()?;
        self.measure("copied", || Ok(get_or_intern(table, &fresh)))
    }

    // Fills the table with words made one at a time, prints the number of texts and of their bytes, and
    // returns when the input ends: the table's memory can be measured while it waits.
    fn hold<T: WordTable>(&self, table: &mut T) -> Result<()> {
        let mut bytes = 0u64;
        for number in 0..self.plan.size {
            let text = self.plan.source.word(self.rt.alloc(), number)?;
            bytes = bytes.wrapping_add(text.len() as u64);
            table.intern_word(text)?;
        }
        let count = table.len();
        println!(self.rt; "held {count} {bytes}")?;
        self.wait_for_end()
    }

    // Returns when the input ends.
    fn wait_for_end(&self) -> Result<()> {
        for line in self.rt.lines(self.rt.alloc()) {
            let _ = line?;
        }
        Ok(())
    }
}
