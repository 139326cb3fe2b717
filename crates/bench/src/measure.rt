//! What a turn has at hand: its words, and lines about what is measured.

use crate::plan::{Plan, Task};
use crate::words::{numbers, shuffle, words};
use anyhow::Result;
use intaglio::InternError;
use std::alloc::AllocError;
use std::rt::Clock;
use std::time::Instant;

/// What an operation returns: a sum that shows what it found.
pub type Sum = Result<u64, InternError>;

/// The runtime and what is done.
#[derive(Drop)]
pub struct Bench<'a, R> {
    pub rt: &'a R,
    pub plan: Plan<'a>,
}

impl<R: AllocGlobal> Bench<'_, R> {
    /// All words, in the order of their numbers.
    pub fn first_words(&self) -> Result<Vec<String>, AllocError> {
        self.words(&numbers(self.rt.alloc(), 0, self.plan.size)?)
    }

    /// As many words, none of them among the first ones.
    pub fn other_words(&self) -> Result<Vec<String>, AllocError> {
        self.words(&numbers(self.rt.alloc(), self.plan.size, self.plan.size)?)
    }

    /// The numbers of all words, in an order that looks random.
    pub fn shuffled_numbers(&self) -> Result<Vec<u32>, AllocError> {
        let mut shuffled = numbers(self.rt.alloc(), 0, self.plan.size)?;
        shuffle(&mut shuffled);
        Ok(shuffled)
    }

    /// The words of these numbers.
    pub fn words(&self, numbers: &[u32]) -> Result<Vec<String>, AllocError> {
        words(self.rt.alloc(), self.plan.source, numbers)
    }
}

impl<R: Print + Clock> Bench<'_, R> {
    /// Prints a line for an operation: its name, how many words, the nanoseconds for each of them unless the
    /// task is a check, and the operation's sum.
    pub fn measure<F: FnOnce() -> Sum>(&self, name: &str, operation: F) -> Result<()>
        requires { F.IsAlwaysCallable operation }
    {
        let start = Instant::now(self.rt)?;
        let sum = operation()?;
        self.report(name, start, sum)
    }

    /// Prints the line of an operation that has just ended.
    pub fn report(&self, name: &str, start: Instant, sum: u64) -> Result<()> {
        let seconds = start.elapsed(self.rt)?.as_secs_f64();
        let size = self.plan.size;
        if let Task::Check = self.plan.task {
            println!(self.rt; "{name} {size} {sum}")?;
        } else {
            let nanoseconds = seconds * 1e9 / size as f64;
            println!(self.rt; "{name} {size} {nanoseconds:.2} {sum}")?;
        }
        Ok(())
    }
}
