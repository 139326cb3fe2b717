//! How far `freeze` and `merge` are, on standard error.
use crate::io::report::{Tell, say};
use intaglio_columns::progress::Progress;

/// Shows each stage that is reached, if that is asked for. A line that can't be written is lost.
#[derive(Drop)]
pub struct Shown<'a, R> {
    rt: &'a R,
    is_asked_for: bool,
    /// How many distinct lines or strings were reported last.
    pub distinct: usize,
}

impl<'a, R: Tell> Shown<'a, R> {
    /// Nothing was shown yet.
    pub fn new(rt: &'a R, is_asked_for: bool) -> Shown<'a, R> {
        Shown {
            rt,
            is_asked_for,
            distinct: 0,
        }
    }

    /// Shows a stage by a count.
    pub fn stage(&mut self, count: usize, what: &str) {
        if self.is_asked_for {
            say(self.rt, format_args!("{count} {what}"));
        }
    }
}

impl<R: Tell> Progress for Shown<'_, R> {
    fn interned(&mut self, count: usize) {
        self.distinct = count;
        self.stage(count, "distinct lines");
    }

    fn frozen(&mut self, size: usize) {
        self.stage(size, "bytes frozen");
    }
}
