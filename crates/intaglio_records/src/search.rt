//! Searches by a hash.
ghost use Rattle.std.specs.Prelude.{◌≡◌, ◌≢◌, ◌<◌, IfSome};
ghost use Rattle.intaglio_records.specs.Search.{IsSearch, LeavesAll, GivesNext, most_left};

use crate::line::Line;

/// The slots of the entries that may have a hash: of those of its class and its tag, each once.
#[derive(Drop)]
pub struct Candidates<'a> {
    pub(crate) lines: &'a [Line],
    // The line that is read, and a bit for each of its entries that is still to come.
    pub(crate) line: usize,
    pub(crate) equal: u64,
    // The next line of the chain, or 0.
    pub(crate) next: usize,
    pub(crate) tag: u8,
}

impl<'a> Candidates<'a> {
    /// The next slot.
    #[inline(always)]
    pub fn next(&mut self) -> Option<u32>
        requires { IsSearch self.old }
        ensures gives { GivesNext self.old result self.new }
        ensures search { IsSearch self.new }
        ensures fewer { IfSome result (λ _. most_left self.new < most_left self.old) }
    {
        while self.equal == 0 {
            if self.next == 0 {
                return None;
            }
            self.advance();
        }
        let i = self.equal.trailing_zeros();
        self.equal &= !(1 << i);
        Some(self.lines[self.line].slot(i as usize))
    }

    // Goes to the next line.
    #[inline(always)]
    fn advance(&mut self)
        requires search { IsSearch self.old }
        requires done { self.old.equal ≡ 0 }
        requires more { self.old.next ≢ 0 }
        ensures left { LeavesAll self.old self.new }
        ensures older { self.new.next < self.old.next }
    {
        let line = &self.lines[self.next];
        self.line = self.next;
        self.equal = line.equal(self.tag);
        self.next = line.next() as usize;
    }
}
