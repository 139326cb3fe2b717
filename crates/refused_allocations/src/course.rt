//! A table, and the list with which its results are compared: the first words, in order.
use crate::asks::Ask;
use crate::fault::{Fault, Told, tell};
use crate::results::{are_found, are_numbered, c_string, is_place, is_refused, opens};
use crate::runs::{Calls, Run};
use crate::words::{COUNT, forms_of, spelling};
use intaglio::{
    BaseInterner, Content, LookedUpIn, Reply, RoomError, SoughtIn, SpelledStore, TableError,
    TableOver,
};
use std::alloc::{AllocError, Global};
use std::marker::PhantomData;
use tests::support::builders::{Counted, HasherCount};
use tests::support::kinds::{OfEnded, TestContent};
use tests::support::tables::{TestStore, TestTable};

/// What a run takes: the borrowed forms of all words, and the contents of each call, twice, since a failed
/// call drops its own. Those of the first call come last.
#[derive(Drop)]
struct Given<F: Drop, C: Drop> {
    forms: Vec<F>,
    contents: Vec<Vec<C>>,
}

impl<F: OfEnded, C: TestContent> Given<F, C> {
    fn make(alloc: Global, parts: &[Calls<'_>]) -> Result<Given<F, C>, AllocError> {
        let mut given = Given {
            forms: forms_of(alloc)?,
            contents: Vec::new(alloc),
        };
        let mut held = 0;
        for calls in parts {
            held = given.add(alloc, calls, held)?;
        }
        given.contents.reverse();
        Ok(given)
    }

    fn add(&mut self, alloc: Global, calls: Calls<'_>, before: usize) -> Result<usize, AllocError> {
        let mut held = before;
        for (ask, times) in calls {
            for turn in 0..*times {
                if let Some((first, count)) = ask.words(held, turn) {
                    self.contents.push(ask.contents(alloc, first, count)?)?;
                    self.contents.push(ask.contents(alloc, first, count)?)?;
                }
                held = ask.held_after(held);
            }
        }
        Ok(held)
    }
}

/// A table with its list, and what was printed so far.
#[derive(Drop)]
pub struct Course<'q, L: TestStore + LookedUpIn<'q>, S: HasherCount>
where
    L::Content: Content + SoughtIn<L> + Drop,
    L::Prepared: Drop,
    TableOver<L, S>: TestTable,
{
    table: TableOver<L, S>,
    given: Given<L::By, <TableOver<L, S> as TestTable>::Item>,
    lifetime: PhantomData<&'q ()>,
    by_run: bool,
    // how many words the table holds
    held: usize,
    calls: u32,
    is_answered: bool,
    // what is wrong, if something is
    fault: Fault,
}

/// Makes a run on a new table, and returns the table. Requests for memory before the first printed call
/// aren't the table's.
pub fn left_by<'q, L: TestStore + SpelledStore + LookedUpIn<'q, By: OfEnded>>(
    rt: &impl Told,
    run: Run<'_>,
) -> Result<TableOver<L, L::Hasher>, Fault>
where
    L::Content: Content + SoughtIn<L> + Drop,
    L::Prepared: Drop,
    TableOver<L, L::Hasher>: TestTable,
{
    let given = Given::make(rt.alloc(), run.3)?;
    tell(rt, "table", 0);
    let made = L::make(rt.alloc(), run.1);
    Course::new(made, given, run.2)?.play(rt, run.3)
}

/// Makes a run under equal hashes.
pub fn watch_equal<'q, L: TestStore + SpelledStore + LookedUpIn<'q, By: OfEnded>>(
    rt: &impl Told,
    run: Run<'_>,
) -> Result<(), Fault>
where
    L::Content: Content + SoughtIn<L> + Drop,
    L::Prepared: Drop,
    TableOver<L, Counted>: TestTable,
{
    let given = Given::make(rt.alloc(), run.3)?;
    tell(rt, "table", 0);
    let made = TableOver::with_hasher(rt.alloc(), Counted::new(Some(7)));
    let _table = Course::new(made, given, run.2)?.play(rt, run.3)?;
    Ok(())
}

impl<'q, L: TestStore + SpelledStore + LookedUpIn<'q, By: OfEnded>, S: HasherCount> Course<'q, L, S>
where
    L::Content: Content + SoughtIn<L> + Drop,
    L::Prepared: Drop,
    TableOver<L, S>: TestTable,
{
    fn new(
        made: Result<TableOver<L, S>, RoomError>,
        given: Given<L::By, <TableOver<L, S> as TestTable>::Item>,
        by_run: bool,
    ) -> Result<Course<'q, L, S>, Fault> {
        Ok(Course {
            table: made.map_err(|_| Fault::Answer(0))?,
            given,
            lifetime: PhantomData,
            by_run,
            held: 0,
            calls: 0,
            is_answered: false,
            fault: Fault::Making,
        })
    }

    // Makes the calls, and returns the table.
    fn play(mut self, rt: &impl Told, parts: &[Calls<'_>]) -> Result<TableOver<L, S>, Fault> {
        for calls in parts {
            if !self.make_calls(rt, calls) {
                return Err(self.fault);
            }
        }
        Ok(self.table)
    }

    fn make_calls(&mut self, rt: &impl Told, calls: Calls<'_>) -> bool {
        for (ask, times) in calls {
            for turn in 0..*times {
                if !self.make(rt, *ask, turn) {
                    return false;
                }
            }
        }
        true
    }

    // Makes a call, and again if it failed for memory.
    fn make(&mut self, rt: &impl Told, ask: Ask, turn: usize) -> bool {
        if matches!(ask, Ask::NoMemory) {
            tell(rt, "none", 0);
            return true;
        }
        let takes = ask.words(0, 0).is_some();
        let (first, again) = if takes {
            (self.given.contents.pop(), self.given.contents.pop())
        } else {
            (None, None)
        };
        let mut answer = self.make_once(rt, ask, turn, first);
        if is_refused(&answer) {
            answer = self.make_once(rt, ask, turn, again);
        }
        self.held = ask.held_after(self.held);
        answer == Ok(true) && self.is_list()
    }

    // After a failure the table is still the list, its capacity isn't lower, and no other call of the run
    // has failed.
    fn make_once(
        &mut self,
        rt: &impl Told,
        ask: Ask,
        turn: usize,
        contents: Option<Vec<<TableOver<L, S> as TestTable>::Item>>,
    ) -> Result<bool, TableError> {
        self.calls = self.calls.saturating_add(1);
        self.fault = Fault::Answer(self.calls);
        let room = self.table.capacity();
        tell(rt, ask.name(), self.calls);
        let answer = if self.by_run {
            self.replied(rt.alloc(), ask, turn, contents)
        } else {
            self.answered(rt.alloc(), ask, contents)
        };
        if is_refused(&answer) {
            tell(rt, "refused", self.calls);
            let was_answered = self.is_answered;
            self.is_answered = true;
            if was_answered {
                self.fault = Fault::Twice(self.calls);
                return Ok(false);
            }
            if !self.is_list() || self.table.capacity() < room {
                self.fault = Fault::State(self.calls);
                return Ok(false);
            }
        }
        answer
    }

    // Whether a run of this call alone has the reply of the list. If the list of calls or that of replies
    // can't be allocated, no call was made.
    fn replied(
        &mut self,
        alloc: Global,
        ask: Ask,
        turn: usize,
        contents: Option<Vec<<TableOver<L, S> as TestTable>::Item>>,
    ) -> Result<bool, TableError> {
        let mut calls = Vec::with_capacity(alloc, 1)?;
        let Some(call) = ask.call(contents.and_then(|mut one| one.pop())) else {
            return Ok(false);
        };
        calls.push_reserved(call);
        let reply = self.table.run(alloc, calls)?.pop();
        match (ask, reply.unwrap_or(Reply::Stale)) {
            (_, Reply::NoMemory) => Err(TableError::from(AllocError)),
            (Ask::Intern, Reply::Symbol(Some(symbol))) => Ok(symbol.id() as usize == self.held),
            (Ask::GetInterned, Reply::Pair(Some((symbol, text)))) => {
                Ok(symbol.id() as usize == turn && text.as_slice() == spelling(turn))
            }
            (Ask::Update(_), Reply::Done) => Ok(true),
            _ => Ok(false),
        }
    }

    // Whether the table's own call returns what the list does.
    fn answered(
        &mut self,
        alloc: Global,
        ask: Ask,
        contents: Option<Vec<<TableOver<L, S> as TestTable>::Item>>,
    ) -> Result<bool, TableError> {
        if let Some(contents) = contents {
            return self.took(alloc, ask, contents);
        }
        match ask {
            Ask::Make(how, capacity) => {
                let table = L::make(alloc, how)?;
                Ok(table.is_empty() && table.capacity() == capacity)
            }
            Ask::TooLarge(how) => {
                Ok(L::make(alloc, how).err() == Some(RoomError::CapacityOverflow))
            }
            Ask::ReserveTooMuch => {
                let refused = self.table.reserve(4294967297).err();
                Ok(refused == Some(RoomError::CapacityOverflow))
            }
            Ask::RunNothing => Ok(self.table.run(alloc, Vec::new(alloc))?.is_empty()),
            Ask::Capacity(wanted) => Ok(self.table.capacity() == wanted),
            Ask::Update(update) => match self.table.update(update) {
                Reply::NoMemory => Err(TableError::from(AllocError)),
                reply => Ok(reply == Reply::Done),
            },
            Ask::Freeze => opens(self.table.freeze(alloc), self.held),
            Ask::CString => c_string(alloc),
            _ => self.took_forms(alloc, ask),
        }
    }

    // The same of a call that takes contents.
    fn took(
        &mut self,
        alloc: Global,
        ask: Ask,
        mut contents: Vec<<TableOver<L, S> as TestTable>::Item>,
    ) -> Result<bool, TableError> {
        if let Ask::InternAll(count) = ask {
            let symbols = self.table.put_all(alloc, contents)?;
            return Ok(are_numbered(&symbols, count));
        }
        let wanted = match ask {
            Ask::InternAgain => 0,
            _ => self.held,
        };
        let content = contents.pop().ok_or(AllocError)?;
        Ok(self.table.put(content)?.id() as usize == wanted)
    }

    // The same of a call that takes borrowed forms.
    fn took_forms(&mut self, alloc: Global, ask: Ask) -> Result<bool, TableError> {
        let (held, forms) = (self.held, &self.given.forms);
        let next = *forms.get(held).ok_or(AllocError)?;
        match ask {
            Ask::GetOrIntern => Ok(self.table.get_or_intern(next)?.id() as usize == held),
            Ask::Again => {
                let first = *forms.first().ok_or(AllocError)?;
                Ok(self.table.get_or_intern(first)?.is(0))
            }
            Ask::InsertFull => {
                let (symbol, is_new) = self.table.insert_full(next)?;
                Ok(is_new && symbol.id() as usize == held)
            }
            Ask::GetOrInternAll(more) => {
                let count = held.saturating_add(more).min(forms.len());
                let symbols = self.table.get_or_intern_all(&forms[..count])?;
                Ok(are_numbered(&symbols, count))
            }
            Ask::CheckAll => Ok(are_found(&self.table.check_all(forms)?, held)),
            Ask::FromSlice => {
                let table = TableOver::<L, _>::from_slice(alloc, L::hasher(), forms)?;
                Ok(table.len() == COUNT)
            }
            _ => Ok(false),
        }
    }

    // Whether the table is the list: its length, where each word is found, and what each symbol leads to.
    fn is_list(&mut self) -> bool {
        let mut is_same = self.table.len() == self.held;
        for (number, form) in self.given.forms.iter().enumerate() {
            is_same = is_same && is_place(self.table.check_interned(*form), number, self.held);
            let stored = self.table.store().spelling_at(number);
            is_same = is_same && is_word(stored, number, self.held);
        }
        if !is_same {
            self.fault = Fault::State(self.calls);
        }
        is_same
    }
}

// Whether that is the word of this number, if the first `held` are stored.
fn is_word(stored: Option<&[u8]>, number: usize, held: usize) -> bool {
    match stored {
        Some(bytes) => number < held && bytes == spelling(number),
        None => number >= held,
    }
}
