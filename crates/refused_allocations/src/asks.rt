//! The calls of runs.
use crate::words::{ENDED, spelling};
use intaglio::{Call, Mark};
use std::alloc::{AllocError, Global};
use tests::support::kinds::TestContent;
use tests::support::tables::{Make, Update};

/// A call. A table holds the first words, and the next word is the one after them.
#[derive(Clone, Copy)]
pub enum Ask {
    /// `intern` of the next word, owned.
    Intern,
    /// `intern` of the next word, borrowed.
    Lend,
    /// `intern` of the first word, owned, which is held.
    InternAgain,
    /// `intern_all` of this many words into an empty table.
    InternAll(usize),
    /// `GetInterned` of each word in turn, by `run`.
    GetInterned,
    /// `get_or_intern` of the next word.
    GetOrIntern,
    /// `get_or_intern` of the first word, which is held.
    Again,
    /// `insert_full` of the next word.
    InsertFull,
    /// `get_or_intern_all` of the words that are held and of this many more.
    GetOrInternAll(usize),
    /// `check_all` of all words.
    CheckAll,
    /// `from_slice` of all words, which makes another table.
    FromSlice,
    /// A constructor, which makes another table, of this capacity.
    Make(Make, usize),
    /// A constructor that is refused for a size.
    TooLarge(Make),
    /// `reserve` of more than any table holds.
    ReserveTooMuch,
    /// A run of no calls.
    RunNothing,
    /// `capacity`.
    Capacity(usize),
    /// A call without a string.
    Update(Update),
    /// `freeze`.
    Freeze,
    /// `CString::new` of bytes without spare capacity, so that the final zero makes them grow.
    CString,
    /// No call: from here on nothing is allocated.
    NoMemory,
}

impl Ask {
    /// The name that is printed for the call. Std's own shrink of a list doesn't report a failed
    /// allocation, and the list then keeps its capacity, so no call reports it if the last request of a
    /// shrink is refused.
    pub fn name(self) -> &'static str {
        match self {
            Ask::Intern | Ask::Lend | Ask::InternAgain => "intern",
            Ask::InternAll(_) => "intern_all",
            Ask::GetInterned => "get_interned",
            Ask::GetOrIntern | Ask::Again => "get_or_intern",
            Ask::InsertFull => "insert_full",
            Ask::GetOrInternAll(_) => "get_or_intern_all",
            Ask::CheckAll => "check_all",
            Ask::FromSlice => "from_slice",
            Ask::Make(_, _) | Ask::TooLarge(_) => "make",
            Ask::RunNothing => "run",
            Ask::Capacity(_) => "capacity",
            Ask::ReserveTooMuch | Ask::Update(Update::Reserve(_) | Update::TryReserve(_)) =>
                "reserve",
            Ask::Update(Update::ShrinkTo(_) | Update::ShrinkToFit) => "shrink",
            Ask::Update(Update::Clear) => "clear",
            Ask::Update(Update::TakeBack(_)) => "take_back",
            Ask::Update(Update::ReserveBytes(_)) => "reserve_bytes",
            Ask::Freeze => "freeze",
            Ask::CString => "c_string",
            Ask::NoMemory => "none",
        }
    }

    /// How many words are held after the call.
    pub fn held_after(self, held: usize) -> usize {
        match self {
            Ask::Intern | Ask::Lend | Ask::GetOrIntern | Ask::InsertFull => held.saturating_add(1),
            Ask::GetOrInternAll(more) => held.saturating_add(more),
            Ask::InternAll(count) => count,
            Ask::Update(Update::Clear) => 0,
            Ask::Update(Update::TakeBack(count)) => held.min(count),
            _ => held,
        }
    }

    /// The words that the call takes as contents, from a first one on, if it takes any: it is made the
    /// `turn`-th time in a row, on a table that holds so many.
    pub fn words(self, held: usize, turn: usize) -> Option<(usize, usize)> {
        match self {
            Ask::Intern | Ask::Lend => Some((held, 1)),
            Ask::InternAgain => Some((0, 1)),
            Ask::InternAll(count) => Some((0, count)),
            Ask::GetInterned => Some((turn, 1)),
            _ => None,
        }
    }

    /// Makes contents of these words.
    pub fn contents<C: TestContent>(
        self,
        alloc: Global,
        first: usize,
        count: usize,
    ) -> Result<Vec<C>, AllocError> {
        let mut contents = Vec::with_capacity(alloc, count)?;
        for number in first..first.saturating_add(count) {
            let content = match self {
                Ask::Lend => C::borrowed(ENDED.get(number).copied().unwrap_or("")),
                _ => C::owned(alloc, spelling(number)),
            };
            contents.push(content.ok_or(AllocError)?)?;
        }
        Ok(contents)
    }

    /// The same call for a run, with this content.
    pub fn call<C: Drop>(self, content: Option<C>) -> Option<Call<C>> {
        match self {
            Ask::Intern => Some(Call::Intern(content?)),
            Ask::GetInterned => Some(Call::GetInterned(content?)),
            Ask::Update(Update::Reserve(additional)) => Some(Call::Reserve(additional)),
            Ask::Update(Update::ShrinkTo(capacity)) => Some(Call::ShrinkTo(capacity)),
            Ask::Update(Update::ShrinkToFit) => Some(Call::ShrinkToFit),
            Ask::Update(Update::Clear) => Some(Call::Clear),
            Ask::Update(Update::TakeBack(count)) => Some(Call::TakeBack(Mark::new(count))),
            _ => None,
        }
    }
}
