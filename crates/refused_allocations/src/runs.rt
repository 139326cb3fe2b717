//! The runs: how each makes its table, and its calls.
use crate::asks::Ask;
use tests::support::tables::{Make, Update};

/// Calls, each with how often it is made.
pub type Calls<'r> = &'r [(Ask, usize)];

/// A run: its name, how the table is made, whether each call is made by a `run` of it alone, which copies
/// spellings too, and the calls in parts.
pub type Run<'r> = (&'r str, Make, bool, &'r [Calls<'r>]);

/// All runs. The run `quiet` is for tables in one buffer.
pub static RUNS: [Run<'static>; 12] = [
    ("calls", Make::Exact(0), false, &[&FILL, &REST]),
    ("cut", Make::Exact(0), false, &[&FILL, &CUT, &REST]),
    ("replies", Make::Exact(0), true, &[&FILL, &LOOK_UPS, &REST]),
    (
        "cut_replies",
        Make::Exact(0),
        true,
        &[&FILL, &LOOK_UPS, &CUT, &REST],
    ),
    ("making", Make::Exact(0), false, &[&MAKING, &C_STRING]),
    ("forms", Make::Exact(0), false, &[&MAKING, &FORMS]),
    ("no_memory", Make::Exact(0), false, &[&NO_MEMORY, &SIZES]),
    ("quiet", Make::Exact(0), false, &[&QUIET, &SIZES]),
    ("first", Make::Rounded(0), false, &[&FIRST]),
    ("room", Make::Rounded(1), false, &[&ROOM]),
    ("known", Make::New, false, &[&KNOWN]),
    ("equal", Make::Usual, false, &[&EQUAL]),
];

// One more than the most contents that a table can hold.
const TOO_MANY: usize = 4294967297;

const FILL: [(Ask, usize); 1] = [(Ask::Intern, 20)];

const LOOK_UPS: [(Ask, usize); 1] = [(Ask::GetInterned, 20)];

const CUT: [(Ask, usize); 1] = [(Ask::Update(Update::TakeBack(10)), 1)];

const REST: [(Ask, usize); 6] = [
    (Ask::Update(Update::Reserve(40)), 1),
    (Ask::Intern, 20),
    (Ask::Update(Update::ShrinkTo(41)), 1),
    (Ask::Update(Update::ShrinkToFit), 1),
    (Ask::Update(Update::Clear), 1),
    (Ask::Intern, 5),
];

const MAKING: [(Ask, usize); 4] = [
    (Ask::Make(Make::New, 4096), 1),
    (Ask::Make(Make::Rounded(5), 8), 1),
    (Ask::Make(Make::Usual, 4096), 1),
    (Ask::Make(Make::Exact(10), 10), 1),
];

const C_STRING: [(Ask, usize); 1] = [(Ask::CString, 1)];

const FORMS: [(Ask, usize); 17] = [
    (Ask::FromSlice, 1),
    (Ask::GetOrIntern, 6),
    (Ask::InsertFull, 6),
    (Ask::CheckAll, 1),
    (Ask::GetOrInternAll(8), 1),
    (Ask::Update(Update::Reserve(40)), 1),
    (Ask::Update(Update::ReserveBytes(200)), 1),
    (Ask::GetOrInternAll(6), 1),
    (Ask::Freeze, 1),
    (Ask::Update(Update::ShrinkTo(27)), 1),
    (Ask::Update(Update::ShrinkToFit), 1),
    (Ask::InsertFull, 2),
    (Ask::Update(Update::TakeBack(10)), 1),
    (Ask::GetOrInternAll(10), 1),
    (Ask::Update(Update::Clear), 1),
    (Ask::InternAll(3), 1),
    (Ask::Intern, 1),
];

const NO_MEMORY: [(Ask, usize); 8] = [
    (Ask::Intern, 5),
    (Ask::Update(Update::Reserve(10)), 1),
    (Ask::NoMemory, 1),
    (Ask::Intern, 10),
    (Ask::Update(Update::TakeBack(4)), 1),
    (Ask::Intern, 3),
    (Ask::Update(Update::Clear), 1),
    (Ask::Intern, 15),
];

const SIZES: [(Ask, usize); 11] = [
    (Ask::Update(Update::Reserve(0)), 1),
    (Ask::Make(Make::Rounded(0), 0), 1),
    (Ask::Make(Make::Exact(0), 0), 1),
    (Ask::Make(Make::Limited(1), 0), 1),
    (Ask::Make(Make::Limited(TOO_MANY - 1), 0), 1),
    (Ask::TooLarge(Make::Rounded(TOO_MANY)), 1),
    (Ask::TooLarge(Make::Exact(TOO_MANY)), 1),
    (Ask::TooLarge(Make::Limited(TOO_MANY)), 1),
    (Ask::TooLarge(Make::Limited(0)), 1),
    (Ask::ReserveTooMuch, 1),
    (Ask::RunNothing, 1),
];

const QUIET: [(Ask, usize); 11] = [
    (Ask::GetOrIntern, 3),
    (Ask::Update(Update::Reserve(20)), 1),
    (Ask::Update(Update::ReserveBytes(100)), 1),
    (Ask::NoMemory, 1),
    (Ask::GetOrIntern, 5),
    (Ask::InsertFull, 5),
    (Ask::Again, 1),
    (Ask::Update(Update::TakeBack(4)), 1),
    (Ask::Update(Update::ReserveBytes(10)), 1),
    (Ask::Update(Update::Clear), 1),
    (Ask::Intern, 1),
];

// Rows for texts: an interning that is refused, ten words in room that was made, a
// word that is held, and a rollback where all hashes are equal.
const FIRST: [(Ask, usize); 1] = [(Ask::Lend, 1)];

const ROOM: [(Ask, usize); 4] = [
    (Ask::Lend, 1),
    (Ask::Update(Update::Reserve(10)), 1),
    (Ask::NoMemory, 1),
    (Ask::Lend, 10),
];

const KNOWN: [(Ask, usize); 3] = [(Ask::Lend, 1), (Ask::NoMemory, 1), (Ask::InternAgain, 1)];

const EQUAL: [(Ask, usize); 4] = [
    (Ask::Lend, 10),
    (Ask::NoMemory, 1),
    (Ask::Update(Update::TakeBack(4)), 1),
    (Ask::Capacity(4096), 1),
];
