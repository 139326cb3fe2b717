//! Scripts whose calls are all made by one call of `run`: on tables of each kind and on a core, by owned
//! contents, and by borrowed texts.
use super::each::{Trial, try_on_each};
use super::printed::reply_text;
use super::script::{Line, agrees, content, parts_of, size, symbol};
use super::table::Makes;
use crate::support::builders::Fold;
use crate::support::kinds::{Host, StrKind, TestContent, TestKind};
use crate::support::tables::Make;
use crate::tests::assertions::same;
use intaglio::packed::Packed;
use intaglio::{
    AddedTo, BaseInterner, Call, ContentOf, Copied, IndexedStore, KindOwned, Mark, Moved, Packable,
    Reply, RoomError, SpelledStore, Table, TableOver, Work, run,
};

const RUNS: &str = "
twelve_calls_have_twelve_replies:
    with_limit 4294967296 > done; intern abc, abc > 0, 0; check xyz > none
    get_interned abc > 0 abc; is_interned xyz > false; contains 1 > false; get 0 > abc; len > 1
    is_empty > false; clear > done; is_empty > true; intern xyz > 0
a_run_answers_as_its_calls:
    with_limit 4294967296 > done; intern abc, abc, xyz > 0, 0, 1; len > 2; clear > done
    intern > 0; intern x > 1; intern > 0; clear > done; intern x > 0; get 1 > none; clear > done
    intern a, b > 0, 1; clear > done; intern c > 0; get 0, 1 > c, none; contains 1 > false
    clear > done; get_interned abc > none; intern abc > 0; get_interned abc > 0 abc
    is_interned abc > true; clear > done; is_empty > true; is_interned abc > false
room_and_marks_in_a_run:
    with_limit 4294967296 > done; reserve 5000 > done; intern a, b > 0, 1; take_back 3 > stale mark
    take_back 1 > done; check b > none; shrink_to 3 > done; shrink_to_fit > done
    reserve 4294967296 > capacity overflow; len > 1
a_refused_content_is_a_reply:
    with_limit 2 > done; intern a, b, c, a > 0, 1, Symbol overflow, 0; len > 2
equal_patterns_are_issued_equal_symbols:
    with_limit 4294967296 > done; intern a, b, a > 0, 1, 0
    with_limit 4294967296 > done; intern a, b, b > 0, 1, 1
";

// Runs of calls by owned contents.
struct ByContents(&'static str);

impl Trial for ByContents {
    fn try_on<T: Makes, R: Host>(&self, rt: &R) {
        for part in parts_of(rt, self.0) {
            let made = T::make(rt.alloc(), Make::Limited(size(rt, part.first.word)));
            let mut table = made.expect(rt, "no table");
            let replies = table.run(rt.alloc(), by_contents(rt, &part.calls));
            agree(rt, &part.calls, &replies.expect(rt, "memory"));
        }
    }
}

#[test]
fn a_run_on_each_table_answers_as_its_calls(rt: HostRuntime) {
    try_on_each(&rt, &ByContents(RUNS));
}

#[test]
fn a_run_on_a_core_and_by_texts_answers_as_its_calls(rt: HostRuntime) {
    for part in parts_of(&rt, RUNS) {
        let (limit, calls) = (size(&rt, part.first.word), part.calls.as_slice());
        runs_on_a_core::<StrKind>(&rt, limit, calls);
        runs_owned::<StrKind, _>(&rt, limit, by_texts(&rt, calls), calls);
        runs_packed::<StrKind, _>(&rt, limit, by_texts(&rt, calls), calls);
    }
}

fn runs_on_a_core<K: TestKind>(rt: &impl Host, limit: usize, lines: &[Line]) {
    let made = IndexedStore::<Vec<ContentOf<K>>, Fold>::with_limit(rt.alloc(), limit, Fold::new());
    runs::<Moved, _, _>(rt, made, by_contents::<ContentOf<K>>(rt, lines), lines);
}

// By forms, on a table of owned contents.
fn runs_owned<K: KindOwned, Q: Packable<K> + Copy + Drop>(
    rt: &impl Host,
    limit: usize,
    calls: Vec<Call<Q>>,
    lines: &[Line],
) {
    let made = Table::<ContentOf<K>, Fold>::with_limit(rt.alloc(), limit, Fold::new());
    runs::<Copied, _, _>(rt, made, calls, lines);
}

// By forms, on a table in one buffer.
fn runs_packed<K: KindOwned, Q: Packable<K> + Copy + Drop>(
    rt: &impl Host,
    limit: usize,
    calls: Vec<Call<Q>>,
    lines: &[Line],
) {
    let made = TableOver::<Packed<K>, Fold>::with_limit(rt.alloc(), limit, Fold::new());
    runs::<Copied, _, _>(rt, made, calls, lines);
}

// Makes the calls in one run on a new table.
fn runs<H, T: BaseInterner + Drop, Q: AddedTo<T::Store, H>>(
    rt: &impl Host,
    made: Result<T, RoomError>,
    calls: Vec<Call<Q>>,
    lines: &[Line],
)
where
    T::Store: SpelledStore,
{
    let mut table = made.expect(rt, "no table");
    let replies = run::<H, _, _>(rt.alloc(), &mut table, calls, &mut Work::new());
    agree(rt, lines, &replies.expect(rt, "memory"));
}

// Asserts that the replies are those of the lines.
fn agree(rt: &impl Host, lines: &[Line], replies: &[Reply]) {
    same(rt, replies.len(), lines.len());
    for (line, reply) in lines.iter().zip(replies.iter()) {
        agrees(rt, reply_text(rt, reply).as_str(), *line);
    }
}

// The calls of lines, by owned contents.
fn by_contents<C: TestContent>(rt: &impl Host, lines: &[Line]) -> Vec<Call<C>> {
    let mut calls = Vec::new(rt.alloc());
    for line in lines {
        push_call(rt, &mut calls, *line, content(rt, line.word.as_bytes()));
    }
    calls
}

// The calls of lines, by borrowed texts.
fn by_texts(rt: &impl Host, lines: &[Line]) -> Vec<Call<&'static str>> {
    let mut calls = Vec::new(rt.alloc());
    for line in lines {
        push_call(rt, &mut calls, *line, line.word);
    }
    calls
}

// Adds the call of a line, by what stands for its word.
fn push_call<Q: Drop>(rt: &impl Host, calls: &mut Vec<Call<Q>>, line: Line, value: Q) {
    let call = match line.name {
        "intern" => Call::Intern(value),
        "check" => Call::Check(value),
        "get_interned" => Call::GetInterned(value),
        "is_interned" => Call::IsInterned(value),
        _ => plain_call(rt, line).expect(rt, line.name),
    };
    calls.push(call).expect(rt, "memory");
}

fn plain_call<Q>(rt: &impl Host, line: Line) -> Option<Call<Q>> {
    match line.name {
        "contains" => Some(Call::Contains(symbol(rt, line.word))),
        "get" => Some(Call::Get(symbol(rt, line.word))),
        "reserve" => Some(Call::Reserve(size(rt, line.word))),
        "shrink_to" => Some(Call::ShrinkTo(size(rt, line.word))),
        "take_back" => Some(Call::TakeBack(Mark::new(size(rt, line.word)))),
        "len" => Some(Call::Len),
        "is_empty" => Some(Call::IsEmpty),
        "clear" => Some(Call::Clear),
        "shrink_to_fit" => Some(Call::ShrinkToFit),
        _ => None,
    }
}
