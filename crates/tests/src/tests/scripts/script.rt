//! Scripts of rows. A row has a name, on a line of its own that ends with a colon, and indented lines with
//! calls and their expected results: `intern a, b > 0, 1` are two calls, and `; ` stands between others. A
//! call that makes a table begins anew with that one.
use super::asks::Ask;
use super::loops::{asked, makes_turns};
use super::printed::{number, reply_text, spelled, symbols_text, word};
use super::steps::walked;
use super::table::{Makes, Table};
use crate::support::builders::Counted;
use crate::support::kinds::{Host, TestContent};
use crate::support::replies::{interned, roomy};
use crate::support::tables::{Make, Update};
use intaglio::{Reply, Symbol};

/// A call: its row, its name, its arguments, and its expected result.
#[derive(Clone, Copy)]
pub struct Line {
    pub row: &'static str,
    pub name: &'static str,
    pub word: &'static str,
    pub wanted: &'static str,
}

/// The calls of a script.
pub fn lines_of(rt: &impl Host, script: &'static str) -> Vec<Line> {
    let mut lines = Vec::new(rt.alloc());
    let mut rows = Vec::new(rt.alloc());
    for text in script.lines() {
        if let Some(calls) = text.strip_prefix("    ") {
            let row = rows.last().copied().unwrap_or("");
            for call in calls.split("; ") {
                push_lines(rt, &mut lines, row, call);
            }
        } else if let Some(name) = text.strip_suffix(':') {
            rows.push(name).expect(rt, "memory");
        }
    }
    lines
}

fn push_lines(rt: &impl Host, lines: &mut Vec<Line>, row: &'static str, text: &'static str) {
    let (call, wanted) = text.split_once(" > ").expect(rt, text);
    let (name, word) = call.split_once(' ').unwrap_or((call, ""));
    let line = Line {
        row,
        name,
        word,
        wanted,
    };
    if !word.contains(", ") {
        lines.push(line).expect(rt, "memory");
        return;
    }
    for (word, wanted) in word.split(", ").zip(wanted.split(", ")) {
        let one = Line {
            word,
            wanted,
            ..line
        };
        lines.push(one).expect(rt, "memory");
    }
}

/// The number that a word says.
pub fn size(rt: &impl Host, word: &str) -> usize {
    word.parse().expect(rt, "no number")
}

/// The symbol that a word says.
pub fn symbol(rt: &impl Host, word: &str) -> Symbol {
    Symbol::new(word.parse().expect(rt, "no number"))
}

/// Asserts that the result is the one expected of this call.
pub fn agrees(rt: &impl Host, got: &str, line: Line) {
    assert_eq!(rt;
        got,
        line.wanted,
        "{}: {} {}",
        line.row, line.name, line.word
    );
}

/// How a call makes a table: with counted hashers, if it is a builder, or else in this way.
pub fn way(rt: &impl Host, line: Line) -> Option<Result<Make, Counted>> {
    match line.name {
        "new" => Some(Ok(Make::New)),
        "with_capacity" => Some(Ok(Make::Rounded(size(rt, line.word)))),
        "with_hasher" => Some(Ok(Make::Usual)),
        "with_capacity_and_hasher" => Some(Ok(Make::Exact(size(rt, line.word)))),
        "with_limit" => Some(Ok(Make::Limited(size(rt, line.word)))),
        "with_first_bytes" => Some(Err(Counted::new(None))),
        "with_equal_hashes" => Some(Err(Counted::new(Some(7)))),
        _ => None,
    }
}

/// The calls on one table, and the one that makes it.
#[derive(Drop)]
pub struct Part {
    pub first: Line,
    pub calls: Vec<Line>,
}

/// The calls of a script, by tables.
pub fn parts_of(rt: &impl Host, script: &'static str) -> Vec<Part> {
    let mut parts: Vec<Part> = Vec::new(rt.alloc());
    for first in lines_of(rt, script) {
        match parts.last_mut() {
            Some(part) if way(rt, first).is_none() => part.calls.push(first).expect(rt, "memory"),
            _ => {
                let calls = Vec::new(rt.alloc());
                parts.push(Part { first, calls }).expect(rt, "memory");
            }
        }
    }
    parts
}

/// Makes the calls of a script.
pub fn plays<T: Makes>(rt: &impl Host, script: &'static str) {
    for part in parts_of(rt, script) {
        plays_part::<T>(rt, part.first, &part.calls);
    }
}

fn plays_part<T: Makes>(rt: &impl Host, first: Line, calls: &[Line]) {
    match way(rt, first).expect(rt, first.name) {
        Ok(how) => match T::make(rt.alloc(), how) {
            Ok(mut table) => {
                agrees(rt, "done", first);
                makes_calls(rt, &mut table, calls);
            }
            Err(refused) => agrees(rt, reply_text(rt, &roomy(Err(refused))).as_str(), first),
        },
        Err(hasher) => {
            let made = T::make_counting(rt.alloc(), size(rt, first.word), hasher);
            makes_calls(rt, &mut made.expect(rt, "no table"), calls);
        }
    }
}

/// Makes the calls on a table.
pub fn makes_calls<T: Table>(rt: &impl Host, table: &mut T, calls: &[Line]) {
    for line in calls {
        agrees(rt, answer(rt, table, *line).as_str(), *line);
    }
}

/// What the table returns for one call, or that there is no call of this name.
pub fn answer<T: Table>(rt: &impl Host, table: &mut T, line: Line) -> String {
    if let Some(reply) = reply(rt, table, line) {
        return reply_text(rt, &reply);
    }
    if let Some(ask) = ask(rt, line) {
        return asked(rt, table, line.word.as_bytes(), ask);
    }
    if line.name.ends_with("_numbers") {
        let count = line.word.parse().expect(rt, "no number");
        makes_turns(rt, table, line.name, count);
        return word(rt, "done");
    }
    batch(rt, table, line)
}

fn reply<T: Table>(rt: &impl Host, table: &mut T, line: Line) -> Option<Reply> {
    match line.name {
        "intern" => Some(interned(table.put(content(rt, line.word.as_bytes())))),
        "lend" => {
            let content = T::Item::borrowed(line.word).expect(rt, line.word);
            Some(interned(table.put(content)))
        }
        "index" => Some(spelled(rt, table.index(symbol(rt, line.word)))),
        _ => match update(rt, line) {
            Some(update) => Some(table.update(update)),
            None => table.number(line.name, line.word),
        },
    }
}

fn update(rt: &impl Host, line: Line) -> Option<Update> {
    match line.name {
        "reserve" => Some(Update::Reserve(size(rt, line.word))),
        "try_reserve" => Some(Update::TryReserve(size(rt, line.word))),
        "reserve_bytes" => Some(Update::ReserveBytes(size(rt, line.word))),
        "shrink_to" => Some(Update::ShrinkTo(size(rt, line.word))),
        "shrink_to_fit" => Some(Update::ShrinkToFit),
        "clear" => Some(Update::Clear),
        "take_back" => Some(Update::TakeBack(size(rt, line.word))),
        _ => None,
    }
}

fn ask(rt: &impl Host, line: Line) -> Option<Ask> {
    match line.name {
        "get_or_intern" => Some(Ask::GetOrIntern),
        "insert_full" => Some(Ask::InsertFull),
        "check" => Some(Ask::CheckInterned),
        "is_interned" => Some(Ask::IsInterned),
        "get_interned" => Some(Ask::GetInterned),
        "contains" => Some(Ask::Contains(symbol(rt, line.word))),
        "get" => Some(Ask::Get(symbol(rt, line.word))),
        _ => None,
    }
}

// What the table returns for a call by a batch of words, or for steps on an iterator.
fn batch<T: Table>(rt: &impl Host, table: &mut T, line: Line) -> String {
    let mut words = Vec::new(rt.alloc());
    for word in line.word.split_whitespace() {
        words
            .push(content(rt, word.as_bytes()))
            .expect(rt, "memory");
    }
    match line.name {
        "symbols" => walked(rt, table.symbols(), line.word),
        "intern_all" => symbols_text(rt, table.put_all(rt.alloc(), words)),
        "intaglio::intern_all" => symbols_text(rt, table.put_counted(rt.alloc(), words)),
        _ => match batch_ask(line.name) {
            Some(ask) => table.ask(rt, &words, line.word, ask),
            None => word(rt, "no such call"),
        },
    }
}

fn batch_ask(name: &str) -> Option<Ask> {
    match name {
        "forms" => Some(Ask::Forms),
        "pairs" => Some(Ask::Pairs),
        "each" => Some(Ask::Each),
        "get_or_intern_all" => Some(Ask::GetOrInternAll),
        "intaglio::get_or_intern_all" => Some(Ask::CountedAll),
        "check_all" => Some(Ask::CheckAll),
        _ => None,
    }
}

/// An owned content of this spelling.
pub fn content<C: TestContent>(rt: &impl Host, spelling: &[u8]) -> C {
    C::owned(rt.alloc(), spelling).expect(rt, "no such content")
}
