//! Random scripts on tables of each kind, whose results must be those of a plain list.
use super::each::{Trial, try_on_each};
use super::plain::Plain;
use super::script::{Line, answer, size, way};
use super::table::{Makes, Table};
use crate::support::kinds::Host;
use crate::tests::assertions::same;
use std::fmt::Write;
use std::hash::{BuildHasher, RandomState};

// How many scripts there are for each kind of table, and how many calls each makes.
const SCRIPTS: usize = 63;

const CALLS: usize = 200;

// Calls, with what they take: nothing, a text, a list of texts, a symbol, or a count.
const NAMES: &str =
    "(intern text) (intern text) (intern text) (get_or_intern text) (get_or_intern text) \
(insert_full text) (check text) (is_interned text) (get_interned text) (get symbol) (index symbol) \
(contains symbol) (intern_all texts) (intaglio::intern_all texts) (get_or_intern_all texts) \
(get_or_intern_all texts) (check_all texts) (reserve count) (try_reserve count) (shrink_to count) \
(shrink_to_fit ) (take_back count) (clear ) (len ) (is_empty ) (mark ) (limit )";

// Texts of each class of length by which hashes and comparisons go, some of which differ in one byte, each in
// parentheses.
const TEXTS: &str =
    "() (a) (b) (aa) (ab) (abc) (abd) (abcdefgh) (abcdefgi) (abcdefghi) (abcdefghj) \
(abcdefghijklmnopq) (abcdefghiiklmnopq) (abcdefghijklmnopqrstuvwxyz0123456) \
(abcdefghijklmnoqqrstuvwxyz0123456) \
(abcdefghijklmnopqrstuvwxyz0123456abcdefghijklmnopqrstuvwxyz0123456) \
(abcdefghijklmnopqrstuvwxyz0123456abcdefghijklmnopqrstuvwxyz0123457) (\u{e4}) (a\u{308}) (/) (/a) (./a) \
(a/) (a/b) (a//b) (a/./b) (a/b/) (a/b//) (a/b/.) (a/../b)";

const LISTS: &str = "() (a) (b a b) (abc a/b a//b \u{e4}) (k l m n o p q r s t) \
(abcdefghijklmnopqrstuvwxyz0123456 z abcdefghi z aa ab)";

const SYMBOLS: &str = "(0) (1) (2) (4) (9) (17) (4294967295)";

const COUNTS: &str = "(0) (1) (2) (5) (11) (40) (18446744073709551615)";

// How a table is made. In the last way, which occurs twice as often, hashes are first bytes.
const WAYS: &str =
    "(new ) (with_capacity 0) (with_capacity 5) (with_capacity_and_hasher 3) (with_limit 1) \
(with_limit 9) (with_limit 4294967296) (with_first_bytes 0) (with_first_bytes 0)";

// Numbers that look random.
#[derive(Drop)]
struct Dice {
    state: u64,
}

impl Dice {
    // One of these, which are in parentheses.
    fn pick(&mut self, rt: &impl Host, rows: &'static str) -> &'static str {
        let next = self.state.wrapping_mul(6_364_136_223_846_793_005);
        self.state = next.wrapping_add(1_442_695_040_888_963_407);
        let place = ((self.state >> 33) as usize).checked_rem(rows.split(") (").count());
        let row = rows.split(") (").nth(place.expect(rt, "nothing"));
        let row = row.expect(rt, "nothing");
        let row = row.strip_prefix('(').unwrap_or(row);
        row.strip_suffix(')').unwrap_or(row)
    }

    // A call. What it returns isn't known yet.
    fn line(&mut self, rt: &impl Host) -> Line {
        let call = self.pick(rt, NAMES);
        let (name, argument) = call.split_once(' ').expect(rt, call);
        let word = match argument {
            "text" => self.pick(rt, TEXTS),
            "texts" => self.pick(rt, LISTS),
            "symbol" => self.pick(rt, SYMBOLS),
            "count" => self.pick(rt, COUNTS),
            _ => "",
        };
        line_of(name, word)
    }

    // How a table is made.
    fn first(&mut self, rt: &impl Host) -> Line {
        let call = self.pick(rt, WAYS);
        let (name, word) = call.split_once(' ').expect(rt, call);
        line_of(name, word)
    }

    fn lines(&mut self, rt: &impl Host) -> Vec<Line> {
        let mut lines = Vec::new(rt.alloc());
        for _ in 0..CALLS {
            lines.push(self.line(rt)).expect(rt, "memory");
        }
        lines
    }
}

fn line_of(name: &'static str, word: &'static str) -> Line {
    Line {
        row: "random",
        name,
        word,
        wanted: "",
    }
}

// Random scripts for each kind of table.
#[derive(Drop)]
struct RandomScripts {
    seed: u64,
}

impl Trial for RandomScripts {
    fn try_on<T: Makes, R: Host>(&self, rt: &R) {
        let mut dice = Dice { state: self.seed };
        for _ in 0..SCRIPTS {
            let (first, lines) = (dice.first(rt), dice.lines(rt));
            agrees::<T>(rt, first, lines);
        }
    }
}

// Asserts that all results are those of the plain list. Otherwise it prints a script of as few lines as it
// finds.
fn agrees<T: Makes>(rt: &impl Host, first: Line, lines: Vec<Line>) {
    if differs::<T>(rt, first, &lines).is_none() {
        return;
    }
    let mut left = lines;
    for place in (0..left.len()).rev() {
        let fewer = without(rt, &left, place);
        if differs::<T>(rt, first, &fewer).is_some() {
            left = fewer;
        }
    }
    let script = differs::<T>(rt, first, &left).expect(rt, "a script");
    same(
        rt,
        script.as_str(),
        "a script that a table plays as the plain list",
    );
}

fn without(rt: &impl Host, lines: &[Line], place: usize) -> Vec<Line> {
    let mut fewer = Vec::new(rt.alloc());
    for (i, line) in lines.iter().enumerate() {
        if i != place {
            fewer.push(*line).expect(rt, "memory");
        }
    }
    fewer
}

// The script up to the line whose result isn't that of the plain list, if there is one.
fn differs<T: Makes>(rt: &impl Host, first: Line, lines: &[Line]) -> Option<String> {
    let rest = rest_that_differs::<T>(rt, first, lines)?;
    let (name, word) = (first.name, first.word);
    Some(format!(in rt.alloc(); "{name} {word}{rest}").expect(rt, "memory"))
}

// The same without its first line.
fn rest_that_differs<T: Makes>(rt: &impl Host, first: Line, lines: &[Line]) -> Option<String> {
    let plain = Plain::new(rt.alloc(), limit(rt, first), T::ARE_PATHS);
    match way(rt, first).expect(rt, first.name) {
        Ok(how) => {
            let made = T::make(rt.alloc(), how).expect(rt, "no table");
            difference(rt, made, plain, lines)
        }
        Err(hasher) => {
            let made = T::make_counting(rt.alloc(), 0, hasher).expect(rt, "no table");
            difference(rt, made, plain, lines)
        }
    }
}

// The limit of a table that is made so.
fn limit(rt: &impl Host, first: Line) -> usize {
    if first.name == "with_limit" {
        size(rt, first.word)
    } else {
        4294967296
    }
}

// The lines up to the one whose result isn't that of the plain list, if there is one.
fn difference<T: Table>(
    rt: &impl Host,
    mut table: T,
    mut plain: Plain,
    lines: &[Line],
) -> Option<String> {
    let mut script = String::new(rt.alloc());
    for line in lines {
        let got = answer(rt, &mut table, *line);
        let wanted = plain.answer(rt, *line);
        write_line(rt, &mut script, *line, wanted.as_str());
        if got != wanted {
            write!(script, ", and not {got}").expect(rt, "memory");
            return Some(script);
        }
    }
    None
}

fn write_line(rt: &impl Host, script: &mut String, line: Line, wanted: &str) {
    let (name, word) = (line.name, line.word);
    write!(script, "\n{name} {word} > {wanted}").expect(rt, "memory");
}

#[test]
fn tables_return_what_a_plain_list_does(rt: HostRuntime) {
    let random = RandomState::new(&rt).expect(&rt, "a seed");
    let seed = random.hash_one(0u64);
    try_on_each(&rt, &RandomScripts { seed });
}
