//! Calls on many contents, whose expected results are computed.
use super::asks::Ask;
use super::printed::{numbered, text};
use super::script::content;
use super::table::Table;
use crate::support::kinds::Host;
use crate::support::replies::interned;
use crate::tests::assertions::same;
use intaglio::{Reply, Symbol};

/// What the call by the spelling returns.
pub fn asked<T: Table>(rt: &impl Host, table: &mut T, spelling: &[u8], ask: Ask) -> String {
    let mut contents = Vec::new(rt.alloc());
    contents.push(content(rt, spelling)).expect(rt, "memory");
    table.ask(rt, &contents, "", ask)
}

// Asserts what the call by the spelling returns.
fn gives<T: Table>(rt: &impl Host, table: &mut T, spelling: &[u8], ask: Ask, wanted: &str) {
    let answer = asked(rt, table, spelling, ask);
    same(rt, answer.as_str(), wanted);
}

/// Does with the decimal numbers from 0 what the name says: `intern_numbers` interns each, which gets the symbol of
/// this number, `keep_numbers` keeps each as [`keeps_new`] does, padded with zeros to 100 bytes, `check_numbers`
/// checks them from the last to the first, and `find_numbers` makes each of the three look-ups.
pub fn makes_turns<T: Table>(rt: &impl Host, table: &mut T, name: &str, count: u32) {
    for number in 0..count {
        let wanted = if name == "check_numbers" {
            count - 1 - number
        } else {
            number
        };
        makes_turn(rt, table, name, wanted);
    }
}

fn makes_turn<T: Table>(rt: &impl Host, table: &mut T, name: &str, wanted: u32) {
    let text = match name {
        "keep_numbers" => format!(in rt.alloc(); "{wanted:0100}").expect(rt, "memory"),
        _ => wanted.to_string(rt.alloc()).expect(rt, "memory"),
    };
    let spelling = text.as_bytes();
    match name {
        "intern_numbers" => interns(rt, table, spelling, wanted),
        "keep_numbers" => keeps_new(rt, table, spelling, wanted),
        "check_numbers" => gives(rt, table, spelling, Ask::CheckInterned, text.as_str()),
        _ => finds(rt, table, spelling, Symbol::new(wanted)),
    }
}

/// Asserts that interning the spelling returns the symbol of this number.
pub fn interns<T: Table>(rt: &impl Host, table: &mut T, spelling: &[u8], wanted: u32) {
    let reply = interned(table.put(content(rt, spelling)));
    same(rt, reply, Reply::Symbol(Some(Symbol::new(wanted))));
}

fn finds<T: Table>(rt: &impl Host, table: &mut T, spelling: &[u8], wanted: Symbol) {
    let pair = numbered(rt, wanted, spelling);
    gives(rt, table, spelling, Ask::GetInterned, pair.as_str());
    gives(rt, table, spelling, Ask::IsInterned, "true");
    let (symbol, _) = pair.split_once(' ').expect(rt, "no pair");
    gives(rt, table, spelling, Ask::CheckInterned, symbol);
}

/// Interns a content that isn't interned yet twice, and asserts after each interning that it is kept.
pub fn keeps_new<T: Table>(rt: &impl Host, table: &mut T, spelling: &[u8], wanted: u32) {
    gives(rt, table, spelling, Ask::IsInterned, "false");
    for _ in 0..2 {
        keeps(rt, table, spelling, wanted);
    }
}

// Interns a content, which gets this symbol, and asserts that it is kept.
fn keeps<T: Table>(rt: &impl Host, table: &mut T, spelling: &[u8], wanted: u32) {
    interns(rt, table, spelling, wanted);
    let symbol = Symbol::new(wanted);
    finds(rt, table, spelling, symbol);
    let kept = text(rt, spelling);
    gives(rt, table, spelling, Ask::Contains(symbol), "true");
    gives(rt, table, spelling, Ask::Get(symbol), kept.as_str());
    same(rt, table.index(symbol), Some(spelling));
}
