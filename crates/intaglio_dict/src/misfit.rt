//! Messages on a line or code that isn't translated.
use crate::io::report::{Tell, failed};
use intaglio_columns::codes::{CODE, MISSING, PlainCodes};
use intaglio_columns::dictionary::WholeDictionary;
use intaglio_symbol::Symbol;
use std::str;

// How many bytes of a line are shown.
const MAX_SHOWN: usize = 200;

/// Of the line with this number, counted from 1, which is the first of these that isn't in the dictionary.
pub fn no_symbol<R: Tell, D: WholeDictionary>(
    rt: &R,
    name: &str,
    number: u64,
    table: &D,
    lines: &[u8],
) -> u8 {
    let missing = lines
        .split(|b| *b == b'\n')
        .find(|line| table.symbol_of(line).is_none());
    match missing {
        Some(line) => no_symbol_of(rt, name, number, line),
        None => failed(
            rt,
            name,
            format_args!("line {number} is not in the dictionary"),
        ),
    }
}

fn no_symbol_of<R: Tell>(rt: &R, name: &str, number: u64, line: &[u8]) -> u8 {
    let hint = "--missing gives such lines the code 4294967295";
    let what = "is not in the dictionary";
    match str::from_utf8(line) {
        Ok(text) if is_shown(text) => failed(
            rt,
            name,
            format_args!("line {number} {what}: '{text}'; {hint}"),
        ),
        _ => {
            let (start, rest) = match line.split_at_checked(MAX_SHOWN) {
                Some((start, _)) => (start, ".."),
                None => (line, ""),
            };
            let shown = start.escape_ascii();
            failed(
                rt,
                name,
                format_args!("line {number} {what}: '{shown}'{rest}; {hint}"),
            )
        }
    }
}

// Whether a text is shown as it is.
fn is_shown(text: &str) -> bool {
    text.len() <= MAX_SHOWN && !text.chars().any(|c| c.is_control())
}

/// Of the code with this number, counted from 1, which is the first of these that stands for no
/// line: no string of the dictionary has it, nor is it the code of lines that weren't in a
/// dictionary, if these have a text.
pub fn no_string<R: Tell, D: WholeDictionary>(
    rt: &R,
    name: &str,
    number: u64,
    table: &D,
    has_text: bool,
    codes: &[u8],
) -> u8 {
    match find_code(
        codes,
        |code| table.string_of(Symbol::new(code)).is_none() && !(has_text && code == MISSING),
    ) {
        Some(MISSING) => {
            let what = "that of a line that wasn't in a dictionary; --missing TEXT gives it a line";
            failed(
                rt,
                name,
                format_args!("code number {number} is {MISSING}, {what}"),
            )
        }
        Some(code) => failed(
            rt,
            name,
            format_args!("code number {number} is {code}, which is no symbol"),
        ),
        None => failed(rt, name, format_args!("code number {number} is no symbol")),
    }
}

// The first whole code of which this holds.
fn find_code<P: FnMut(u32) -> bool + Drop>(codes: &[u8], mut holds: P) -> Option<u32>
    requires { (f : _) (x : _) → P.pre f x }
{
    for bytes in codes.chunks_exact(CODE) {
        let code = PlainCodes::of(bytes)?.get(0)?;
        if holds(code) {
            return Some(code);
        }
    }
    None
}
