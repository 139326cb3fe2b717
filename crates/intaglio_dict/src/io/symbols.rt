//! Symbols, as the arguments or standard input have them.
ghost use Rattle.std.specs.Prelude.{◌<◌, IfOk, IfSome};

use crate::io::input::{INPUT, STANDARD, check_text, whole};
use crate::io::metered::Meter;
use crate::io::report;
use crate::io::report::Tell;
use clap::ArgMatches;
use intaglio_symbol::Symbol;
use std::rt::Files;
use std::str;

/// The symbols among the arguments, or none if they have none. Otherwise the exit status after a message.
pub fn typed_symbols<R: Tell + AllocGlobal>(
    rt: &R,
    found: &ArgMatches<'_>,
) -> Result<Option<Vec<Symbol>>, u8> {
    let Some(numbers) = found.get_strs("NUMBER") else {
        return Ok(None);
    };
    let mut symbols = Vec::new(rt.alloc());
    for typed in numbers {
        let Some(symbol) = symbol_of(typed) else {
            return Err(report::not_a_number(rt, typed));
        };
        if symbols.push(symbol).is_err() {
            return Err(report::out_of_memory(rt));
        }
    }
    Ok(Some(symbols))
}

/// A number below 2^64 in digits alone.
pub fn plain_number(text: &str) -> Option<u64> {
    if text.bytes().all(|b| b.is_ascii_digit()) {
        text.parse::<u64>().ok()
    } else {
        None
    }
}

fn symbol_of(text: &str) -> Option<Symbol> {
    match u32::try_from(plain_number(text)?) {
        Ok(number) => Some(Symbol::new(number)),
        Err(_) => None,
    }
}

/// The symbols in the lines of standard input. Otherwise the exit status after a message.
pub fn read_symbols<R: Files + Input + Tell + AllocGlobal>(rt: &R) -> Result<Vec<Symbol>, u8> {
    let input = whole(rt, STANDARD, &mut Meter::silent())?;
    check_text(rt, STANDARD, &input)?;
    match str::from_utf8(&input) {
        Ok(text) => symbols_in(rt, text),
        Err(_) => Err(2),
    }
}

fn symbols_in<R: Tell + AllocGlobal>(rt: &R, text: &str) -> Result<Vec<Symbol>, u8> {
    let mut symbols = Vec::new(rt.alloc());
    for (before, line) in text.lines().enumerate() {
        let Some(symbol) = symbol_of(line) else {
            return Err(report::not_a_symbol(rt, INPUT, before.saturating_add(1), line));
        };
        if symbols.push(symbol).is_err() {
            return Err(report::out_of_memory(rt));
        }
    }
    Ok(symbols)
}

/// The number of shards after --shards, if it is there. Otherwise the exit status after a message.
pub fn shards_of<R: Tell>(rt: &R, found: &ArgMatches<'_>) -> Result<Option<u32>, u8>
    ensures { IfOk result (λ found. IfSome found (λ shards. 0 < shards)) }
{
    let Some(typed) = found.get_str("SHARDS") else {
        return Ok(None);
    };
    match plain_number(typed).map(u32::try_from) {
        Some(Ok(shards)) if shards > 0 => Ok(Some(shards)),
        _ => {
            let needed = "a number from 1 to 4294967295 is needed";
            Err(report::wrong_number(rt, "--shards", typed, needed))
        }
    }
}
