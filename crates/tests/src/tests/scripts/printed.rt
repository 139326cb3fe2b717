//! Results of calls as text, as scripts have them.
use crate::support::kinds::Host;
use crate::support::replies::interned;
use bstr::BStr;
use intaglio::cstr::CStr;
use intaglio::path::Path;
use intaglio::{InternError, Reply, Symbol};
use std::str;

/// A form whose bytes can be read.
pub trait Shown: Drop {
    /// The bytes of the spelling.
    fn shown(&self) -> &[u8];
}

impl<'a> Shown for &'a [u8] {
    fn shown(&self) -> &[u8] {
        *self
    }
}

impl<'a> Shown for &'a str {
    fn shown(&self) -> &[u8] {
        self.as_bytes()
    }
}

impl<'a> Shown for BStr<'a> {
    fn shown(&self) -> &[u8] {
        self.as_bytes()
    }
}

impl<'a> Shown for CStr<'a> {
    fn shown(&self) -> &[u8] {
        self.to_bytes()
    }
}

impl<'a> Shown for Path<'a> {
    fn shown(&self) -> &[u8] {
        self.as_str().as_bytes()
    }
}

/// The reply with a form.
pub fn spelled<F: Shown>(rt: &impl Host, form: Option<F>) -> Reply {
    Reply::Spelling(form.and_then(|form| form.shown().to_vec(rt.alloc()).ok()))
}

/// A reply as text.
pub fn reply_text(rt: &impl Host, reply: &Reply) -> String {
    match reply {
        Reply::Symbol(Some(symbol)) => number(rt, symbol.id() as usize),
        Reply::Pair(Some(pair)) => numbered(rt, pair.0, pair.1.as_slice()),
        Reply::Spelling(Some(spelling)) => text(rt, spelling.as_slice()),
        Reply::Bool(answer) => answer.to_string(rt.alloc()).expect(rt, "memory"),
        Reply::Count(count) => number(rt, *count),
        other => word(rt, word_of(other)),
    }
}

/// The symbols of a batch as text, or the error.
pub fn symbols_text(rt: &impl Host, symbols: Result<Vec<Symbol>, InternError>) -> String {
    match symbols {
        Ok(symbols) => format!(in rt.alloc(); "{symbols:?}").expect(rt, "memory"),
        Err(refused) => reply_text(rt, &interned(Err(refused))),
    }
}

/// A symbol, and whether it is new, as text, or the error.
pub fn inserted_text(rt: &impl Host, inserted: Result<(Symbol, bool), InternError>) -> String {
    match inserted {
        Ok((symbol, is_new)) => {
            format!(in rt.alloc(); "{symbol:?} {is_new}").expect(rt, "memory")
        }
        Err(refused) => reply_text(rt, &interned(Err(refused))),
    }
}

/// A word as text of its own.
pub fn word(rt: &impl Host, word: &str) -> String {
    word.to_string(rt.alloc()).expect(rt, "memory")
}

/// A number as text.
pub fn number(rt: &impl Host, number: usize) -> String {
    number.to_string(rt.alloc()).expect(rt, "memory")
}

/// A spelling as text: its bytes, if it isn't UTF-8.
pub fn text(rt: &impl Host, spelling: &[u8]) -> String {
    match str::from_utf8(spelling) {
        Ok(text) => word(rt, text),
        Err(_) => format!(in rt.alloc(); "{spelling:?}").expect(rt, "memory"),
    }
}

/// A symbol and a spelling as text.
pub fn numbered(rt: &impl Host, symbol: Symbol, spelling: &[u8]) -> String {
    let (number, text) = (symbol.id(), text(rt, spelling));
    format!(in rt.alloc(); "{number} {text}").expect(rt, "memory")
}

// The word for a reply without a value.
fn word_of(reply: &Reply) -> &'static str {
    match reply {
        Reply::Done => "done",
        Reply::Overflow => "Symbol overflow",
        Reply::CapacityOverflow => "capacity overflow",
        Reply::NoMemory => "out of memory",
        Reply::Stale => "stale mark",
        _ => "none",
    }
}
