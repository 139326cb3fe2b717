//! A plain list of texts, and the results that a table with these texts must return.
use super::printed::{inserted_text, reply_text, symbols_text};
use super::script::{Line, size, symbol};
use crate::support::kinds::Host;
use intaglio::{InternError, Reply, Symbol, SymbolOverflowError};
use std::alloc::Global;

/// Spellings of paths, each with that of an equal one.
static EQUAL_PATHS: [(&str, &str); 6] = [
    ("a/", "a"),
    ("a//b", "a/b"),
    ("a/./b", "a/b"),
    ("a/b/", "a/b"),
    ("a/b//", "a/b"),
    ("a/b/.", "a/b"),
];

/// Texts, no two of which are equal.
#[derive(Drop)]
pub struct Plain {
    texts: Vec<&'static str>,
    limit: usize,
    // Whether they are compared as paths.
    are_paths: bool,
}

impl Plain {
    /// No texts, and at most this many.
    pub fn new(alloc: Global, limit: usize, are_paths: bool) -> Plain {
        Plain {
            texts: Vec::new(alloc),
            limit,
            are_paths,
        }
    }

    /// What the call of a line returns.
    pub fn answer(&mut self, rt: &impl Host, line: Line) -> String {
        match line.name {
            "intern_all" | "intaglio::intern_all" | "get_or_intern_all" => {
                symbols_text(rt, self.enter_all(rt, line.word))
            }
            "check_all" => self.find_all(rt, line.word),
            "insert_full" => inserted_text(rt, self.insert(rt, line.word)),
            _ => reply_text(rt, &self.reply(rt, line)),
        }
    }

    fn reply(&mut self, rt: &impl Host, line: Line) -> Reply {
        match line.name {
            "intern" | "get_or_intern" => self.enter(rt, line.word),
            "check" => Reply::Symbol(self.position(line.word)),
            "is_interned" => Reply::Bool(self.position(line.word).is_some()),
            "get_interned" => self.pair(rt, line.word),
            "get" | "index" => Reply::Spelling(self.spelling(rt, symbol(rt, line.word))),
            "contains" => Reply::Bool((symbol(rt, line.word).id() as usize) < self.texts.len()),
            "len" | "mark" => Reply::Count(self.texts.len()),
            "is_empty" => Reply::Bool(self.texts.is_empty()),
            "limit" => Reply::Count(self.limit),
            _ => self.change(rt, line),
        }
    }

    fn change(&mut self, rt: &impl Host, line: Line) -> Reply {
        let count = self.texts.len();
        match line.name {
            "reserve" | "try_reserve" if size(rt, line.word) > self.limit.saturating_sub(count) => {
                Reply::CapacityOverflow
            }
            "take_back" if size(rt, line.word) > count => Reply::Stale,
            "take_back" => {
                self.texts.truncate(size(rt, line.word));
                Reply::Done
            }
            "clear" => {
                self.texts.clear();
                Reply::Done
            }
            _ => Reply::Done,
        }
    }

    // What texts are compared by.
    fn key(&self, text: &'static str) -> &'static str {
        if self.are_paths {
            for (path, equal) in EQUAL_PATHS {
                if path == text {
                    return equal;
                }
            }
        }
        text
    }

    fn position(&self, text: &'static str) -> Option<Symbol> {
        for (number, held) in (0..u32::MAX).zip(self.texts.iter()) {
            if self.key(*held) == self.key(text) {
                return Some(Symbol::new(number));
            }
        }
        None
    }

    fn enter(&mut self, rt: &impl Host, text: &'static str) -> Reply {
        let found = self.position(text);
        if found.is_some() {
            return Reply::Symbol(found);
        }
        let count = self.texts.len();
        if count >= self.limit {
            return Reply::Overflow;
        }
        self.texts.push(text).expect(rt, "memory");
        Reply::Symbol(Some(Symbol::new(u32::try_from(count).expect(rt, "too many"))))
    }

    // The symbol, and whether it is new.
    fn insert(
        &mut self,
        rt: &impl Host,
        text: &'static str,
    ) -> Result<(Symbol, bool), InternError> {
        let is_new = self.position(text).is_none();
        match self.enter(rt, text) {
            Reply::Symbol(Some(symbol)) => Ok((symbol, is_new)),
            _ => Err(InternError::Overflow(SymbolOverflowError::new())),
        }
    }

    // All or none.
    fn enter_all(
        &mut self,
        rt: &impl Host,
        texts: &'static str,
    ) -> Result<Vec<Symbol>, InternError> {
        let count = self.texts.len();
        let mut symbols = Vec::new(rt.alloc());
        for text in texts.split_whitespace() {
            if let Reply::Symbol(Some(symbol)) = self.enter(rt, text) {
                symbols.push(symbol).expect(rt, "memory");
            } else {
                self.texts.truncate(count);
                return Err(InternError::Overflow(SymbolOverflowError::new()));
            }
        }
        Ok(symbols)
    }

    fn find_all(&self, rt: &impl Host, texts: &'static str) -> String {
        let mut symbols = Vec::new(rt.alloc());
        for text in texts.split_whitespace() {
            symbols.push(self.position(text)).expect(rt, "memory");
        }
        format!(in rt.alloc(); "{symbols:?}").expect(rt, "memory")
    }

    fn pair(&self, rt: &impl Host, text: &'static str) -> Reply {
        let Some(symbol) = self.position(text) else {
            return Reply::Pair(None);
        };
        let spelling = self.spelling(rt, symbol);
        Reply::Pair(spelling.map(|bytes| (symbol, bytes)))
    }

    fn spelling(&self, rt: &impl Host, symbol: Symbol) -> Option<Vec<u8>> {
        let text = self.texts.get(symbol.id() as usize)?;
        Some(text.as_bytes().to_vec(rt.alloc()).expect(rt, "memory"))
    }
}
