//! Steps on iterators, by their names.
use super::printed::{Shown, number, numbered, text, word};
use crate::support::kinds::Host;
use intaglio::{AllSymbols, Content, Forms, Lends, Pairs, Symbol};

/// An iterator on which steps are made by name.
pub trait Walk: Drop {
    /// What the step of this name returns, or that there is none.
    fn step<R: Host>(&mut self, rt: &R, name: &str) -> String;
}

/// What the steps return, which are separated by spaces.
pub fn walked<W: Walk>(rt: &impl Host, mut walk: W, steps: &str) -> String {
    let mut said = String::new(rt.alloc());
    for step in steps.split(' ') {
        if !said.is_empty() {
            said.push_str(", ").expect(rt, "memory");
        }
        said.push_str(walk.step(rt, step).as_str())
            .expect(rt, "memory");
    }
    said
}

fn symbol_said(rt: &impl Host, symbol: Option<Symbol>) -> String {
    match symbol {
        Some(symbol) => number(rt, symbol.id() as usize),
        None => word(rt, "none"),
    }
}

fn form_said<F: Shown>(rt: &impl Host, form: Option<F>) -> String {
    match form {
        Some(form) => text(rt, form.shown()),
        None => word(rt, "none"),
    }
}

fn hint_said(rt: &impl Host, hint: (usize, Option<usize>)) -> String {
    format!(in rt.alloc(); "{hint:?}").expect(rt, "memory")
}

impl<'a> Walk for AllSymbols<'a> {
    fn step<R: Host>(&mut self, rt: &R, name: &str) -> String {
        match name {
            "next" => symbol_said(rt, self.next()),
            "next_back" => symbol_said(rt, self.next_back()),
            "nth_back(2)" => symbol_said(rt, self.nth_back(2)),
            "size_hint" => hint_said(rt, self.size_hint()),
            _ => word(rt, "no such step"),
        }
    }
}

impl<'a, L: Lends<'a>> Walk for Forms<'a, L>
where
    L::Content: Content,
    L::Form: Shown,
{
    fn step<R: Host>(&mut self, rt: &R, name: &str) -> String {
        match name {
            "next" => form_said(rt, self.next()),
            "next_back" => form_said(rt, self.next_back()),
            "nth_back(2)" => form_said(rt, self.nth_back(2)),
            "size_hint" => hint_said(rt, self.size_hint()),
            "len" => number(rt, self.len()),
            _ => word(rt, "no such step"),
        }
    }
}

impl<'a, L: Lends<'a>> Walk for Pairs<'a, L>
where
    L::Content: Content,
    L::Form: Shown,
{
    fn step<R: Host>(&mut self, rt: &R, name: &str) -> String {
        match name {
            "next" => match self.next() {
                Some((symbol, form)) => numbered(rt, symbol, form.shown()),
                None => word(rt, "none"),
            },
            "count" => {
                let mut count: usize = 0;
                for _ in self.clone().expect(rt, "memory") {
                    count = count.wrapping_add(1);
                }
                number(rt, count)
            }
            "size_hint" => hint_said(rt, self.size_hint()),
            _ => word(rt, "no such step"),
        }
    }
}
