//! The names of an interpreter: a lexer's symbols, keywords first, and names with scopes.
//!
//! The program prints the tokens of a source, and then the source again, put together from the
//! tokens. Then it declares `x` and `y`, visits two blocks that declare names of their own, and
//! finds `x` as it was. At last it declares `x` in a block where another `x` is visible, and
//! finds the inner one there and the outer one behind.
#![tactic(auto)]

mod bindings;
mod lexer;
mod scopes;
mod token;

use anyhow::Result;
use bindings::Bindings;
use intaglio::{StrContent, SymbolTable, bytes};
use lexer::{lex, table_of_keywords};
use scopes::{declare, visit};
use std::str;
use token::{Token, TokenKind};

const SOURCE: &str = "let x1 = x + 12;\nwhile x1 { x = x1; }\n";

fn main(rt: HostRuntime) -> Result<()> {
    lex_source(&rt)?;
    visit_blocks(&rt)?;
    shadow_name(&rt)
}

fn lex_source(rt: &(impl Print + AllocGlobal)) -> Result<()> {
    let alloc = rt.alloc();
    let mut texts = table_of_keywords(alloc)?;
    let tokens = lex(alloc, &mut texts, SOURCE.as_bytes())?;
    print_tokens(rt, &texts, &tokens)?;
    print_source(rt, &texts, &tokens)
}

// Prints the symbol, the kind and the text of each token that isn't blank.
fn print_tokens(rt: &impl Print, texts: &bytes::SymbolTable, tokens: &[Token]) -> Result<()> {
    for token in tokens {
        if token.kind != TokenKind::Blank {
            let text = str::from_utf8(texts.get(token.text).unwrap_or(b"")).unwrap_or("?");
            println!(rt; "{} {} {text}", token.text.id(), token.kind)?;
        }
    }
    Ok(())
}

// Prints the texts of all tokens, which are the source.
fn print_source(rt: &impl Print, texts: &bytes::SymbolTable, tokens: &[Token]) -> Result<()> {
    for token in tokens {
        let text = str::from_utf8(texts.get(token.text).unwrap_or(b"")).unwrap_or("?");
        print!(rt; "{text}")?;
    }
    Ok(())
}

fn visit_blocks(rt: &(impl Print + AllocGlobal)) -> Result<()> {
    let mut names = SymbolTable::new(rt.alloc())?;
    declare(&mut names, "x y")?;
    let symbol = names.get_or_intern("x")?;
    let first = visit(&mut names, "z x")?;
    let second = visit(&mut names, "p q y p")?;
    let found = names.check_interned("x");
    prove!(found == Some(symbol));
    print_counts(rt, first, second, names.len())?;
    println!(rt; "x is {} as before", symbol.id())?;
    Ok(())
}

fn print_counts(rt: &impl Print, first: usize, second: usize, outside: usize) -> Result<()> {
    println!(rt; "{first} and {second} names inside, {outside} outside")?;
    Ok(())
}

#[tactic(auto, using(crate::proofs::Shadowing::same_last, crate::proofs::Shadowing::last_added, crate::proofs::Shadowing::scope_left))]
fn shadow_name(rt: &(impl Print + AllocGlobal)) -> Result<()> {
    let mut bindings = Bindings::new(rt.alloc())?;
    bindings.declare("x")?;
    bindings.declare("y")?;
    let outside = bindings.resolve("x");
    let depth = bindings.depth();
    bindings.declare("x")?;
    let inside = bindings.resolve("x");
    prove!(inside == Some(depth));
    bindings.leave(depth);
    let found = bindings.resolve("x");
    prove!(found == outside);
    print_places(rt, inside.unwrap_or(0), found.unwrap_or(0))
}

fn print_places(rt: &impl Print, inside: usize, outside: usize) -> Result<()> {
    println!(rt; "x is declaration {inside} in the block, {outside} outside")?;
    Ok(())
}
