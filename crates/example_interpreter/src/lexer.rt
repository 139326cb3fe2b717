//! A lexer whose tokens hold symbols, and keep the whole source.
ghost use Rattle.std.specs.Prelude.{◌≡◌, ◌↔◌, ◌<◌, ◌≤◌, length, IfOk, IsTrue};
ghost use Rattle.intaglio.specs.Keys.{bytes_key};
ghost use Rattle.intaglio.specs.Lookup.{Keeps};
ghost use Rattle.example_interpreter.specs.Spelled.{spelled, text_of};

use crate::token::{Token, TokenKind};
use intaglio::bytes::{BytesContent, SymbolTable};
use intaglio::laws::valid_law;
use intaglio::{InternError, Symbol, TableError};
use std::alloc::Global;

const KEYWORDS: [&str; 3] = ["fn", "let", "while"];

/// A table that holds the keywords. They are interned first, so their symbols are those below 3.
///
/// # Errors
///
/// If an allocation fails.
pub fn table_of_keywords(alloc: Global) -> Result<SymbolTable, TableError> {
    let mut texts = SymbolTable::new(alloc)?;
    for keyword in KEYWORDS {
        let _symbol = texts.intern(BytesContent::from(keyword.as_bytes()))?;
    }
    Ok(texts)
}

/// The tokens of the source, blanks included: their concatenated texts are the source.
///
/// # Errors
///
/// Those of [`intern`](SymbolTable::intern), and `Memory` if the allocation of the list fails.
pub fn lex(
    alloc: Global,
    texts: &mut SymbolTable,
    source: &'static [u8],
) -> Result<Vec<Token>, InternError>
    ensures spelled { IfOk result (λ tokens. spelled texts.new.state.contents tokens.items ≡ source.now) }
    ensures kept { Keeps bytes_key texts.old.state texts.new.state }
{
    let mut tokens = Vec::new(alloc);
    let mut rest = source;
    while !rest.is_empty() {
        let (lexeme, after) = rest.split_at(lexeme_len(rest));
        let text = texts.intern(BytesContent::from(lexeme))?;
        let kind = kind_of(text, lexeme);
        tokens.reserve(1)?;
        tokens.push_reserved(Token { kind, text });
        rest = after;
    }
    Ok(tokens)
}

/// Whether two symbols of the table have the same text, which is so exactly if they are the same.
pub fn have_same_text(texts: &SymbolTable, one: Symbol, other: Symbol) -> bool
    requires one { one < length texts.now.state.contents }
    requires other { other < length texts.now.state.contents }
    ensures { let held = texts.now.state.contents in
        IsTrue result ↔ (text_of held one ≡ text_of held other) }
{
    // The texts of a table are distinct.
    valid_law(texts);
    one == other
}

// The kind of token that a byte begins.
fn begins(byte: u8) -> TokenKind {
    match byte {
        b'a'..=b'z' | b'A'..=b'Z' | b'_' => TokenKind::Identifier,
        b'0'..=b'9' => TokenKind::Number,
        b' ' | b'\n' | b'\t' | b'\r' => TokenKind::Blank,
        _ => TokenKind::Punctuation,
    }
}

// Whether a byte continues a token of kind `first`.
fn goes_on(first: TokenKind, byte: u8) -> bool {
    let kind = begins(byte);
    match first {
        TokenKind::Punctuation => false,
        TokenKind::Identifier => kind == TokenKind::Identifier || kind == TokenKind::Number,
        _ => kind == first,
    }
}

// The length of the first token.
fn lexeme_len(rest: &[u8]) -> usize
    requires { 0 < length rest.now }
    ensures some { 0 < result }
    ensures within { result ≤ length rest.now }
{
    let first = begins(rest[0]);
    let mut end = 1;
    while end < rest.len() && goes_on(first, rest[end]) {
        end += 1;
    }
    end
}

// The kind of the token whose text has this symbol.
fn kind_of(text: Symbol, lexeme: &[u8]) -> TokenKind {
    if (text.id() as usize) < KEYWORDS.len() {
        return TokenKind::Keyword;
    }
    lexeme
        .first()
        .map_or(TokenKind::Blank, |byte| begins(*byte))
}
