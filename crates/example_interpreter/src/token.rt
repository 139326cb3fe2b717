//! A token.
use intaglio::Symbol;
use std::fmt;

/// What a token is.
#[derive(Debug, Clone, Copy, PartialEq, Eq)]
pub enum TokenKind {
    /// A reserved word of the language.
    Keyword,
    /// Any other word.
    Identifier,
    /// Digits.
    Number,
    /// A run of blanks.
    Blank,
    /// Any other byte.
    Punctuation,
}

impl fmt::Display for TokenKind {
    fn fmt<W: fmt::Write>(&self, f: &mut fmt::Formatter<W>) -> fmt::Result {
        f.write_str(match self {
            TokenKind::Keyword => "keyword",
            TokenKind::Identifier => "identifier",
            TokenKind::Number => "number",
            TokenKind::Blank => "blank",
            TokenKind::Punctuation => "punctuation",
        })
    }
}

/// A part of the source: what it is, and the symbol of its text.
#[derive(Debug, Clone, Copy, PartialEq, Eq)]
pub struct Token {
    /// What it is.
    pub kind: TokenKind,
    /// The symbol of its text.
    pub text: Symbol,
}
