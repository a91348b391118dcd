use fd_words::{Name, SourcePlace};
use sqlite_items::Items;

/// What a token is. A word is in upper case; a line end is a token.
#[derive(Clone, Copy, Debug, PartialEq, Eq)]
pub enum TokenKind {
    Word(Name),
    Number(i64),
    OpenParen,
    CloseParen,
    Comma,
    Equals,
    Plus,
    Minus,
    Star,
    LineEnd,
}

/// A token, its place, and the bytes of the source that it spans, from `start` to before `end`.
#[derive(Clone, Copy, Debug, PartialEq, Eq)]
pub struct Token {
    pub kind: TokenKind,
    pub at: SourcePlace,
    pub start: u64,
    pub end: u64,
}

/// Tokens in the order of the text.
pub type Tokens = Items<Token>;

/// The tokens of a source, and the place behind its last byte.
#[derive(Debug, Drop)]
pub struct TokenList {
    pub tokens: Tokens,
    pub end: SourcePlace,
}
