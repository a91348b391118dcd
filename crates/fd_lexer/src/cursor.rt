ghost use Rattle.std.specs.Prelude.{◌≡◌, ◌+◌, ◌^◌, ◌<◌, true, false};
ghost use Rattle.fd_lexer.specs.Place.{passed};
ghost use Rattle.fd_lexer.specs.Tokens.{opens_line, token_of};

use crate::{Token, TokenKind};
use fd_words::SourcePlace;

/// How far a text is read: its bytes, the place behind them, and whether a token stands in that line.
#[derive(Debug, Drop)]
pub struct Cursor {
    pub at: usize,
    pub place: SourcePlace,
    pub begun: bool,
}

/// Whether a line has a token behind this one.
fn opens_line(kind: &TokenKind) -> bool
    ensures { result ≡ opens_line kind.now }
{
    !matches!(kind, TokenKind::LineEnd)
}

impl Cursor {
    /// Before the first byte.
    pub fn start() -> Cursor
        ensures { result ≡ record { at = 0; place = record { line = 1; column = 1 }; begun = false } }
    {
        Cursor {
            at: 0,
            place: SourcePlace { line: 1, column: 1 },
            begun: false,
        }
    }

    /// Goes on behind bytes that are no token.
    pub fn skip(&mut self, len: usize)
        requires bytes { self.old.at + len < 2 ^ 64 }
        requires column { self.old.place.column + len < 2 ^ 32 }
        ensures at { self.new.at ≡ self.old.at + len }
        ensures place { self.new.place ≡ passed true self.old.place len }
        ensures begun { self.new.begun ≡ self.old.begun }
    {
        self.at += len;
        self.place.column += len as u32;
    }

    /// The token of so many bytes that begins here.
    pub fn token(&self, kind: TokenKind, len: usize) -> Token
        requires { self.now.at + len < 2 ^ 64 }
        ensures { result ≡ token_of self.now.at self.now.place kind len }
    {
        Token {
            kind,
            at: self.place,
            start: self.at as u64,
            end: (self.at + len) as u64,
        }
    }

    /// Goes on behind the token that begins here.
    pub fn take(&mut self, kind: TokenKind, len: usize) -> Token
        requires bytes { self.old.at + len < 2 ^ 64 }
        requires line { self.old.place.line + 1 < 2 ^ 32 }
        requires column { self.old.place.column + len < 2 ^ 32 }
        ensures token { result ≡ token_of self.old.at self.old.place kind len }
        ensures at { self.new.at ≡ self.old.at + len }
        ensures place { self.new.place ≡ passed (opens_line kind) self.old.place len }
        ensures begun { self.new.begun ≡ opens_line kind }
    {
        let begun = opens_line(&kind);
        let token = self.token(kind, len);
        self.at += len;
        self.begun = begun;
        if begun {
            self.place.column += len as u32;
        } else {
            self.place.line += 1;
            self.place.column = 1;
        }
        token
    }
}
