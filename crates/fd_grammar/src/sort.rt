ghost use Rattle.std.specs.Prelude.{◌≡◌, map, bytes_eq};
ghost use Rattle.fd_grammar.specs.Sorts.{sort_in, sort_of_word, sort_of, is_word, name_of, sign_by, times_of, opens};

use fd_lexer::TokenKind;
use fd_words::{Arith, Name};

/// What a token is to the grammar: a reserved word, a name, a number, a sign or a line end.
#[derive(Clone, Copy, Debug, PartialEq, Eq)]
pub enum Sort {
    ProgramWord,
    ParameterWord,
    IntegerWord,
    DecompositionWord,
    AlignWord,
    WithWord,
    DistributeWord,
    BlockWord,
    CyclicWord,
    ReadWord,
    OutputWord,
    PrintWord,
    DoWord,
    EndWord,
    EndDoWord,
    ForallWord,
    EndForallWord,
    ReduceWord,
    AddWord,
    MinWord,
    MaxWord,
    Named(Name),
    Numbered(i64),
    Plus,
    Minus,
    Star,
    Open,
    Close,
    Comma,
    Equals,
    LineEnd,
}

/// The reserved words. Any other word is a name.
const RESERVED: [(&[u8], Sort); 21] = [
    (b"PROGRAM", Sort::ProgramWord),
    (b"PARAMETER", Sort::ParameterWord),
    (b"INTEGER", Sort::IntegerWord),
    (b"DECOMPOSITION", Sort::DecompositionWord),
    (b"ALIGN", Sort::AlignWord),
    (b"WITH", Sort::WithWord),
    (b"DISTRIBUTE", Sort::DistributeWord),
    (b"BLOCK", Sort::BlockWord),
    (b"CYCLIC", Sort::CyclicWord),
    (b"READ", Sort::ReadWord),
    (b"OUTPUT", Sort::OutputWord),
    (b"PRINT", Sort::PrintWord),
    (b"DO", Sort::DoWord),
    (b"END", Sort::EndWord),
    (b"ENDDO", Sort::EndDoWord),
    (b"FORALL", Sort::ForallWord),
    (b"ENDFORALL", Sort::EndForallWord),
    (b"REDUCE", Sort::ReduceWord),
    (b"ADD", Sort::AddWord),
    (b"MIN", Sort::MinWord),
    (b"MAX", Sort::MaxWord),
];

fn lookup(mut table: &[(&[u8], Sort)], word: &[u8]) -> Option<Sort>
    ensures { result ≡ sort_in (map (λ r. (r.0.now, r.1)) table.entry.now) word.now }
{
    while let [entry, rest @ ..] = table {
        if entry.0 == word {
            return Some(entry.1);
        }
        table = rest;
    }
    None
}

#[tactic(auto, unfolding(crate::specs::Sorts::sort_of_word))]
fn sort_of_word(word: Name) -> Sort
    ensures { result ≡ sort_of_word word }
{
    match lookup(&RESERVED, word.as_slice()) {
        Some(sort) => sort,
        None => Sort::Named(word),
    }
}

#[tactic(auto, unfolding(crate::specs::Sorts::sort_of))]
pub fn sort_of(kind: TokenKind) -> Sort
    ensures { result ≡ sort_of kind }
{
    match kind {
        TokenKind::Word(word) => sort_of_word(word),
        TokenKind::Number(value) => Sort::Numbered(value),
        TokenKind::OpenParen => Sort::Open,
        TokenKind::CloseParen => Sort::Close,
        TokenKind::Comma => Sort::Comma,
        TokenKind::Equals => Sort::Equals,
        TokenKind::Plus => Sort::Plus,
        TokenKind::Minus => Sort::Minus,
        TokenKind::Star => Sort::Star,
        TokenKind::LineEnd => Sort::LineEnd,
    }
}

/// Whether a token is this word.
pub fn is_word(kind: TokenKind, name: Name) -> bool
    ensures { result ≡ is_word name kind }
{
    match kind {
        TokenKind::Word(word) => word.as_slice() == name.as_slice(),
        _ => false,
    }
}

/// The name that a token is.
pub fn name_of(sort: Sort) -> Option<Name>
    ensures { result ≡ name_of sort }
{
    match sort {
        Sort::Named(name) => Some(name),
        _ => None,
    }
}

/// The operator between terms.
pub fn sign_of(sort: Sort) -> Option<Arith>
    ensures { result ≡ sign_by sort }
{
    match sort {
        Sort::Plus => Some(Arith::Plus),
        Sort::Minus => Some(Arith::Minus),
        _ => None,
    }
}

/// The operator between factors.
pub fn times_of(sort: Sort) -> Option<Arith>
    ensures { result ≡ times_of sort }
{
    match sort {
        Sort::Star => Some(Arith::Times),
        _ => None,
    }
}

pub fn opens(sort: Sort) -> bool
    ensures { result ≡ opens sort }
{
    match sort {
        Sort::Open => true,
        _ => false,
    }
}
