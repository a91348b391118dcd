ghost use Rattle.std.specs.Prelude.{◌≡◌};
ghost use Rattle.fd_grammar.specs.Machine.{is_mark, is_fixed};

use crate::sort::Sort;

/// A token that may stand behind an expression or a list.
#[derive(Clone, Copy, Debug, PartialEq, Eq)]
pub enum Mark {
    Close,
    Comma,
    Equals,
    Line,
    With,
}

/// A token that stands behind a word or a name.
#[derive(Clone, Copy, Debug, PartialEq, Eq)]
pub enum Fixed {
    Open,
    Star,
    Eight,
    Do,
    Forall,
}

impl Mark {
    pub fn is(self, sort: Sort) -> bool
        ensures { result ≡ is_mark self sort }
    {
        matches!(
            (self, sort),
            (Mark::Close, Sort::Close)
                | (Mark::Comma, Sort::Comma)
                | (Mark::Equals, Sort::Equals)
                | (Mark::Line, Sort::LineEnd)
                | (Mark::With, Sort::WithWord)
        )
    }
}

impl Fixed {
    pub fn is(self, sort: Sort) -> bool
        ensures { result ≡ is_fixed self sort }
    {
        match (self, sort) {
            (Fixed::Open, Sort::Open) => true,
            (Fixed::Star, Sort::Star) => true,
            (Fixed::Eight, Sort::Numbered(value)) => value == 8,
            (Fixed::Do, Sort::DoWord) => true,
            (Fixed::Forall, Sort::ForallWord) => true,
            _ => false,
        }
    }
}
