ghost use Rattle.std.specs.Prelude.{◌≡◌, false};
ghost use Rattle.fd_parser.specs.Depth.{too_deep, next_depth, no_depth, IsFirstDeep};

use fd_grammar::{Sort, sort_of};
use fd_lexer::Token;

/// Where a token stands in its line.
#[derive(Clone, Copy)]
pub enum Spot {
    LineStart,
    BehindEnd,
    InLine,
}

/// What is open before a token: the DOs around it, the parentheses of its line, and the signs
/// `+`, `-` and `*` before it in its line.
#[derive(Clone, Copy)]
pub struct Depth {
    pub spot: Spot,
    pub dos: u32,
    pub opens: u32,
    pub signs: u32,
}

impl Depth {
    fn none() -> Depth
        ensures { result ≡ no_depth }
    {
        Depth {
            spot: Spot::LineStart,
            dos: 0,
            opens: 0,
            signs: 0,
        }
    }

    fn exceeded_by(self, sort: &Sort) -> bool
        ensures { result ≡ too_deep self sort.now }
    {
        match sort {
            Sort::DoWord => match self.spot {
                Spot::LineStart => self.dos >= 8,
                _ => false,
            },
            Sort::Open => self.opens >= 32,
            Sort::Plus | Sort::Minus | Sort::Star => self.signs >= 1024,
            _ => false,
        }
    }

    fn next(self, sort: &Sort) -> Depth
        requires { too_deep self sort.now ≡ false }
        ensures { result ≡ next_depth self sort.now }
    {
        let inside = Depth {
            spot: Spot::InLine,
            ..self
        };
        let ended = Depth {
            dos: self.dos.saturating_sub(1),
            ..inside
        };
        match sort {
            Sort::LineEnd => Depth {
                dos: self.dos,
                ..Depth::none()
            },
            Sort::Open => Depth {
                opens: self.opens + 1,
                ..inside
            },
            Sort::Close => Depth {
                opens: self.opens.saturating_sub(1),
                ..inside
            },
            Sort::Plus | Sort::Minus | Sort::Star => Depth {
                signs: self.signs + 1,
                ..inside
            },
            Sort::DoWord => match self.spot {
                Spot::LineStart => Depth {
                    dos: self.dos + 1,
                    ..inside
                },
                Spot::BehindEnd => ended,
                Spot::InLine => self,
            },
            Sort::EndWord => match self.spot {
                Spot::LineStart => Depth {
                    spot: Spot::BehindEnd,
                    ..self
                },
                _ => inside,
            },
            Sort::EndDoWord => ended,
            _ => inside,
        }
    }
}

/// The place in the list of the first token that is too deep.
pub(crate) fn first_too_deep(tokens: &[Token]) -> Option<usize>
    ensures { IsFirstDeep tokens.now result }
{
    let mut depth = Depth::none();
    for (place, token) in tokens.iter().enumerate() {
        let sort = sort_of(token.kind);
        if depth.exceeded_by(&sort) {
            return Some(place);
        }
        depth = depth.next(&sort);
    }
    None
}
