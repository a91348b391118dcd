ghost use Rattle.std.specs.Prelude.{◌≡◌};
ghost use Rattle.fd_parser.specs.Answer.{IsAnswer, IsAnyAnswer, answer_to, deep_stop};

use crate::depth::first_too_deep;
use crate::program::program;
use fd_expressions::{Parser, Stop};
use fd_lexer::{Token, TokenList};
use fd_syntax::Program;
use fd_words::{SourceCause, SourceFault, SourcePlace, SourceStop};
use std::alloc::Global;

/// The one program that has these tokens, or their first fault.
pub fn parse(alloc: Global, tokens: &TokenList) -> Result<Program, SourceStop>
    ensures { IsAnswer tokens.now.tokens tokens.now.end result }
{
    parse_tokens(alloc, tokens.tokens.as_slice(), tokens.end)
}

fn parse_tokens(alloc: Global, tokens: &[Token], end: SourcePlace) -> Result<Program, SourceStop>
    ensures { IsAnswer tokens.now end result }
{
    match first_too_deep(tokens) {
        None => {
            let found = parse_any(alloc, tokens);
            answer_to(found, end)
        }
        Some(deep) => {
            let found = parse_any(alloc, &tokens[..=deep]);
            Err(deep_stop(&found, tokens[deep]))
        }
    }
}

/// Why tokens are no program, however deep they may be, or none is given.
#[derive(Clone, Copy)]
enum Trouble {
    Memory,
    NoEnd,
    Unexpected(Token),
}

/// The answer to tokens none of which is too deep.
fn answer_to(found: Result<Program, Trouble>, end: SourcePlace) -> Result<Program, SourceStop>
    ensures { result ≡ answer_to found end }
{
    match found {
        Ok(program) => Ok(program),
        Err(Trouble::Memory) => Err(SourceStop::Memory),
        Err(Trouble::NoEnd) => Err(fault(end, SourceCause::NoEnd)),
        Err(Trouble::Unexpected(token)) => Err(fault(token.at, SourceCause::Unexpected)),
    }
}

/// The stop of tokens whose last is the first that is too deep.
fn deep_stop(found: &Result<Program, Trouble>, last: Token) -> SourceStop
    ensures { result ≡ deep_stop found.now last }
{
    match found {
        Err(Trouble::Memory) => SourceStop::Memory,
        Err(Trouble::Unexpected(token)) => fault(token.at, SourceCause::Unexpected),
        Ok(_) | Err(Trouble::NoEnd) => fault(last.at, SourceCause::TooDeep),
    }
}

fn fault(at: SourcePlace, cause: SourceCause) -> SourceStop
    ensures { result ≡ SourceStop.Fault (record { at = at; cause = cause }) }
{
    SourceStop::Fault(SourceFault { at, cause })
}

/// The answer, however deep the tokens are.
fn parse_any(alloc: Global, tokens: &[Token]) -> Result<Program, Trouble>
    ensures { IsAnyAnswer tokens.now result }
{
    let mut parser = Parser {
        alloc,
        rest: tokens,
    };
    match program(&mut parser) {
        Ok(program) => Ok(program),
        Err(Stop::Memory) => Err(Trouble::Memory),
        Err(Stop::Wrong) => match parser.rest {
            [] => Err(Trouble::NoEnd),
            [token, ..] => Err(Trouble::Unexpected(*token)),
        },
    }
}
