ghost use Rattle.std.specs.Prelude.{◌≡◌, ◌≤◌, length};
ghost use Rattle.fd_front.specs.Sources.{IsParsed, IsResolved, IsReadAs};

use fd_checks::check;
use fd_lexer::{TokenList, tokens};
use fd_parser::parse;
use fd_program::{Checked, Trace};
use fd_syntax::Program;
use fd_trace::unroll;
use fd_words::SourceStop;
use std::alloc::Global;

/// A source that was accepted: its tokens, the program that they spell, the program with its names resolved, and its
/// steps.
#[derive(Drop)]
pub struct Source {
    pub tokens: TokenList,
    pub program: Program,
    pub checked: Checked,
    pub trace: Trace,
}

/// The tokens of a text, and the program that they spell.
fn parsed(alloc: Global, text: &[u8]) -> Result<(TokenList, Program), SourceStop>
    requires { length text.now ≤ 1048576 }
    ensures { IsParsed text.now result }
{
    let tokens = tokens(alloc, text)?;
    let program = parse(alloc, &tokens)?;
    Ok((tokens, program))
}

/// The checked program and its steps.
fn resolved(alloc: Global, program: &Program) -> Result<(Checked, Trace), SourceStop>
    ensures { IsResolved program.now result }
{
    let checked = check(alloc, program)?;
    let trace = unroll(alloc, &checked)?;
    Ok((checked, trace))
}

/// Reads the text of a source: its tokens, the program that they spell, that program checked, and its steps. The
/// answer to a text that isn't accepted is its first fault: the first pass that has one counts.
pub fn read_source(alloc: Global, text: &[u8]) -> Result<Source, SourceStop>
    requires { length text.now ≤ 1048576 }
    ensures { IsReadAs text.now result }
{
    let (tokens, program) = match parsed(alloc, text) {
        Ok(found) => found,
        Err(stop) => return Err(stop),
    };
    match resolved(alloc, &program) {
        Ok((checked, trace)) => Ok(Source {
            tokens,
            program,
            checked,
            trace,
        }),
        Err(stop) => Err(stop),
    }
}
