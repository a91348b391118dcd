ghost use Rattle.std.specs.Prelude.{◌≡◌, ◌≤◌, [], length};
ghost use Rattle.fd_expressions.specs.Reads.{Reads};
ghost use Rattle.fd_parser.specs.Reads.{ReadsEnd, ReadsAll};
ghost use Rattle.fd_grammar.specs.declared.opening.Closer.TheVariants.{EndOfProgram};
ghost use Rattle.fd_grammar.specs.Machine.{Begin, Head, Body};

use crate::declaration::{align_line, integer_line, listed_names, parameter_line, sized_names};
use crate::statement::{body, distribute, end_of};
use fd_expressions::{Parser, Stop, while_some};
use fd_grammar::{Closer, Heading, Mark, Sort, heading_of, sort_of};
use fd_syntax::{Declaration, DeclarationList, Program, StatementList};
use sqlite_items::Items;

pub(crate) fn program(parser: &mut Parser<'_>) -> Result<Program, Stop>
    ensures { ReadsAll parser.old.rest.now parser.new.rest.now result }
{
    begin(parser)?;
    let listed = parser.name()?;
    parser.want(Mark::Line)?;
    let (declarations, first) = head(parser)?;
    let statements = body(parser, first)?;
    end_of(parser, Closer::EndOfProgram)?;
    end_of_text(parser)?;
    Ok(Program {
        name: listed.name,
        declarations,
        statements,
    })
}

fn begin(parser: &mut Parser<'_>) -> Result<(), Stop>
    ensures { Reads Begin (λ _ s. s) parser.old.rest.now parser.new.rest.now result }
{
    while let [token, rest @ ..] = parser.rest {
        match sort_of(token.kind) {
            Sort::LineEnd => parser.rest = rest,
            Sort::ProgramWord => {
                parser.rest = rest;
                return Ok(());
            }
            _ => break,
        }
    }
    Err(Stop::Wrong)
}

/// The declarations, and the DISTRIBUTEs between them.
fn head(parser: &mut Parser<'_>) -> Result<(DeclarationList, StatementList), Stop>
    ensures { Reads (Head [] []) (λ x k. Body EndOfProgram x.1 (k x.0)) parser.old.rest.now parser.new.rest.now result }
{
    let mut declarations = Items::new(parser.alloc);
    let mut statements = Items::new(parser.alloc);
    while_some!(parser, token, heading_of, heading => match heading {
        Heading::Blank => {}
        Heading::Parameters => declarations.push(parameter_line(parser)?)?,
        Heading::Integers => declarations.push(integer_line(parser)?)?,
        Heading::Decompositions => declarations.push(Declaration::Decomposition(sized_names(parser)?))?,
        Heading::Aligns => declarations.push(align_line(parser)?)?,
        Heading::Reads => declarations.push(Declaration::Read(listed_names(parser)?))?,
        Heading::Outputs => declarations.push(Declaration::Output(listed_names(parser)?))?,
        Heading::Distributes => statements.push(distribute(parser, token.at)?)?,
    });
    Ok((declarations, statements))
}

fn end_of_text(parser: &mut Parser<'_>) -> Result<(), Stop>
    ensures { ReadsEnd parser.old.rest.now parser.new.rest.now result }
{
    while let [token, rest @ ..] = parser.rest {
        match sort_of(token.kind) {
            Sort::LineEnd => parser.rest = rest,
            _ => return Err(Stop::Wrong),
        }
    }
    Ok(())
}
