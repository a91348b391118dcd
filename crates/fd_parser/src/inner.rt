ghost use Rattle.std.specs.Prelude.{◌≡◌, ◌≤◌, [], ◌∷◌, length};
ghost use Rattle.fd_expressions.specs.Reads.{Reads};
ghost use Rattle.fd_parser.specs.Reads.{ReadsInner};
ghost use Rattle.fd_grammar.specs.Machine.{Operator, AssignRest, ReduceRest, ReduceTarget, FirstInner, MoreInner};

use fd_expressions::{Parser, Stop, while_some};
use fd_grammar::{Fixed, InnerOpening, Mark, Sort, inner_opening_of, sort_of};
use fd_syntax::{BodyList, BodyStatement};
use fd_words::{Combine, Name, SourcePlace};
use sqlite_items::Items;

fn operator(parser: &mut Parser<'_>) -> Result<Combine, Stop>
    ensures shrinks { length parser.new.rest.now ≤ length parser.old.rest.now }
    ensures reads { Reads Operator (λ op k. k op) parser.old.rest.now parser.new.rest.now result }
{
    let [token, rest @ ..] = parser.rest else {
        return Err(Stop::Wrong);
    };
    let operator = match sort_of(token.kind) {
        Sort::AddWord => Combine::Add,
        Sort::MinWord => Combine::Min,
        Sort::MaxWord => Combine::Max,
        _ => return Err(Stop::Wrong),
    };
    parser.rest = rest;
    Ok(operator)
}

fn assign(
    parser: &mut Parser<'_>,
    index: Name,
    name: Name,
    at: SourcePlace,
) -> Result<BodyStatement, Stop>
    ensures shrinks { length parser.new.rest.now ≤ length parser.old.rest.now }
    ensures reads { Reads (AssignRest index name at) (λ s k. k s) parser.old.rest.now parser.new.rest.now result }
{
    parser.take(Fixed::Open)?;
    let target = parser.in_element(index, name, at)?;
    parser.want(Mark::Equals)?;
    let value = parser.expr(index)?;
    parser.want(Mark::Line)?;
    Ok(BodyStatement::Assign { target, value })
}

fn reduce(parser: &mut Parser<'_>, index: Name) -> Result<BodyStatement, Stop>
    ensures shrinks { length parser.new.rest.now ≤ length parser.old.rest.now }
    ensures reads { Reads (ReduceRest index) (λ s k. k s) parser.old.rest.now parser.new.rest.now result }
{
    parser.take(Fixed::Open)?;
    let operator = operator(parser)?;
    parser.want(Mark::Comma)?;
    let statement = reduce_target(parser, index, operator)?;
    Ok(statement)
}

fn reduce_target(
    parser: &mut Parser<'_>,
    index: Name,
    operator: Combine,
) -> Result<BodyStatement, Stop>
    ensures shrinks { length parser.new.rest.now ≤ length parser.old.rest.now }
    ensures reads { Reads (ReduceTarget index operator) (λ s k. k s) parser.old.rest.now parser.new.rest.now result }
{
    let listed = parser.name()?;
    parser.take(Fixed::Open)?;
    let target = parser.in_element(index, listed.name, listed.at)?;
    parser.want(Mark::Comma)?;
    let value = parser.expr(index)?;
    parser.want(Mark::Close)?;
    parser.want(Mark::Line)?;
    Ok(BodyStatement::Reduce {
        operator,
        target,
        value,
    })
}

/// The first line of a FORALL's body.
fn first_inner(parser: &mut Parser<'_>, index: Name) -> Result<BodyStatement, Stop>
    ensures shrinks { length parser.new.rest.now ≤ length parser.old.rest.now }
    ensures reads { Reads (FirstInner index) (λ s k. MoreInner index (s ∷ []) k) parser.old.rest.now parser.new.rest.now result }
{
    while_some!(parser, token, inner_opening_of, opening => match opening {
        InnerOpening::Blank => {}
        InnerOpening::Assigns(name) => return assign(parser, index, name, token.at),
        InnerOpening::Reduces => return reduce(parser, index),
    });
    Err(Stop::Wrong)
}

/// The lines of a FORALL's body, one or more.
pub(crate) fn inner_lines(parser: &mut Parser<'_>, index: Name) -> Result<BodyList, Stop>
    ensures shrinks { length parser.new.rest.now ≤ length parser.old.rest.now }
    ensures reads { ReadsInner index parser.old.rest.now parser.new.rest.now result }
{
    let mut statements = Items::new(parser.alloc);
    let first = first_inner(parser, index)?;
    statements.push(first)?;
    while_some!(parser, token, inner_opening_of, opening => match opening {
        InnerOpening::Blank => {}
        InnerOpening::Assigns(name) => statements.push(assign(parser, index, name, token.at)?)?,
        InnerOpening::Reduces => statements.push(reduce(parser, index)?)?,
    });
    Ok(statements)
}
