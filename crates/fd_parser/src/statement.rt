ghost use Rattle.std.specs.Prelude.{◌≡◌, ◌≤◌, length, IfOk, IfErr};
ghost use Rattle.fd_expressions.specs.Reads.{Reads};
ghost use Rattle.fd_parser.specs.Reads.{ReadsBody};
ghost use Rattle.fd_grammar.specs.Machine.{Then, InForm, AfterCyclic, DistributeRest, PrintRest, RangeRest, DoRest, ForallRest, Close};

use crate::inner::inner_lines;
use fd_expressions::{Parser, Stop, while_some};
use fd_grammar::{Closer, Fixed, Mark, Opening, Sort, closing_of, opening_of, sort_of};
use fd_syntax::{Form, Listed, Loop, Scalar, Statement, StatementList};
use fd_words::SourcePlace;
use sqlite_items::Items;

fn form(parser: &mut Parser<'_>) -> Result<Form, Stop>
    ensures shrinks { length parser.new.rest.now ≤ length parser.old.rest.now }
    ensures reads { Reads InForm (λ f k. Then (k f)) parser.old.rest.now parser.new.rest.now result }
{
    let [token, rest @ ..] = parser.rest else {
        return Err(Stop::Wrong);
    };
    match sort_of(token.kind) {
        Sort::BlockWord => {
            parser.rest = rest;
            Ok(Form::Block)
        }
        Sort::CyclicWord => {
            parser.rest = rest;
            let form = after_cyclic(parser)?;
            Ok(form)
        }
        Sort::Named(name) => {
            parser.rest = rest;
            Ok(Form::Map { name, at: token.at })
        }
        _ => Err(Stop::Wrong),
    }
}

fn after_cyclic(parser: &mut Parser<'_>) -> Result<Form, Stop>
    ensures shrinks { length parser.new.rest.now ≤ length parser.old.rest.now }
    ensures reads { Reads (λ k. Then (AfterCyclic k)) (λ f k. Then (k f)) parser.old.rest.now parser.new.rest.now result }
{
    if parser.opened() {
        let (at, size) = parser.placed_scalar()?;
        parser.want(Mark::Close)?;
        Ok(Form::BlockCyclic { size, at })
    } else {
        Ok(Form::Cyclic)
    }
}

pub(crate) fn distribute(parser: &mut Parser<'_>, at: SourcePlace) -> Result<Statement, Stop>
    ensures shrinks { length parser.new.rest.now ≤ length parser.old.rest.now }
    ensures reads { Reads (DistributeRest at) (λ s k. k s) parser.old.rest.now parser.new.rest.now result }
{
    let listed = parser.name()?;
    parser.take(Fixed::Open)?;
    let form = form(parser)?;
    parser.want(Mark::Close)?;
    parser.want(Mark::Line)?;
    Ok(Statement::Distribute {
        at,
        name: listed.name,
        name_at: listed.at,
        form,
    })
}

fn print(parser: &mut Parser<'_>, at: SourcePlace) -> Result<Statement, Stop>
    ensures shrinks { length parser.new.rest.now ≤ length parser.old.rest.now }
    ensures reads { Reads (PrintRest at) (λ s k. k s) parser.old.rest.now parser.new.rest.now result }
{
    let listed = parser.name()?;
    parser.want(Mark::Line)?;
    Ok(Statement::Print {
        at,
        name: listed.name,
        name_at: listed.at,
    })
}

/// A variable with its bounds, and the line end behind them.
fn bounds(parser: &mut Parser<'_>) -> Result<(Listed, Scalar, Scalar), Stop>
    ensures shrinks { length parser.new.rest.now ≤ length parser.old.rest.now }
    ensures reads { Reads RangeRest (λ r k. k r.0 r.1 r.2) parser.old.rest.now parser.new.rest.now result }
{
    let variable = parser.name()?;
    parser.want(Mark::Equals)?;
    let low = parser.scalar()?;
    parser.want(Mark::Comma)?;
    let high = parser.scalar()?;
    parser.want(Mark::Line)?;
    Ok((variable, low, high))
}

fn forall(parser: &mut Parser<'_>, at: SourcePlace) -> Result<Statement, Stop>
    ensures shrinks { length parser.new.rest.now ≤ length parser.old.rest.now }
    ensures reads { Reads (ForallRest at) (λ s k. k s) parser.old.rest.now parser.new.rest.now result }
{
    let (variable, low, high) = bounds(parser)?;
    let body = inner_lines(parser, variable.name)?;
    end_of(parser, Closer::EndOfForall)?;
    parser.want(Mark::Line)?;
    Ok(Statement::Forall(Loop {
        at,
        index: variable.name,
        index_at: variable.at,
        low,
        high,
        body,
    }))
}

/// What ends the statements of a program, a DO or a FORALL.
pub(crate) fn end_of(parser: &mut Parser<'_>, closer: Closer) -> Result<(), Stop>
    ensures shrinks { length parser.new.rest.now ≤ length parser.old.rest.now }
    ensures reads { Reads (Close closer) (λ _ s. s) parser.old.rest.now parser.new.rest.now result }
{
    let [token, rest @ ..] = parser.rest else {
        return Err(Stop::Wrong);
    };
    let Some(more) = closing_of(closer, sort_of(token.kind)) else {
        return Err(Stop::Wrong);
    };
    parser.rest = rest;
    match more {
        None => Ok(()),
        Some(fixed) => parser.take(fixed),
    }
}

/// A DO and then the statements of its body.
#[cycle(statements)]
fn repeated(parser: &mut Parser<'_>, at: SourcePlace) -> Result<StatementList, Stop>
    ensures shrinks { length parser.new.rest.now ≤ length parser.old.rest.now }
    ensures reads { Reads (DoRest at) (λ ss k. k ss) parser.old.rest.now parser.new.rest.now result }
{
    let (variable, low, high) = bounds(parser)?;
    let none = Items::new(parser.alloc);
    let inner = body(parser, none)?;
    end_of(parser, Closer::EndOfDo)?;
    parser.want(Mark::Line)?;
    let inside = counted(&inner)?;
    let mut all = Items::new(parser.alloc);
    all.push(Statement::Do {
        at,
        variable: variable.name,
        variable_at: variable.at,
        low,
        high,
        inside,
    })?;
    all.append(inner)?;
    Ok(all)
}

/// The statements before the end of a program or a DO, behind earlier ones.
#[cycle(statements)]
pub(crate) fn body(parser: &mut Parser<'_>, before: StatementList) -> Result<StatementList, Stop>
    ensures shrinks { length parser.new.rest.now ≤ length parser.old.rest.now }
    ensures reads { ReadsBody before parser.old.rest.now parser.new.rest.now result }
{
    let mut statements = before;
    while_some!(parser, token, opening_of, opening => match opening {
        Opening::Blank => {}
        Opening::Distributes => statements.push(distribute(parser, token.at)?)?,
        Opening::Prints => statements.push(print(parser, token.at)?)?,
        Opening::Repeats => statements.append(repeated(parser, token.at)?)?,
        Opening::Ranges => statements.push(forall(parser, token.at)?)?,
    });
    Ok(statements)
}

/// How many statements; more than `inside` can tell are taken for want of memory.
fn counted(statements: &StatementList) -> Result<u32, Stop>
    ensures ok { IfOk result (λ count. count ≡ length statements.now) }
    ensures err { IfErr result (λ stop. stop ≡ Stop.Memory) }
{
    let count = statements.len();
    if count > u32::MAX as usize {
        return Err(Stop::Memory);
    }
    Ok(count as u32)
}
