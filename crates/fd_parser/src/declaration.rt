ghost use Rattle.std.specs.Prelude.{◌≡◌, ◌≤◌, ◌<◌, true, List, [], ◌∷◌, length};
ghost use Rattle.fd_expressions.specs.Reads.{Reads};
ghost use Rattle.fd_parser.specs.Begun.{BehindItems};
ghost use Rattle.fd_grammar.specs.Machine.{State, Item, Value, run, Then, InItem, InItems, MoreItems, ParameterItem, SizedItem};
ghost use Rattle.fd_grammar.specs.Machine.{ListedItem, AlignedItem, ParameterRest, IntegerRest, AlignRest, AlignTarget};

use fd_expressions::{Parser, Stop};
use fd_grammar::{Fixed, Mark, sort_of};
use fd_syntax::{
    Declaration, Listed, ListedList, Parameter, ParameterList, SizedName, SizedNameList,
};
use fd_words::Name;
use sqlite_items::Items;

/// Takes a comma, if one follows.
fn comma(parser: &mut Parser<'_>) -> bool
    ensures shrinks { length parser.new.rest.now ≤ length parser.old.rest.now }
    ensures moves { result ≡ true → length parser.new.rest.now < length parser.old.rest.now }
    ensures reads { (i : Item) (xs : List (Value i)) (k : List (Value i) → State) → run parser.old.rest.now (Then (MoreItems i xs k))
        ≡ run parser.new.rest.now (BehindItems result i xs k) }
{
    match parser.rest {
        [token, rest @ ..] if Mark::Comma.is(sort_of(token.kind)) => {
            parser.rest = rest;
            true
        }
        _ => false,
    }
}

/// A list with commas, behind the first of it, and the mark that ends it.
macro_rules! listed {
    ($parser:ident, $one:expr, $mark:expr) => {
        listed!($parser, $one, $one, $mark)
    };
    ($parser:ident, $first:expr, $one:expr, $mark:expr) => {{
        let mut items = Items::new($parser.alloc);
        let item = $first;
        items.push(item)?;
        while comma($parser) {
            let item = $one;
            items.push(item)?;
        }
        $parser.want($mark)?;
        Ok(items)
    }};
}

fn parameter(parser: &mut Parser<'_>) -> Result<Parameter, Stop>
    ensures shrinks { length parser.new.rest.now ≤ length parser.old.rest.now }
    ensures reads { Reads (InItem ParameterItem) (λ x k. Then (k x)) parser.old.rest.now parser.new.rest.now result }
{
    let listed = parser.name()?;
    parser.want(Mark::Equals)?;
    let value = parser.scalar()?;
    Ok(Parameter {
        name: listed.name,
        at: listed.at,
        value,
    })
}

/// The constants of a PARAMETER line, and the parenthesis behind them.
fn parameters(parser: &mut Parser<'_>) -> Result<ParameterList, Stop>
    ensures shrinks { length parser.new.rest.now ≤ length parser.old.rest.now }
    ensures reads { Reads (InItems ParameterItem) (λ xs k. k xs) parser.old.rest.now parser.new.rest.now result }
{
    listed!(parser, parameter(parser)?, Mark::Close)
}

fn aligned(parser: &mut Parser<'_>, dummy: Name) -> Result<Listed, Stop>
    ensures shrinks { length parser.new.rest.now ≤ length parser.old.rest.now }
    ensures reads { Reads (InItem (AlignedItem dummy)) (λ x k. Then (k x)) parser.old.rest.now parser.new.rest.now result }
{
    let listed = parser.name()?;
    parser.take(Fixed::Open)?;
    parser.same_name(dummy)?;
    parser.want(Mark::Close)?;
    Ok(listed)
}

/// The arrays of an ALIGN from the second on, behind the first, and the word behind them.
fn more_aligned(parser: &mut Parser<'_>, dummy: Name, first: Listed) -> Result<ListedList, Stop>
    ensures shrinks { length parser.new.rest.now ≤ length parser.old.rest.now }
    ensures reads { Reads (λ k. Then (MoreItems (AlignedItem dummy) (first ∷ []) k)) (λ xs k. k xs) parser.old.rest.now
        parser.new.rest.now result }
{
    listed!(parser, first, aligned(parser, dummy)?, Mark::With)
}

fn sized_name(parser: &mut Parser<'_>) -> Result<SizedName, Stop>
    ensures shrinks { length parser.new.rest.now ≤ length parser.old.rest.now }
    ensures reads { Reads (InItem SizedItem) (λ x k. Then (k x)) parser.old.rest.now parser.new.rest.now result }
{
    let listed = parser.name()?;
    parser.take(Fixed::Open)?;
    let (extent_at, extent) = parser.placed_scalar()?;
    parser.want(Mark::Close)?;
    Ok(SizedName {
        name: listed.name,
        at: listed.at,
        extent,
        extent_at,
    })
}

/// Names with extents, and the line end behind them.
pub(crate) fn sized_names(parser: &mut Parser<'_>) -> Result<SizedNameList, Stop>
    ensures shrinks { length parser.new.rest.now ≤ length parser.old.rest.now }
    ensures reads { Reads (InItems SizedItem) (λ xs k. k xs) parser.old.rest.now parser.new.rest.now result }
{
    listed!(parser, sized_name(parser)?, Mark::Line)
}

/// Names, and the line end behind them.
pub(crate) fn listed_names(parser: &mut Parser<'_>) -> Result<ListedList, Stop>
    ensures shrinks { length parser.new.rest.now ≤ length parser.old.rest.now }
    ensures reads { Reads (InItems ListedItem) (λ xs k. k xs) parser.old.rest.now parser.new.rest.now result }
{
    listed!(parser, parser.name()?, Mark::Line)
}

pub(crate) fn parameter_line(parser: &mut Parser<'_>) -> Result<Declaration, Stop>
    ensures shrinks { length parser.new.rest.now ≤ length parser.old.rest.now }
    ensures reads { Reads ParameterRest (λ d k. k d) parser.old.rest.now parser.new.rest.now result }
{
    parser.take(Fixed::Open)?;
    let list = parameters(parser)?;
    parser.want(Mark::Line)?;
    Ok(Declaration::Parameter(list))
}

pub(crate) fn integer_line(parser: &mut Parser<'_>) -> Result<Declaration, Stop>
    ensures shrinks { length parser.new.rest.now ≤ length parser.old.rest.now }
    ensures reads { Reads IntegerRest (λ d k. k d) parser.old.rest.now parser.new.rest.now result }
{
    parser.take(Fixed::Star)?;
    parser.take(Fixed::Eight)?;
    let list = sized_names(parser)?;
    Ok(Declaration::Integer(list))
}

pub(crate) fn align_line(parser: &mut Parser<'_>) -> Result<Declaration, Stop>
    ensures shrinks { length parser.new.rest.now ≤ length parser.old.rest.now }
    ensures reads { Reads AlignRest (λ d k. k d) parser.old.rest.now parser.new.rest.now result }
{
    let first = parser.name()?;
    parser.take(Fixed::Open)?;
    let dummy = parser.name()?;
    parser.want(Mark::Close)?;
    let arrays = more_aligned(parser, dummy.name, first)?;
    let declaration = align_with(parser, dummy.name, arrays)?;
    Ok(declaration)
}

/// What arrays are aligned with, behind WITH.
fn align_with(parser: &mut Parser<'_>, dummy: Name, arrays: ListedList) -> Result<Declaration, Stop>
    ensures shrinks { length parser.new.rest.now ≤ length parser.old.rest.now }
    ensures reads { Reads (AlignTarget dummy arrays) (λ d k. k d) parser.old.rest.now parser.new.rest.now result }
{
    let target = parser.name()?;
    parser.take(Fixed::Open)?;
    parser.same_name(dummy)?;
    let add = parser.offset()?;
    parser.want(Mark::Close)?;
    parser.want(Mark::Line)?;
    Ok(Declaration::Align {
        arrays,
        dummy,
        target: target.name,
        target_at: target.at,
        add,
    })
}
