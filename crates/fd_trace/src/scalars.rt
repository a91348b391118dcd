ghost use Rattle.std.specs.Prelude.{◌≡◌, pos, All};
ghost use Rattle.fd_program.specs.Scalars.{scalar_value, offset_value};
ghost use Rattle.fd_program.specs.Stores.{number_at};
ghost use Rattle.fd_program.specs.Terms.{IsTerm};
ghost use Rattle.fd_trace.specs.Sizes.{is_large, large, IsSmall, scalar_faults, offset_faults};
ghost use Rattle.fd_trace.specs.Outcomes.{outcome, opposed, joined_scalars, term_joined};

use fd_program::{CheckedScalar, CheckedTerm};
use fd_words::{Arith, Numbers, SourceCause, SourceFault, SourcePlace, SourceStop, negated};

/// The greatest size of a scalar value.
const MOST: i128 = 1_099_511_627_776;

fn is_too_large(value: i128) -> bool
    ensures { result ≡ is_large value }
{
    value > MOST || value < -MOST
}

/// A value, where it isn't too large.
fn sized(at: SourcePlace, value: i128) -> Result<i64, SourceStop>
    ensures { result ≡ outcome value (large at value) }
{
    if is_too_large(value) {
        let cause = SourceCause::ScalarTooLarge;
        return Err(SourceStop::Fault(SourceFault { at, cause }));
    }
    Ok(value as i64)
}

fn variable(variables: &Numbers, depth: u32) -> i64
    ensures { result ≡ number_at variables.now depth }
{
    variables.get(u64::from(depth)).unwrap_or(0)
}

fn oppose(value: Result<i64, SourceStop>) -> Result<i64, SourceStop>
    ensures { result ≡ opposed value }
{
    match value {
        Ok(value) => Ok(negated(value)),
        Err(stop) => Err(stop),
    }
}

fn join(
    op: Arith,
    at: SourcePlace,
    left: Result<i64, SourceStop>,
    right: Result<i64, SourceStop>,
) -> Result<i64, SourceStop>
    ensures { result ≡ joined_scalars op at left right }
{
    match left {
        Ok(left) => match right {
            Ok(right) => sized(at, op.exact(left, right)),
            Err(stop) => Err(stop),
        },
        Err(stop) => Err(stop),
    }
}

/// The value of a scalar, or what is too large first.
pub fn value(variables: &Numbers, scalar: &CheckedScalar) -> Result<i64, SourceStop>
    requires { All IsSmall variables.now }
    ensures { result ≡ outcome (scalar_value variables.now scalar.now) (scalar_faults variables.now scalar.now) }
{
    match scalar {
        CheckedScalar::Number { value, at } => sized(*at, i128::from(*value)),
        CheckedScalar::Variable { depth, at: _ } => Ok(variable(variables, *depth)),
        CheckedScalar::Negate { at: _, inner } => oppose(value(variables, inner.get())),
        CheckedScalar::Binary {
            op,
            at,
            left,
            right,
        } => join(
            *op,
            *at,
            value(variables, left.get()),
            value(variables, right.get()),
        ),
    }
}

/// The value of a scalar name.
pub fn term_value(variables: &Numbers, term: &CheckedScalar) -> i64
    requires { IsTerm term.now }
    ensures { result ≡ scalar_value variables.now term.now }
{
    match term {
        CheckedScalar::Number { value, at: _ } => *value,
        CheckedScalar::Variable { depth, at: _ } => variable(variables, *depth),
        CheckedScalar::Negate { at: _, inner: _ } => unreachable!(),
        CheckedScalar::Binary {
            op: _,
            at: _,
            left: _,
            right: _,
        } => unreachable!(),
    }
}

fn add_term(
    variables: &Numbers,
    total: Result<i64, SourceStop>,
    term: &CheckedTerm,
) -> Result<i64, SourceStop>
    requires { All IsSmall variables.now }
    ensures { result ≡ term_joined variables.now total term.now }
{
    let scalar = value(variables, &term.scalar);
    join(Arith::of_sign(term.minus), term.at, total, scalar)
}

/// The value of an offset, or what is too large first.
pub fn offset(variables: &Numbers, terms: &[CheckedTerm]) -> Result<i64, SourceStop>
    requires { All IsSmall variables.now }
    ensures { result ≡ outcome (offset_value variables.now (pos 0) terms.now) (offset_faults variables.now (pos 0) terms.now) }
{
    let mut total = Ok(0);
    for term in terms {
        total = add_term(variables, total, term);
    }
    total
}
