ghost use Rattle.std.specs.Prelude.{◌≡◌, All, IfOk, map};
ghost use Rattle.fd_program.specs.Scalars.{add_of, scalar_value};
ghost use Rattle.fd_program.specs.Terms.{IsTerm};
ghost use Rattle.fd_trace.specs.Sizes.{IsSmall, add_faults, adds_faults};
ghost use Rattle.fd_trace.specs.Outcomes.{outcome, IsOutcome};
ghost use Rattle.fd_trace.specs.Way.{adds_by};

use crate::scalars::{offset, term_value, value};
use fd_program::{CheckedScalar, CheckedSubscript, Reference};
use fd_words::{Memory, Numbers, SourceStop};
use std::alloc::Global;

fn add(variables: &Numbers, subscript: &CheckedSubscript) -> Result<i64, SourceStop>
    requires { All IsSmall variables.now }
    ensures { result ≡ outcome (add_of variables.now subscript.now) (add_faults variables.now subscript.now) }
{
    match subscript {
        CheckedSubscript::Plain { add } => offset(variables, add.as_slice()),
        CheckedSubscript::Through {
            index_array: _,
            at: _,
            inner_add: _,
            add,
        } => offset(variables, add.as_slice()),
        CheckedSubscript::Twice {
            outer: _,
            at: _,
            inner: _,
            inner_at: _,
            first_add: _,
            second_add: _,
            add,
        } => offset(variables, add.as_slice()),
        CheckedSubscript::Scalar(scalar) => value(variables, scalar),
    }
}

/// The numbers of the references' subscripts, or what is too large first.
pub fn adds(
    alloc: Global,
    variables: &Numbers,
    references: &[Reference],
) -> Result<Numbers, SourceStop>
    requires { All IsSmall variables.now }
    ensures { IsOutcome (adds_by variables.now references.now) (adds_faults variables.now references.now) result }
{
    let mut numbers = Numbers::new(alloc);
    for reference in references {
        match add(variables, &reference.subscript) {
            Ok(number) => match numbers.push(number) {
                Ok(()) => {}
                Err(_) => return Err(SourceStop::Memory),
            },
            Err(stop) => return Err(stop),
        }
    }
    Ok(numbers)
}

/// The values of the scalar names of the expressions.
pub fn terms(alloc: Global, variables: &Numbers, names: &[CheckedScalar]) -> Result<Numbers, Memory>
    requires { All IsTerm names.now }
    ensures { IfOk result (λ n. n ≡ map (scalar_value variables.now) names.now) }
{
    let mut numbers = Numbers::new(alloc);
    for name in names {
        numbers.push(term_value(variables, name))?;
    }
    Ok(numbers)
}
