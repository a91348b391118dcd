ghost use Rattle.std.specs.Prelude.{◌≡◌, ◌++◌, pos, neg_ℤ, OnOk, IfOk, Some, not, is_some};
ghost use Rattle.fd_words.specs.Operators.{sign_of};
ghost use Rattle.fd_scope.specs.Names.{known, as_constant};
ghost use Rattle.std.specs.Option.{option_map};
ghost use Rattle.fd_scope.specs.Scalars.{is_large, both, sized, within, large_faults, name_faults, no_scalar, scalar_within};
ghost use Rattle.fd_scope.specs.Scalars.{constant_value};
ghost use Rattle.fd_scope.specs.Scalars.{scalar_faults, term_faults, offset_within, offset_faults};

use crate::{Faults, Known, LoopNames, Meaning, Names};
use fd_syntax::{Scalar, Term};
use fd_words::{Arith, Memory, Name, SourceCause, SourcePlace};

/// The greatest size of a scalar value.
const MOST: i128 = 1_099_511_627_776;

fn large(value: i128) -> bool
    ensures { result ≡ is_large value }
{
    value > MOST || value < -MOST
}

/// A name as a constant: none where it is no constant, and no value where its own is at fault.
pub fn constant(known: Option<Known>) -> Option<Option<i64>>
    ensures { result ≡ as_constant known }
{
    match known {
        Some(known) => match known.meaning {
            Meaning::Constant(value) => Some(value),
            Meaning::Array(_) => None,
            Meaning::Decomposition(_) => None,
        },
        None => None,
    }
}

fn negate(value: Option<i64>) -> Option<i64>
    ensures { result ≡ within (option_map neg_ℤ value) }
{
    match value {
        Some(value) => sized_value(Arith::Minus.exact(0, value)),
        None => None,
    }
}

fn operate(op: Arith, left: Option<i64>, right: Option<i64>) -> Option<i128>
    ensures { result ≡ both op left right }
{
    match (left, right) {
        (Some(left), Some(right)) => Some(op.exact(left, right)),
        _ => None,
    }
}

fn sized_value(value: i128) -> Option<i64>
    ensures { result ≡ sized value }
{
    if large(value) {
        None
    } else {
        Some(value as i64)
    }
}

/// Notes a value that is too large.
fn settle(faults: &mut Faults, at: SourcePlace, value: Option<i128>) -> Result<Option<i64>, Memory>
    ensures value { IfOk result (λ v. v ≡ within value) }
    ensures noted { OnOk result (faults.new ≡ faults.old ++ large_faults at value) }
{
    match value {
        None => Ok(None),
        Some(value) => {
            faults.note_if(large(value), at, SourceCause::ScalarTooLarge)?;
            Ok(sized_value(value))
        }
    }
}

/// Why a name is no scalar: it is the name of a loop somewhere, or unknown.
pub fn not_scalar(loops: &LoopNames, name: Name) -> SourceCause
    ensures { result ≡ no_scalar loops.now name }
{
    if loops.has(name) {
        SourceCause::NotIndex(name)
    } else {
        SourceCause::Unknown(name)
    }
}

/// Notes a name that is no scalar.
fn want_scalar(
    loops: &LoopNames,
    faults: &mut Faults,
    known: Option<Option<i64>>,
    name: Name,
    at: SourcePlace,
) -> Result<(), Memory>
    ensures noted { OnOk result (faults.new ≡ faults.old ++ name_faults loops.now known name at) }
{
    let cause = not_scalar(loops, name);
    faults.note_if(known.is_none(), at, cause)
}

/// The value of a constant.
pub fn value_known(known: Option<Option<i64>>) -> Option<i64>
    ensures { result ≡ constant_value known }
{
    match known {
        Some(value) => value,
        None => None,
    }
}

/// The value of a scalar of a declaration, if it has one.
pub fn declared_value(
    names: &Names,
    here: SourcePlace,
    loops: &LoopNames,
    faults: &mut Faults,
    scalar: &Scalar,
) -> Result<Option<i64>, Memory>
    ensures value { IfOk result (λ v. v ≡ scalar_within names.now here scalar.now) }
    ensures noted { OnOk result (faults.new ≡ faults.old ++ scalar_faults names.now here loops.now scalar.now) }
{
    match scalar {
        Scalar::Number { value, at } => settle(faults, *at, Some(i128::from(*value))),
        Scalar::Named { name, at } => {
            let known = constant(names.known(here, *name));
            want_scalar(loops, faults, known, *name, *at)?;
            Ok(value_known(known))
        }
        Scalar::Negate { inner, .. } => {
            let value = declared_value(names, here, loops, faults, inner.get())?;
            Ok(negate(value))
        }
        Scalar::Binary {
            op,
            at,
            left,
            right,
        } => {
            let left = declared_value(names, here, loops, faults, left.get())?;
            let right = declared_value(names, here, loops, faults, right.get())?;
            settle(faults, *at, operate(*op, left, right))
        }
    }
}

fn add_term(
    names: &Names,
    here: SourcePlace,
    loops: &LoopNames,
    faults: &mut Faults,
    total: Option<i64>,
    term: &Term,
) -> Result<Option<i64>, Memory>
    ensures value { IfOk result (λ v. v ≡ within (both (sign_of term.now.minus) total (scalar_within names.now here term.now.scalar))) }
    ensures noted { OnOk result (faults.new ≡ faults.old ++ term_faults names.now here loops.now total term.now) }
{
    let value = declared_value(names, here, loops, faults, &term.scalar)?;
    settle(
        faults,
        term.at,
        operate(Arith::of_sign(term.minus), total, value),
    )
}

/// The value of an offset of a declaration, if it has one.
pub fn declared_offset(
    names: &Names,
    here: SourcePlace,
    loops: &LoopNames,
    faults: &mut Faults,
    terms: &[Term],
) -> Result<Option<i64>, Memory>
    ensures value { IfOk result (λ v. v ≡ offset_within names.now here (Some (pos 0)) terms.now) }
    ensures noted { OnOk result (faults.new ≡ faults.old ++ offset_faults names.now here loops.now (Some (pos 0)) terms.now) }
{
    let mut total = Some(0);
    for term in terms {
        total = add_term(names, here, loops, faults, total, term)?;
    }
    Ok(total)
}
