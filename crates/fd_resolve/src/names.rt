ghost use Rattle.std.specs.Prelude.{◌≡◌, ◌++◌, position, OnOk, IfOk};
ghost use Rattle.fd_scope.specs.Names.{name_eq};
ghost use Rattle.fd_resolve.specs.Resolve.{depth_of, constant_of, array_called, array_or_first, is_scalar, scalar_unknown, array_unknown};
ghost use Rattle.fd_resolve.specs.Resolve.{name_resolved, named};

use crate::{Around, Made};
use fd_program::CheckedScalar;
use fd_scope::{Faults, Head, array_number, constant, narrow, not_scalar, value_known};
use fd_words::{Name, SourceCause, SourcePlace};

/// Two names are one.
pub fn same_name(name: Name, other: Name) -> bool
    ensures { result ≡ name_eq name other }
{
    name.as_slice() == other.as_slice()
}

fn place_among(variables: &[Name], name: Name) -> Option<usize>
    ensures { result ≡ position (name_eq name) variables.now }
{
    variables.iter().position(|other| same_name(name, *other))
}

/// How many DOs are around the one whose variable a name is.
pub fn depth(around: &Around, name: Name) -> Made<Option<u32>>
    ensures { IfOk result (λ d. d ≡ depth_of around.now name) }
{
    match place_among(around.variables.as_slice(), name) {
        Some(place) => {
            let depth = narrow(place)?;
            Ok(Some(depth))
        }
        None => Ok(None),
    }
}

/// A name as a constant.
pub fn constant_named(head: &Head, around: &Around, name: Name) -> Option<Option<i64>>
    ensures { result ≡ constant_of head.now around.now name }
{
    constant(head.scope.names.known(around.here, name))
}

/// The number of the array of a name.
pub fn array_named(head: &Head, around: &Around, name: Name) -> Option<u32>
    ensures { result ≡ array_called head.now around.now name }
{
    array_number(head.scope.names.known(around.here, name))
}

/// The same, 0 where it is no array.
pub fn array_or_zero(head: &Head, around: &Around, name: Name) -> u32
    ensures { result ≡ array_or_first head.now around.now name }
{
    array_named(head, around, name).unwrap_or(0)
}

fn is_known_scalar(head: &Head, around: &Around, name: Name) -> bool
    ensures { result ≡ is_scalar head.now around.now name }
{
    let place = place_among(around.variables.as_slice(), name);
    place.is_some() || constant_named(head, around, name).is_some()
}

/// Notes a name that is no scalar here.
pub fn note_name(
    head: &Head,
    around: &Around,
    faults: &mut Faults,
    name: Name,
    at: SourcePlace,
) -> Made<()>
    ensures noted { OnOk result (faults.new ≡ faults.old ++ scalar_unknown head.now around.now name at) }
{
    let is_known = is_known_scalar(head, around, name);
    faults.note_if(!is_known, at, not_scalar(&head.loops, name))
}

/// Notes a name that is no array here.
pub fn note_array(
    head: &Head,
    around: &Around,
    faults: &mut Faults,
    name: Name,
    at: SourcePlace,
) -> Made<()>
    ensures noted { OnOk result (faults.new ≡ faults.old ++ array_unknown head.now around.now name at) }
{
    let is_known = array_named(head, around, name).is_some();
    faults.note_if(!is_known, at, SourceCause::Unknown(name))
}

fn resolved_name(depth: Option<u32>, value: Option<i64>, at: SourcePlace) -> CheckedScalar
    ensures { result ≡ name_resolved depth value at }
{
    match depth {
        Some(depth) => CheckedScalar::Variable { depth, at },
        None => CheckedScalar::Number {
            value: value.unwrap_or(0),
            at,
        },
    }
}

/// A scalar name with its meaning.
pub fn resolve_name(
    head: &Head,
    around: &Around,
    name: Name,
    at: SourcePlace,
) -> Made<CheckedScalar>
    ensures { IfOk result (λ s. s ≡ named head.now around.now name at) }
{
    let depth = depth(around, name)?;
    let value = value_known(constant_named(head, around, name));
    Ok(resolved_name(depth, value, at))
}
