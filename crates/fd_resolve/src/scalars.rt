ghost use Rattle.std.specs.Prelude.{◌≡◌, ◌++◌, OnOk, IfOk};
ghost use Rattle.fd_resolve.specs.Resolve.{resolved_scalar, scalar_unknowns};

use crate::names::{note_name, resolve_name};
use crate::{Around, Made};
use fd_program::CheckedScalar;
use fd_scope::{Faults, Head};
use fd_syntax::Scalar;
use std::alloc::Global;

/// A scalar of a statement, with its names resolved.
pub fn resolve(alloc: Global, head: &Head, around: &Around, scalar: &Scalar) -> Made<CheckedScalar>
    ensures { IfOk result (λ s. s ≡ resolved_scalar head.now around.now scalar.now) }
{
    match scalar {
        Scalar::Number { value, at } => Ok(CheckedScalar::Number {
            value: *value,
            at: *at,
        }),
        Scalar::Named { name, at } => resolve_name(head, around, *name, *at),
        Scalar::Negate { at, inner } => {
            let inner = resolve(alloc, head, around, inner.get())?;
            CheckedScalar::negate(alloc, *at, inner)
        }
        Scalar::Binary {
            op,
            at,
            left,
            right,
        } => {
            let left = resolve(alloc, head, around, left.get())?;
            let right = resolve(alloc, head, around, right.get())?;
            CheckedScalar::join(alloc, *op, *at, left, right)
        }
    }
}

/// Notes the names in a scalar that aren't known.
pub fn note_scalar(head: &Head, around: &Around, faults: &mut Faults, scalar: &Scalar) -> Made<()>
    ensures noted { OnOk result (faults.new ≡ faults.old ++ scalar_unknowns head.now around.now scalar.now) }
{
    match scalar {
        Scalar::Number { .. } => Ok(()),
        Scalar::Named { name, at } => note_name(head, around, faults, *name, *at),
        Scalar::Negate { inner, .. } => note_scalar(head, around, faults, inner.get()),
        Scalar::Binary { left, right, .. } => {
            note_scalar(head, around, faults, left.get())?;
            note_scalar(head, around, faults, right.get())
        }
    }
}
