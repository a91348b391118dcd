ghost use Rattle.std.specs.Prelude.{◌≡◌, ◌++◌, ◌∷◌, [], OnOk, IfOk};
ghost use Rattle.fd_loops.specs.Bodies.{after_name, name_value, value_unknown, after_expr, resolved_expr, expr_faults};

use crate::Draft;
use crate::elements::add_element;
use fd_program::{CheckedExpr, CheckedScalar, CheckedScalars};
use fd_resolve::{Around, note_name, resolve_name, same_name};
use fd_scope::{Faults, Head, narrow};
use fd_syntax::Expr;
use fd_words::{Memory, Name, Role, SourcePlace};
use std::alloc::Global;

fn push_scalar(terms: &mut CheckedScalars, scalar: CheckedScalar) -> Result<(), Memory>
    ensures { OnOk result (terms.new ≡ terms.old ++ scalar ∷ []) }
{
    match terms.push(scalar) {
        Ok(()) => Ok(()),
        Err(_) => Err(Memory),
    }
}

fn note_value(
    head: &Head,
    around: &Around,
    index: Name,
    faults: &mut Faults,
    name: Name,
    at: SourcePlace,
) -> Result<(), Memory>
    ensures noted { OnOk result (faults.new ≡ faults.old ++ value_unknown head.now around.now index name at) }
{
    if same_name(name, index) {
        Ok(())
    } else {
        note_name(head, around, faults, name, at)
    }
}

/// A name in an expression: the index, or a scalar name of the FORALL.
fn add_name(
    head: &Head,
    around: &Around,
    index: Name,
    draft: &mut Draft,
    name: Name,
    at: SourcePlace,
) -> Result<CheckedExpr, Memory>
    ensures draft { OnOk result (draft.new ≡ after_name head.now around.now index draft.old name at) }
    ensures value { IfOk result (λ e. e ≡ name_value index draft.old name) }
{
    if same_name(name, index) {
        return Ok(CheckedExpr::Index);
    }
    let place = narrow(draft.terms.len())?;
    let scalar = resolve_name(head, around, name, at)?;
    push_scalar(&mut draft.terms, scalar)?;
    Ok(CheckedExpr::Term(place))
}

/// An expression with its names resolved; its references and scalar names are added to the draft.
pub fn add_expr(
    alloc: Global,
    head: &Head,
    around: &Around,
    index: Name,
    draft: &mut Draft,
    faults: &mut Faults,
    expr: &Expr,
) -> Result<CheckedExpr, Memory>
    ensures draft { OnOk result (draft.new ≡ after_expr head.now around.now index draft.old expr.now) }
    ensures noted { OnOk result (faults.new ≡ faults.old ++ expr_faults head.now around.now index draft.old expr.now) }
    ensures value { IfOk result (λ e. e ≡ resolved_expr head.now around.now index draft.old expr.now) }
{
    match expr {
        Expr::Number(value) => Ok(CheckedExpr::Number(*value)),
        Expr::Named { name, at } => {
            note_value(head, around, index, faults, *name, *at)?;
            add_name(head, around, index, draft, *name, *at)
        }
        Expr::Read(element) => {
            let number = add_element(alloc, head, around, draft, faults, Role::Read, element)?;
            Ok(CheckedExpr::Read(number))
        }
        Expr::Negate(inner) => {
            let inner = add_expr(alloc, head, around, index, draft, faults, inner.get())?;
            CheckedExpr::negate(alloc, inner)
        }
        Expr::Binary { op, left, right } => {
            let left = add_expr(alloc, head, around, index, draft, faults, left.get())?;
            let right = add_expr(alloc, head, around, index, draft, faults, right.get())?;
            CheckedExpr::join(alloc, *op, left, right)
        }
    }
}
