ghost use Rattle.std.specs.Prelude.{◌≡◌, ◌++◌, OnOk, IfOk};
ghost use Rattle.fd_resolve.specs.Resolve.{term_resolved, offset_resolved, offset_unknowns, subscript_resolved, subscript_unknowns};

use crate::names::{array_or_zero, note_array};
use crate::scalars::{note_scalar, resolve};
use crate::{Around, Made};
use fd_program::{CheckedSubscript, CheckedTerm, CheckedTerms};
use fd_scope::{Faults, Head};
use fd_syntax::{Subscript, Term};
use sqlite_items::Items;
use std::alloc::Global;

fn resolve_term(alloc: Global, head: &Head, around: &Around, term: &Term) -> Made<CheckedTerm>
    ensures { IfOk result (λ t. t ≡ term_resolved head.now around.now term.now) }
{
    let scalar = resolve(alloc, head, around, &term.scalar)?;
    Ok(CheckedTerm {
        minus: term.minus,
        at: term.at,
        scalar,
    })
}

/// An offset with its names resolved.
pub fn resolve_offset(
    alloc: Global,
    head: &Head,
    around: &Around,
    add: &[Term],
) -> Made<CheckedTerms>
    ensures { IfOk result (λ t. t ≡ offset_resolved head.now around.now add.now) }
{
    let mut terms = Items::new(alloc);
    for term in add {
        terms.push(resolve_term(alloc, head, around, term)?)?;
    }
    Ok(terms)
}

fn note_offset(head: &Head, around: &Around, faults: &mut Faults, add: &[Term]) -> Made<()>
    ensures noted { OnOk result (faults.new ≡ faults.old ++ offset_unknowns head.now around.now add.now) }
{
    for term in add {
        note_scalar(head, around, faults, &term.scalar)?;
    }
    Ok(())
}

/// A subscript with its names resolved.
pub fn resolve_subscript(
    alloc: Global,
    head: &Head,
    around: &Around,
    subscript: &Subscript,
) -> Made<CheckedSubscript>
    ensures { IfOk result (λ s. s ≡ subscript_resolved head.now around.now subscript.now) }
{
    match subscript {
        Subscript::Plain { add } => Ok(CheckedSubscript::Plain {
            add: resolve_offset(alloc, head, around, add.as_slice())?,
        }),
        Subscript::Through {
            index_array,
            at,
            inner_add,
            add,
        } => Ok(CheckedSubscript::Through {
            index_array: array_or_zero(head, around, *index_array),
            at: *at,
            inner_add: resolve_offset(alloc, head, around, inner_add.as_slice())?,
            add: resolve_offset(alloc, head, around, add.as_slice())?,
        }),
        Subscript::Twice {
            outer,
            at,
            inner,
            inner_at,
            first_add,
            second_add,
            add,
        } => Ok(CheckedSubscript::Twice {
            outer: array_or_zero(head, around, *outer),
            at: *at,
            inner: array_or_zero(head, around, *inner),
            inner_at: *inner_at,
            first_add: resolve_offset(alloc, head, around, first_add.as_slice())?,
            second_add: resolve_offset(alloc, head, around, second_add.as_slice())?,
            add: resolve_offset(alloc, head, around, add.as_slice())?,
        }),
        Subscript::Scalar(scalar) => {
            Ok(CheckedSubscript::Scalar(resolve(alloc, head, around, scalar)?))
        }
    }
}

/// Notes the names in a subscript that aren't known.
pub fn note_subscript(
    head: &Head,
    around: &Around,
    faults: &mut Faults,
    subscript: &Subscript,
) -> Made<()>
    ensures noted { OnOk result (faults.new ≡ faults.old ++ subscript_unknowns head.now around.now subscript.now) }
{
    match subscript {
        Subscript::Plain { add } => note_offset(head, around, faults, add.as_slice()),
        Subscript::Through {
            index_array,
            at,
            inner_add,
            add,
        } => {
            note_array(head, around, faults, *index_array, *at)?;
            note_offset(head, around, faults, inner_add.as_slice())?;
            note_offset(head, around, faults, add.as_slice())
        }
        Subscript::Twice {
            outer,
            at,
            inner,
            inner_at,
            first_add,
            second_add,
            add,
        } => {
            note_array(head, around, faults, *outer, *at)?;
            note_array(head, around, faults, *inner, *inner_at)?;
            note_offset(head, around, faults, first_add.as_slice())?;
            note_offset(head, around, faults, second_add.as_slice())?;
            note_offset(head, around, faults, add.as_slice())
        }
        Subscript::Scalar(scalar) => note_scalar(head, around, faults, scalar),
    }
}
