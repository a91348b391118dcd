ghost use Rattle.std.specs.Prelude.{◌≡◌, ◌++◌, OnOk, IfOk};
ghost use Rattle.fd_loops.specs.Elements.{index_reference, outer_reference, after_index, index_faults, is_index_crowded, after_own_stamp};
ghost use Rattle.fd_loops.specs.Elements.{own_stamp};
ghost use Rattle.fd_loops.specs.Elements.{own_stamp_faults, own_reference, after_own, own_faults, after_element, element_number};
ghost use Rattle.fd_loops.specs.Elements.{element_faults};

use crate::Draft;
use fd_program::{ArrayFacts, CheckedSubscript, Reference, array_at};
use fd_resolve::{
    Around, array_named, array_or_zero, marks_of, note_array, note_subscript, resolve_offset,
    resolve_subscript,
};
use fd_scope::{Faults, Head};
use fd_syntax::{Element, Subscript, Term};
use fd_words::{Memory, Name, Role, SourceCause, SourcePlace};
use std::alloc::Global;

fn index_of(
    alloc: Global,
    head: &Head,
    around: &Around,
    index_array: Name,
    inner_add: &[Term],
) -> Result<Reference, Memory>
    ensures { IfOk result (λ r. r ≡ index_reference head.now around.now index_array inner_add.now) }
{
    let add = resolve_offset(alloc, head, around, inner_add)?;
    Ok(Reference {
        role: Role::Index,
        array: array_or_zero(head, around, index_array),
        subscript: CheckedSubscript::Plain { add },
        stamp: 0,
    })
}

/// The index reference to an array that is read through another.
fn outer_of(
    alloc: Global,
    head: &Head,
    around: &Around,
    outer: Name,
    inner: Name,
    inner_at: SourcePlace,
    first_add: &[Term],
    second_add: &[Term],
) -> Result<Reference, Memory>
    ensures { IfOk result (λ r. r ≡ outer_reference head.now around.now outer inner inner_at first_add.now second_add.now) }
{
    let inner_add = resolve_offset(alloc, head, around, first_add)?;
    let add = resolve_offset(alloc, head, around, second_add)?;
    Ok(Reference {
        role: Role::Index,
        array: array_or_zero(head, around, outer),
        subscript: CheckedSubscript::Through {
            index_array: array_or_zero(head, around, inner),
            at: inner_at,
            inner_add,
            add,
        },
        stamp: 0,
    })
}

/// Adds the index references of a subscript, if it has any.
fn add_index(
    alloc: Global,
    head: &Head,
    around: &Around,
    draft: &mut Draft,
    faults: &mut Faults,
    subscript: &Subscript,
) -> Result<(), Memory>
    ensures draft { OnOk result (draft.new ≡ after_index head.now around.now draft.old subscript.now) }
    ensures noted { OnOk result (faults.new ≡ faults.old ++ index_faults draft.old subscript.now) }
{
    match subscript {
        Subscript::Plain { add: _ } => Ok(()),
        Subscript::Through {
            index_array,
            at,
            inner_add,
            add: _,
        } => {
            draft.note_crowd(faults, *at)?;
            let reference = index_of(alloc, head, around, *index_array, inner_add.as_slice())?;
            draft.add_reference(reference)
        }
        Subscript::Twice {
            outer,
            at,
            inner,
            inner_at,
            first_add,
            second_add,
            add: _,
        } => {
            let first = first_add.as_slice();
            let is_full = draft.is_full();
            draft.note_crowd(faults, *inner_at)?;
            faults.note_if(
                draft.is_nearly_full() && !is_full,
                *at,
                SourceCause::TooManyReferences,
            )?;
            let inner_reference = index_of(alloc, head, around, *inner, first)?;
            let outer_reference = outer_of(
                alloc,
                head,
                around,
                *outer,
                *inner,
                *inner_at,
                first,
                second_add.as_slice(),
            )?;
            draft.add_reference(inner_reference)?;
            draft.add_reference(outer_reference)
        }
        Subscript::Scalar(_) => Ok(()),
    }
}

/// The stamp of a reference, before it is taken.
fn stamp_of(
    alloc: Global,
    head: &Head,
    around: &Around,
    draft: &Draft,
    subscript: &Subscript,
    array: Option<u32>,
) -> Result<u32, Memory>
    ensures { IfOk result (λ s. s ≡ own_stamp head.now around.now draft.now subscript.now array) }
{
    match array {
        None => Ok(0),
        Some(array) => {
            let facts = array_at(head.tables.arrays.as_slice(), array);
            let marks = marks_of(alloc, head, around, subscript)?;
            Ok(draft.stamp(facts.decomposition, facts.offset, &marks))
        }
    }
}

fn take_own_stamp(
    alloc: Global,
    head: &Head,
    around: &Around,
    draft: &mut Draft,
    subscript: &Subscript,
    array: Option<u32>,
) -> Result<(), Memory>
    ensures { OnOk result (draft.new ≡ after_own_stamp head.now around.now draft.old subscript.now array) }
{
    match array {
        None => Ok(()),
        Some(array) => {
            let facts = array_at(head.tables.arrays.as_slice(), array);
            let marks = marks_of(alloc, head, around, subscript)?;
            draft.take_stamp(facts.decomposition, facts.offset, marks)
        }
    }
}

fn note_own_stamp(
    alloc: Global,
    head: &Head,
    around: &Around,
    draft: &Draft,
    faults: &mut Faults,
    element: &Element,
    array: Option<u32>,
) -> Result<(), Memory>
    ensures noted { OnOk result (faults.new ≡ faults.old ++ own_stamp_faults head.now around.now draft.now element.now array) }
{
    match array {
        None => Ok(()),
        Some(array) => {
            let facts = array_at(head.tables.arrays.as_slice(), array);
            let marks = marks_of(alloc, head, around, &element.subscript)?;
            draft.note_stamp(
                faults,
                facts.decomposition,
                facts.offset,
                &marks,
                element.at,
            )
        }
    }
}

/// No place is left for an index reference of a subscript.
fn is_index_full(draft: &Draft, subscript: &Subscript) -> bool
    ensures { result ≡ is_index_crowded draft.now subscript.now }
{
    match subscript {
        Subscript::Plain { add: _ } => false,
        Subscript::Through {
            index_array: _,
            at: _,
            inner_add: _,
            add: _,
        } => draft.is_full(),
        Subscript::Twice {
            outer: _,
            at: _,
            inner: _,
            inner_at: _,
            first_add: _,
            second_add: _,
            add: _,
        } => draft.is_nearly_full(),
        Subscript::Scalar(_) => false,
    }
}

/// Notes the faults of an element's own reference. Where its index reference was one too many,
/// `is_noted`, that is noted before.
fn note_own(
    alloc: Global,
    head: &Head,
    around: &Around,
    draft: &Draft,
    faults: &mut Faults,
    is_noted: bool,
    element: &Element,
) -> Result<(), Memory>
    ensures noted { OnOk result (faults.new ≡ faults.old ++ own_faults head.now around.now is_noted draft.now element.now) }
{
    let is_full = draft.is_full();
    let array = array_named(head, around, element.name);
    faults.note_if(
        is_full && !is_noted,
        element.at,
        SourceCause::TooManyReferences,
    )?;
    note_own_stamp(alloc, head, around, draft, faults, element, array)
}

fn reference_of(
    alloc: Global,
    head: &Head,
    around: &Around,
    draft: &Draft,
    role: Role,
    element: &Element,
) -> Result<Reference, Memory>
    ensures { IfOk result (λ r. r ≡ own_reference head.now around.now draft.now role element.now) }
{
    let array = array_named(head, around, element.name);
    let stamp = stamp_of(alloc, head, around, draft, &element.subscript, array)?;
    let subscript = resolve_subscript(alloc, head, around, &element.subscript)?;
    Ok(Reference {
        role,
        array: array_or_zero(head, around, element.name),
        subscript,
        stamp,
    })
}

fn add_own(
    alloc: Global,
    head: &Head,
    around: &Around,
    draft: &mut Draft,
    role: Role,
    element: &Element,
) -> Result<(), Memory>
    ensures { OnOk result (draft.new ≡ after_own head.now around.now role draft.old element.now) }
{
    if draft.is_full() {
        return Ok(());
    }
    let reference = reference_of(alloc, head, around, draft, role, element)?;
    let array = array_named(head, around, element.name);
    take_own_stamp(alloc, head, around, draft, &element.subscript, array)?;
    draft.add_reference(reference)
}

/// Adds the references of an element, and tells the number of its own.
pub fn add_element(
    alloc: Global,
    head: &Head,
    around: &Around,
    draft: &mut Draft,
    faults: &mut Faults,
    role: Role,
    element: &Element,
) -> Result<u32, Memory>
    ensures draft { OnOk result (draft.new ≡ after_element head.now around.now role draft.old element.now) }
    ensures noted { OnOk result (faults.new ≡ faults.old ++ element_faults head.now around.now draft.old element.now) }
    ensures number { IfOk result (λ n. n ≡ element_number head.now around.now draft.old element.now) }
{
    note_array(head, around, faults, element.name, element.at)?;
    note_subscript(head, around, faults, &element.subscript)?;
    let is_noted = is_index_full(draft, &element.subscript);
    add_index(alloc, head, around, draft, faults, &element.subscript)?;
    note_own(alloc, head, around, draft, faults, is_noted, element)?;
    let number = draft.number_next();
    add_own(alloc, head, around, draft, role, element)?;
    Ok(number)
}
