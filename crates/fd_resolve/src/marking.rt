ghost use Rattle.std.specs.Prelude.{◌≡◌, ◌++◌, ◌∷◌, [], OnOk, IfOk};
ghost use Rattle.fd_scope.specs.Scalars.{constant_value};
ghost use Rattle.fd_resolve.specs.Resolve.{depth_of, constant_of, name_mark, array_mark, scalar_marks, term_marks, offset_marks};
ghost use Rattle.fd_resolve.specs.Resolve.{subscript_marks};

use crate::names::{array_named, constant_named, depth};
use crate::{Around, Made, Mark, Marks};
use fd_scope::{Head, value_known};
use fd_syntax::{Scalar, Subscript, Term};
use fd_words::Name;
use sqlite_items::Items;
use std::alloc::Global;

fn push(marks: &mut Marks, mark: Mark) -> Made<()>
    ensures { OnOk result (marks.new ≡ marks.old ++ mark ∷ []) }
{
    marks.push(mark)?;
    Ok(())
}

fn mark_of(depth: Option<u32>, value: Option<i64>, name: Name) -> Mark
    ensures { result ≡ name_mark depth value name }
{
    match depth {
        Some(depth) => Mark::Variable(depth),
        None => match value {
            Some(value) => Mark::Number(value),
            None => Mark::Unknown(name),
        },
    }
}

fn mark_of_array(number: Option<u32>, name: Name) -> Mark
    ensures { result ≡ array_mark number name }
{
    match number {
        Some(number) => Mark::Through(number),
        None => Mark::Unknown(name),
    }
}

fn mark_name(marks: &mut Marks, head: &Head, around: &Around, name: Name) -> Made<()>
    ensures { OnOk result (marks.new ≡ marks.old ++ name_mark (depth_of around.now name)
        (constant_value (constant_of head.now around.now name)) name ∷ []) }
{
    let depth = depth(around, name)?;
    let value = value_known(constant_named(head, around, name));
    push(marks, mark_of(depth, value, name))
}

/// Appends the marks of a scalar.
fn mark_scalar(marks: &mut Marks, head: &Head, around: &Around, scalar: &Scalar) -> Made<()>
    ensures { OnOk result (marks.new ≡ marks.old ++ scalar_marks head.now around.now scalar.now) }
{
    match scalar {
        Scalar::Number { value, .. } => push(marks, Mark::Number(*value)),
        Scalar::Named { name, .. } => mark_name(marks, head, around, *name),
        Scalar::Negate { inner, .. } => {
            push(marks, Mark::Negate)?;
            mark_scalar(marks, head, around, inner.get())
        }
        Scalar::Binary {
            op,
            left,
            right,
            ..
        } => {
            push(marks, Mark::Binary(*op))?;
            mark_scalar(marks, head, around, left.get())?;
            mark_scalar(marks, head, around, right.get())
        }
    }
}

fn mark_term(marks: &mut Marks, head: &Head, around: &Around, term: &Term) -> Made<()>
    ensures { OnOk result (marks.new ≡ marks.old ++ term_marks head.now around.now term.now) }
{
    push(marks, Mark::Term(term.minus))?;
    mark_scalar(marks, head, around, &term.scalar)
}

fn mark_offset(marks: &mut Marks, head: &Head, around: &Around, add: &[Term]) -> Made<()>
    ensures { OnOk result (marks.new ≡ marks.old ++ offset_marks head.now around.now add.now) }
{
    for term in add {
        mark_term(marks, head, around, term)?;
    }
    Ok(())
}

/// A subscript without its places.
pub fn marks_of(alloc: Global, head: &Head, around: &Around, subscript: &Subscript) -> Made<Marks>
    ensures { IfOk result (λ m. m ≡ subscript_marks head.now around.now subscript.now) }
{
    let mut marks = Items::new(alloc);
    match subscript {
        Subscript::Plain { add } => {
            push(&mut marks, Mark::Plain)?;
            mark_offset(&mut marks, head, around, add.as_slice())?;
            Ok(marks)
        }
        Subscript::Through {
            index_array,
            at: _,
            inner_add,
            add,
        } => {
            let array = array_named(head, around, *index_array);
            push(&mut marks, mark_of_array(array, *index_array))?;
            mark_offset(&mut marks, head, around, inner_add.as_slice())?;
            push(&mut marks, Mark::Plain)?;
            mark_offset(&mut marks, head, around, add.as_slice())?;
            Ok(marks)
        }
        Subscript::Twice {
            outer,
            at: _,
            inner,
            inner_at: _,
            first_add,
            second_add,
            add,
        } => {
            let outer_array = array_named(head, around, *outer);
            let inner_array = array_named(head, around, *inner);
            push(&mut marks, mark_of_array(outer_array, *outer))?;
            push(&mut marks, mark_of_array(inner_array, *inner))?;
            mark_offset(&mut marks, head, around, first_add.as_slice())?;
            push(&mut marks, Mark::Plain)?;
            mark_offset(&mut marks, head, around, second_add.as_slice())?;
            push(&mut marks, Mark::Plain)?;
            mark_offset(&mut marks, head, around, add.as_slice())?;
            Ok(marks)
        }
        Subscript::Scalar(scalar) => {
            push(&mut marks, Mark::Scalar)?;
            mark_scalar(&mut marks, head, around, scalar)?;
            Ok(marks)
        }
    }
}
