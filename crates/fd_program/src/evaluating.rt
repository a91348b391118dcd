//! The references of an iteration, evaluated one after another.
ghost use Rattle.std.specs.Prelude.{◌≡◌, filter_map};
ghost use Rattle.fd_program.specs.Loops.{first_of, offence_at as offence_by};
ghost use Rattle.fd_program.specs.Uses.{gives_index, is_met as is_met_of, is_plain as is_plain_of, subscript_of, use_of};

use crate::arrays::is_within;
use crate::{ArrayFacts, CheckedSubscript, Reference, Use};
use fd_words::{Offence, Role, exact_sum};

/// The subscript at iteration `i`: `add` is the number that it adds, and `before` the element that the
/// index reference directly before it reads.
pub fn subscript(form: &CheckedSubscript, i: i64, add: i64, before: Option<i64>) -> Option<i128>
    ensures { result ≡ subscript_of form.now i add before }
{
    match form {
        CheckedSubscript::Plain { add: _ } => Some(exact_sum(i, add)),
        CheckedSubscript::Through {
            index_array: _,
            at: _,
            inner_add: _,
            add: _,
        } => match before {
            Some(value) => Some(exact_sum(value, add)),
            None => None,
        },
        CheckedSubscript::Twice {
            outer: _,
            at: _,
            inner: _,
            inner_at: _,
            first_add: _,
            second_add: _,
            add: _,
        } => match before {
            Some(value) => Some(exact_sum(value, add)),
            None => None,
        },
        CheckedSubscript::Scalar(_) => Some(i128::from(add)),
    }
}

/// Whether the subscript is the index and a number.
pub fn is_plain(form: &CheckedSubscript) -> bool
    ensures { result ≡ is_plain_of form.now }
{
    match form {
        CheckedSubscript::Plain { add: _ } => true,
        CheckedSubscript::Through {
            index_array: _,
            at: _,
            inner_add: _,
            add: _,
        } => false,
        CheckedSubscript::Twice {
            outer: _,
            at: _,
            inner: _,
            inner_at: _,
            first_add: _,
            second_add: _,
            add: _,
        } => false,
        CheckedSubscript::Scalar(_) => false,
    }
}

/// The use of a reference at iteration `i`.
pub fn use_by(reference: &Reference, i: i64, number: u32, subscript: Option<i128>) -> Use
    ensures { result ≡ use_of reference.now i number subscript }
{
    Use {
        iteration: i,
        number,
        role: reference.role,
        array: reference.array,
        stamp: reference.stamp,
        plain: is_plain(&reference.subscript),
        defined: subscript.is_some(),
        subscript: subscript.unwrap_or(0),
    }
}

/// Whether the reference's subscript has a value, and its array an element there.
pub fn is_met(arrays: &[ArrayFacts], used: Use) -> bool
    ensures { result ≡ is_met_of arrays.now used }
{
    used.defined && is_within(arrays, used.array, used.subscript)
}

/// Whether an index reference has an element to give.
pub fn gives(arrays: &[ArrayFacts], used: Use) -> bool
    ensures { result ≡ gives_index arrays.now used }
{
    match used.role {
        Role::Index => is_met(arrays, used),
        Role::Read => false,
        Role::Target => false,
    }
}

/// The offence of a reference, if it is one.
fn offence_at(arrays: &[ArrayFacts], used: &Use) -> Option<Offence>
    ensures { result ≡ offence_by arrays.now used.now }
{
    if used.defined && !is_within(arrays, used.array, used.subscript) {
        Some(Offence {
            iteration: used.iteration,
            reference: used.number,
            subscript: used.subscript,
        })
    } else {
        None
    }
}

/// The first offence of these references.
pub fn first_offence(arrays: &[ArrayFacts], uses: &[Use]) -> Option<Offence>
    ensures { result ≡ first_of (filter_map (offence_by arrays.now) uses.now) }
{
    for used in uses {
        match offence_at(arrays, used) {
            Some(offence) => return Some(offence),
            None => {}
        }
    }
    None
}
