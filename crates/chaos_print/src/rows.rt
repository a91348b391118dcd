ghost use Rattle.std.specs.Prelude.{◌≡◌, ◌-ℤ◌, ◌++◌, [], ◌∷◌, IfOk, OnOk};
ghost use Rattle.fd_program.specs.Stores.{array_at, number_at};
ghost use Rattle.fd_words.specs.Lists.{list_at};
ghost use Rattle.chaos_print.specs.Printing.{is_row, number_if, own_row, rows_held, rows_owned};

use fd_program::{ArrayFacts, ArrayList, array_at};
use fd_words::{Memory, NumberLists, Numbers};
use std::alloc::Global;

/// A number, if it is one of the elements 1 to the extent and can stand in a row.
fn row_number(extent: u64, z: i128) -> Option<i64>
    ensures { result ≡ number_if (is_row extent z) z }
{
    if 1 <= z && z <= i128::from(extent) && z <= 9_223_372_036_854_775_807 {
        Some(z as i64)
    } else {
        None
    }
}

/// A difference, exactly.
fn difference(a: i64, b: i64) -> i128
    ensures { result ≡ a -ℤ b }
{
    i128::from(a) - i128::from(b)
}

/// Appends an element and its value.
fn push_pair(rows: &mut Numbers, element: i64, value: i64) -> Result<(), Memory>
    ensures { OnOk result (rows.new ≡ rows.old ++ element ∷ value ∷ []) }
{
    rows.push(element)?;
    rows.push(value)
}

/// Appends the row of an element of a decomposition, if the array has an element there.
fn push_row(rows: &mut Numbers, facts: &ArrayFacts, element: i64, value: i64) -> Result<(), Memory>
    ensures { OnOk result (rows.new ≡ rows.old ++ own_row facts.now element value) }
{
    match row_number(facts.extent, difference(element, facts.offset)) {
        Some(number) => push_pair(rows, number, value),
        None => Ok(()),
    }
}

/// The number at a place, 0 from the end on.
pub fn at(numbers: &[i64], place: usize) -> i64
    ensures { result ≡ number_at numbers.now place }
{
    numbers.get(place).copied().unwrap_or(0)
}

/// The rows of an array: its elements on a node, ascending, each with its value. The elements of its
/// decomposition that stand there have the values of its local part beside them.
fn rows_on(
    alloc: Global,
    facts: &ArrayFacts,
    elements: &[i64],
    part: &[i64],
) -> Result<Numbers, Memory>
    ensures { IfOk result (λ rows. rows ≡ rows_owned facts.now elements.now part.now) }
{
    let mut rows = Numbers::new(alloc);
    let count = elements.len().min(part.len());
    for k in 0..count {
        let element = at(elements, k);
        let value = at(part, k);
        push_row(&mut rows, facts, element, value)?;
    }
    Ok(rows)
}

/// The list at a place, empty from the end on.
fn list_in(lists: &NumberLists, at: u32) -> &[i64]
    ensures { result.now ≡ list_at lists.now at }
{
    match lists.get(u64::from(at)) {
        Some(list) => list.as_slice(),
        None => &[],
    }
}

/// The rows of an array on a node with these elements of each decomposition and these local parts: its
/// elements there, ascending, each followed by its value. This is what the node sends to node 0 in a
/// PRINT or at an OUTPUT of the array. It fails where memory is out.
pub fn print_rows(
    alloc: Global,
    arrays: &ArrayList,
    elements: &NumberLists,
    parts: &NumberLists,
    array: u32,
) -> Result<Numbers, Memory>
    ensures { IfOk result (λ rows. rows ≡ rows_held arrays.now elements.now parts.now array) }
{
    let facts = array_at(arrays.as_slice(), array);
    let elements = list_in(elements, facts.decomposition);
    rows_on(alloc, &facts, elements, list_in(parts, array))
}
