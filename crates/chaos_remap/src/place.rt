ghost use Rattle.std.specs.Prelude.{◌≡◌, ◌≤◌, IfOk};
ghost use Rattle.chaos_remap.specs.Remapped.{remapped};
ghost use Rattle.chaos_remap.specs.Rows.{column_of};

use crate::rows::{Row, read_rows, value_of};
use fd_words::{Memory, NumberLists, Numbers};
use list_laws::ascend;
use std::alloc::Global;

/// A node's part of a decomposition under its new layout: the elements, ascending, and the local part of
/// each array.
#[derive(Debug, Drop)]
pub struct Remapped {
    pub elements: Numbers,
    pub pieces: NumberLists,
}

/// All rows that a node took, ascending by element, as its new local parts. `width` is the count of
/// numbers per row, one more than the decomposition's arrays.
pub fn place_remap(alloc: Global, taken: &NumberLists, width: u32) -> Result<Remapped, Memory>
    requires { 1 ≤ width }
    ensures { IfOk result (λ r. r ≡ remapped width taken.now) }
{
    let mut rows = read_rows(alloc, taken, width)?;
    ascend(&mut rows);
    let elements = column(alloc, taken, rows.as_slice(), 0)?;
    let mut pieces = NumberLists::new(alloc);
    for place in 1..width {
        pieces.push(column(alloc, taken, rows.as_slice(), place)?)?;
    }
    Ok(Remapped { elements, pieces })
}

/// The numbers at one place of each row.
fn column(alloc: Global, taken: &NumberLists, rows: &[Row], place: u32) -> Result<Numbers, Memory>
    ensures { IfOk result (λ numbers. numbers ≡ column_of taken.now rows.now place) }
{
    let mut numbers = Numbers::new(alloc);
    for row in rows {
        numbers.push(value_of(taken, *row, place))?;
    }
    Ok(numbers)
}
