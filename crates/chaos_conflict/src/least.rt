ghost use Rattle.std.specs.Prelude.{◌≡◌, ◌++◌, IfOk};
ghost use Rattle.std.specs.List.{flat_map};
ghost use Rattle.chaos_conflict.specs.Rows.{rows_of};
ghost use Rattle.chaos_conflict.specs.Clashes.{IsLeastClash, clash, side_by_side};

use crate::Conflict;
use crate::order::lesser_of;
use crate::reading::{read_letters, read_rows};
use crate::row::Row;
use fd_words::{Memory, NumberLists, Numbers};
use list_laws::ascend;
use std::alloc::Global;

/// The least clash of one's own rows and those of the letters: by its first iteration, there by its second, there
/// by reference, and there by element. None exactly where no two rows have one reference and one element, but
/// different iterations. Faulty rows are passed over.
pub fn least_conflict(
    alloc: Global,
    mine: &Numbers,
    taken: &NumberLists,
) -> Result<Option<Conflict>, Memory>
    ensures { IfOk result (λ o. IsLeastClash (rows_of mine.now ++ flat_map rows_of taken.now) o) }
{
    let mut rows = Vec::new(alloc);
    read_rows(&mut rows, mine.as_slice())?;
    read_letters(&mut rows, taken.as_slice())?;
    ascend(&mut rows);
    Ok(least_beside(rows.as_slice()))
}

/// The least clash of two rows side by side.
fn least_beside(rows: &[Row]) -> Option<Conflict>
    ensures { result ≡ side_by_side rows.now }
{
    let mut least = None;
    for at in 1..rows.len() {
        least = lesser_of(least, clash_between(rows[at - 1], rows[at]));
    }
    least
}

/// The clash of a row with a later one.
fn clash_between(row: Row, next: Row) -> Option<Conflict>
    ensures { result ≡ clash row next }
{
    if row.reference == next.reference
        && row.element == next.element
        && row.iteration < next.iteration
    {
        return Some(Conflict {
            first: row.iteration,
            second: next.iteration,
            reference: row.reference,
            element: row.element,
        });
    }
    None
}
