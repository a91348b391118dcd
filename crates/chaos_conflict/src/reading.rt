ghost use Rattle.std.specs.Prelude.{◌≡◌, ◌++◌, OnOk};
ghost use Rattle.std.specs.List.{flat_map};
ghost use Rattle.std.specs.Option.{option_to_list};
ghost use Rattle.chaos_conflict.specs.Rows.{rows_of, row_in, row_at};

use crate::row::Row;
use fd_words::{Memory, Numbers};

/// Appends the rows of all letters; faulty rows are passed over.
pub fn read_letters(rows: &mut Vec<Row>, letters: &[Numbers]) -> Result<(), Memory>
    ensures { OnOk result (rows.new.items ≡ rows.old.items ++ flat_map rows_of letters.now) }
{
    for letter in letters {
        read_rows(rows, letter.as_slice())?;
    }
    Ok(())
}

/// Appends the rows of a letter; faulty ones are passed over.
pub fn read_rows(rows: &mut Vec<Row>, numbers: &[i64]) -> Result<(), Memory>
    ensures { OnOk result (rows.new.items ≡ rows.old.items ++ rows_of numbers.now) }
{
    for at in 0..numbers.len() / 3 {
        let row = first_row(&numbers[3 * at..]);
        note(rows, row)?;
    }
    Ok(())
}

fn note(rows: &mut Vec<Row>, row: Option<Row>) -> Result<(), Memory>
    ensures { OnOk result (rows.new.items ≡ rows.old.items ++ option_to_list row) }
{
    if let Some(row) = row {
        rows.push(row)?;
    }
    Ok(())
}

/// The first row, none where it is faulty or incomplete.
fn first_row(numbers: &[i64]) -> Option<Row>
    ensures { result ≡ row_in numbers.now }
{
    match numbers {
        [reference, element, iteration, ..] => row_of_three(*reference, *element, *iteration),
        _ => None,
    }
}

/// The row with these numbers, none where one is out of range.
fn row_of_three(reference: i64, element: i64, iteration: i64) -> Option<Row>
    ensures { result ≡ row_at reference element iteration }
{
    if reference < 1 || reference > i64::from(u32::MAX) || element < 1 {
        return None;
    }
    Some(Row {
        reference: reference as u32,
        element: element as u64,
        iteration,
    })
}
