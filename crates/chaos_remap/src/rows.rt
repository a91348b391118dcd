ghost use Rattle.std.specs.Prelude.{◌≡◌, ◌≤◌, ◌<◌, ◌/◌, ◌++◌, length, OnOk, IfOk};
ghost use Rattle.chaos_remap.specs.Rows.{rows_in, rows_of, row_of, value_in};

use crate::numbers::{list_of, number_behind, number_of};
use fd_words::{Memory, NumberLists};
use std::alloc::Global;

/// A row of a Remap letter: its element, from which node it comes, and where it begins there.
#[derive(Clone, Copy, Debug, PartialEq, Eq, PartialOrd, Ord)]
pub struct Row {
    pub element: i64,
    pub sender: u64,
    pub start: u64,
}

/// All rows, by sender and in the order of its letter.
pub fn read_rows(alloc: Global, taken: &NumberLists, width: u32) -> Result<Vec<Row>, Memory>
    requires { 1 ≤ width }
    ensures { IfOk result (λ rows. rows.items ≡ rows_in width taken.now) }
{
    let mut rows = Vec::new(alloc);
    for sender in 0..taken.len() {
        add_rows(&mut rows, list_of(taken, sender), sender, width)?;
    }
    Ok(rows)
}

fn add_rows(rows: &mut Vec<Row>, numbers: &[i64], sender: u64, width: u32) -> Result<(), Memory>
    requires { 1 ≤ width }
    ensures { OnOk result (rows.new.items ≡ rows.old.items ++ rows_of width sender numbers.now) }
{
    for row in 0..numbers.len() / width as usize {
        rows.push(row_at(numbers, row, sender, width))?;
    }
    Ok(())
}

fn row_at(numbers: &[i64], row: usize, sender: u64, width: u32) -> Row
    requires some { 1 ≤ width }
    requires within { row < length numbers.now / width }
    ensures { result ≡ row_of width sender numbers.now row }
{
    let start = (row * width as usize) as u64;
    Row {
        element: number_of(numbers, start),
        sender,
        start,
    }
}

/// The number at a place of a row.
pub fn value_of(taken: &NumberLists, row: Row, place: u32) -> i64
    ensures { result ≡ value_in taken.now place row }
{
    number_behind(list_of(taken, row.sender), row.start, place)
}
