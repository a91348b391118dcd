ghost use Rattle.std.specs.Prelude.{◌≡◌, ◌+◌, ◌*◌, ◌<◌, ◌^◌, [], length, pos, set, fold, slice_get, OnOk};
ghost use Rattle.chaos_execute.specs.Numbered.{counted, places_at, rows_at, IsGrown, IsNewIn, IsNumbered};
ghost use Rattle.chaos_execute.specs.Pending.{joined_at, put_slot, rows_of};
ghost use Rattle.chaos_move.specs.Moves.{changed, number_at};

use crate::rows::put;
use chaos_move::change;
use fd_words::{Combine, Memory, Numbers};
use std::alloc::Global;
use std::marker::Model;

/// Values by place, in the order in which the places came: place and value of each, one after another,
/// and a table of their numbers in that order; seen as a list of pairs. The table has a word for each
/// place up to the last.
#[derive(Drop)]
pub struct NumberedRows {
    table: Vec<u32>,
    rows: Vec<i64>,
}

impl Model for NumberedRows {
    ghost use Rattle.std.specs.Prelude.{List, ℤ};
    ghost use Rattle.chaos_execute.specs.Numbered.{rows_at, IsNumbered};

    ghost Value = { List (ℤ × ℤ) };

    ghost view = { λ r. rows_at r.rows.items };

    ghost invariant = { λ r. IsNumbered r.table.items r.rows.items };
}

/// Stands in a table where a place has no number.
const NONE: u32 = u32::MAX;

impl NumberedRows {
    pub fn new(alloc: Global) -> NumberedRows
        ensures { result ≡ [] }
    {
        NumberedRows {
            table: Vec::new(alloc),
            rows: Vec::new(alloc),
        }
    }

    /// Joins a value with the one that a place has, or is its first.
    pub fn join(&mut self, operator: Option<Combine>, place: u64, value: i64) -> Result<(), Memory>
        requires { place < 2 ^ 63 }
        ensures { OnOk result (self.new ≡ joined_at operator self.old (pos place) value) }
    {
        match find(self.table.as_slice(), self.rows.len() / 2, place) {
            Some(number) => {
                change_at(&mut self.rows, operator, number, value);
                Ok(())
            }
            None => add(&mut self.table, &mut self.rows, place, value),
        }
    }

    /// Place and value of each, one after another, as they are.
    pub fn into_numbers(self) -> Numbers
        ensures { result ≡ rows_of self }
    {
        let NumberedRows {
            table: _table,
            rows,
        } = self;
        whole_rows(rows)
    }

    /// Puts each value in its slot.
    pub fn fill(&self, numbers: &mut Numbers)
        ensures { numbers.new ≡ fold put_slot numbers.old self.now }
    {
        fill_from(self.rows.as_slice(), numbers);
    }
}

/// The number of a place among so many.
fn find(table: &[u32], count: usize, place: u64) -> Option<usize>
    ensures { result ≡ counted count (slice_get table.now place) }
{
    match table.get(place as usize) {
        Some(number) => {
            let number = *number as usize;
            if number < count { Some(number) } else { None }
        }
        None => None,
    }
}

fn change_at(rows: &mut Vec<i64>, operator: Option<Combine>, number: usize, value: i64)
    requires { 2 * number + 1 < length rows.old.items }
    ensures { rows.new.items ≡ set rows.old.items (2 * number + 1) (changed operator (number_at rows.old.items (2 * number + 1)) value) }
{
    let at = 2 * number + 1;
    rows[at] = change(operator, rows[at], value);
}

/// A place that is new gets the next number. A place whose value found no room is no row, and is written
/// over by the next.
fn add(table: &mut Vec<u32>, rows: &mut Vec<i64>, place: u64, value: i64) -> Result<(), Memory>
    requires numbered { IsNumbered table.old.items rows.old.items }
    requires small { place < 2 ^ 63 }
    requires is_new { IsNewIn (places_at rows.old.items) place }
    ensures numbered { IsNumbered table.new.items rows.new.items }
    ensures joined { (operator : _) → OnOk result (rows_at rows.new.items ≡ joined_at operator (rows_at rows.old.items) (pos place) value) }
{
    let number = rows.len() / 2;
    if number >= NONE as usize {
        return Err(Memory);
    }
    grow(table, place)?;
    rows.truncate(2 * number);
    rows.push(place as i64)?;
    rows.push(value)?;
    table[place as usize] = number as u32;
    Ok(())
}

/// The table reaches the place.
fn grow(table: &mut Vec<u32>, place: u64) -> Result<(), Memory>
    ensures grown { IsGrown table.old.items table.new.items }
    ensures long { OnOk result (place < length table.new.items) }
{
    while table.len() as u64 <= place {
        table.push(NONE)?;
    }
    Ok(())
}

fn whole_rows(rows: Vec<i64>) -> Numbers
    ensures { result ≡ rows_of (rows_at rows.items) }
{
    let mut rows = rows;
    let count = rows.len() / 2;
    rows.truncate(2 * count);
    Numbers::from_vec(rows)
}

fn fill_from(rows: &[i64], numbers: &mut Numbers)
    ensures { numbers.new ≡ fold put_slot numbers.old (rows_at rows.now) }
{
    for at in 0..rows.len() / 2 {
        put(numbers, &rows[2 * at], &rows[2 * at + 1]);
    }
}
