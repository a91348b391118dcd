ghost use Rattle.std.specs.Prelude.{◌≡◌, [], fold, IfOk, OnOk};
ghost use Rattle.chaos_execute.specs.Pending.{joined_at, joined_value, put_slot, rows_of};

use crate::rows::{add_row, put};
use chaos_move::change;
use fd_words::{Combine, Memory, Numbers};
use indexmap::IndexMap;
use std::alloc::Global;
use std::marker::Model;

/// Values by place, in the order in which the places came, found by a hash of the place; seen as a list
/// of pairs.
#[derive(Drop)]
pub struct HashedRows {
    table: IndexMap<i64, i64>,
}

impl Model for HashedRows {
    ghost use Rattle.std.specs.Prelude.{List, ℤ};

    ghost Value = { List (ℤ × ℤ) };

    ghost view = { λ r. r.table.entries };
}

impl HashedRows {
    pub fn new(alloc: Global) -> HashedRows
        ensures { result ≡ [] }
    {
        HashedRows {
            table: IndexMap::new(alloc),
        }
    }

    /// Joins a value with the one that a place has, or is its first.
    pub fn join(&mut self, operator: Option<Combine>, place: i64, value: i64) -> Result<(), Memory>
        ensures { OnOk result (self.new ≡ joined_at operator self.old place value) }
    {
        join_in(&mut self.table, operator, place, value)
    }

    /// Place and value of each, one after another.
    pub fn numbers(&self, alloc: Global) -> Result<Numbers, Memory>
        ensures { IfOk result (λ numbers. numbers ≡ rows_of self.now) }
    {
        numbers_in(alloc, &self.table)
    }

    /// Puts each value in its slot.
    pub fn fill(&self, numbers: &mut Numbers)
        ensures { numbers.new ≡ fold put_slot numbers.old self.now }
    {
        fill_from(&self.table, numbers);
    }
}

fn fill_from(table: &IndexMap<i64, i64>, numbers: &mut Numbers)
    ensures { numbers.new ≡ fold put_slot numbers.old table.now.entries }
{
    for at in 0..table.len() {
        let (slot, value) = table.get_index(at).unwrap();
        put(numbers, slot, value);
    }
}

fn join_in(
    table: &mut IndexMap<i64, i64>,
    operator: Option<Combine>,
    local: i64,
    value: i64,
) -> Result<(), Memory>
    ensures { OnOk result (table.new.entries ≡ joined_at operator table.old.entries local value) }
{
    let before = table.get(&local).copied();
    match table.insert(local, join_value(operator, before, value)) {
        Ok(_) => Ok(()),
        Err(_) => Err(Memory),
    }
}

fn join_value(operator: Option<Combine>, before: Option<i64>, value: i64) -> i64
    ensures { result ≡ joined_value operator before value }
{
    match before {
        Some(before) => change(operator, before, value),
        None => value,
    }
}

fn numbers_in(alloc: Global, table: &IndexMap<i64, i64>) -> Result<Numbers, Memory>
    ensures { IfOk result (λ numbers. numbers ≡ rows_of table.now.entries) }
{
    let mut numbers = Numbers::new(alloc);
    for at in 0..table.len() {
        let (local, value) = table.get_index(at).unwrap();
        add_row(&mut numbers, local, value)?;
    }
    Ok(numbers)
}
