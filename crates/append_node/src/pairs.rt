ghost use Rattle.std.specs.Prelude.{◌≡◌, ◌++◌, ◌≤◌, ◌<◌, ◌^◌, [], length, map, slice_range, IfOk, OnOk};
ghost use Rattle.chaos_bins.specs.Ascending.{IsAscending};
ghost use Rattle.chaos_bins.specs.Bins.{pair_le, sorted_by};
ghost use Rattle.chaos_bins.specs.Lines.{through};
ghost use Rattle.chaos_bins.specs.Plan.{flat, pairs_in};
ghost use Rattle.append_node.specs.Keys.{limit, pair_of};

use chaos_bins::at;
use fd_words::{Memory, Numbers};
use std::alloc::Global;
use std::marker::Model;

/// A bin and a value as one number; these stand in the order of pairs, by bin and then by value.
fn key(bin: i64, value: i64) -> u128
    ensures { pair_of result ≡ (bin, value) }
{
    (i128::from(bin) + 9_223_372_036_854_775_808) as u128 * 18_446_744_073_709_551_616
        + (i128::from(value) + 9_223_372_036_854_775_808) as u128
}

fn bin_in(key: u128) -> i64
    ensures { result ≡ (pair_of key).0 }
{
    ((key / 18_446_744_073_709_551_616) as i128 - 9_223_372_036_854_775_808) as i64
}

/// The value of a pair that stands as one number.
pub fn value_in(key: u128) -> i64
    ensures { result ≡ (pair_of key).1 }
{
    ((key % 18_446_744_073_709_551_616) as i128 - 9_223_372_036_854_775_808) as i64
}

/// Appends pairs as numbers.
fn add_keys(keys: &mut Vec<u128>, rows: &[i64]) -> Result<(), Memory>
    ensures { OnOk result (map pair_of keys.new.items ≡ map pair_of keys.old.items ++ pairs_in rows.now) }
{
    for k in 0..rows.len() / 2 {
        let bin = at(rows, 2 * k);
        let value = at(rows, 2 * k + 1);
        keys.push(key(bin, value))?;
    }
    Ok(())
}

/// The pairs of such numbers, one after another.
fn numbers_of(alloc: Global, keys: &[u128]) -> Result<Numbers, Memory>
    ensures { IfOk result (λ numbers. numbers ≡ flat (map pair_of keys.now)) }
{
    let mut numbers = Numbers::new(alloc);
    for key in keys {
        numbers.push(bin_in(*key))?;
        numbers.push(value_in(*key))?;
    }
    Ok(numbers)
}

/// Pairs of bin and value, seen as a list.
#[derive(Drop)]
pub struct Pairs {
    keys: Vec<u128>,
}

impl Model for Pairs {
    ghost use Rattle.std.specs.Prelude.{List, ℤ, map};
    ghost use Rattle.append_node.specs.Keys.{pair_of};

    ghost Value = { List (ℤ × ℤ) };

    ghost view = { λ s. map pair_of s.keys.items };
}

impl Pairs {
    /// No pair, which takes no memory.
    pub fn new(alloc: Global) -> Pairs
        ensures { result ≡ [] }
    {
        Pairs {
            keys: Vec::new(alloc),
        }
    }

    /// Appends the pairs of a flat list.
    pub fn add(&mut self, rows: &[i64]) -> Result<(), Memory>
        ensures { OnOk result (self.new ≡ self.old ++ pairs_in rows.now) }
    {
        add_keys(&mut self.keys, rows)
    }

    /// The same pairs in ascending order.
    pub fn sorted(self) -> SortedPairs
        ensures { result ≡ sorted_by pair_le self }
    {
        let Pairs { keys } = self;
        let mut keys = keys;
        keys.sort_unstable();
        SortedPairs { keys }
    }
}

/// Pairs of bin and value in ascending order, seen as a list.
#[derive(Drop)]
pub struct SortedPairs {
    keys: Vec<u128>,
}

impl Model for SortedPairs {
    ghost use Rattle.std.specs.Prelude.{List, ℤ, map};
    ghost use Rattle.std.specs.List.Sorted.{IsNonDecreasing};
    ghost use Rattle.append_node.specs.Keys.{pair_of};

    ghost Value = { List (ℤ × ℤ) };

    ghost view = { λ s. map pair_of s.keys.items };

    ghost invariant = { λ s. IsNonDecreasing s.keys.items };
}

impl SortedPairs {
    /// The pairs as a flat list.
    pub fn numbers(&self, alloc: Global) -> Result<Numbers, Memory>
        ensures { IfOk result (λ numbers. numbers ≡ flat self.now) }
    {
        numbers_of(alloc, self.keys.as_slice())
    }

    /// How many pairs have a bin up to this one.
    pub fn through(&self, bin: u32) -> usize
        ensures is { result ≡ through bin self.now }
        ensures within { result ≤ length self.now }
        ensures up { IsAscending pair_le self.now }
    {
        let limit = (u128::from(bin) + 9_223_372_036_854_775_809) * 18_446_744_073_709_551_616;
        self.keys.as_slice().partition_point(|key| *key < limit)
    }

    /// The pairs from a place on to another, as numbers.
    pub fn between(&self, from: usize, to: usize) -> &[u128]
        requires order { from ≤ to }
        requires within { to ≤ length self.now }
        ensures { map pair_of result.now ≡ slice_range self.now from to }
    {
        &self.keys.as_slice()[from..to]
    }
}
