//! Particles dealt out to the nodes that own their bins.
ghost use Rattle.std.specs.Prelude.{◌≡◌, ◌≤◌, ◌^◌, ◌≤ℤ◌, pos, [], map, replicate, All, IfOk, OnOk};
ghost use Rattle.std.specs.List.{zip};
ghost use Rattle.chaos_bins.specs.Dealing.{dealt_rows, given, stepped};
ghost use Rattle.chaos_bins.specs.Plan.{pairs_in};
ghost use Rattle.chaos_bins.specs.Rows.{number_at};
ghost use Rattle.chaos_dist.specs.declared.shape.Shape.TheVariants.{Block};

use crate::stepping::step;
use chaos_dist::Regular;
use fd_words::{Memory, NumberLists};
use std::alloc::Global;

/// The number at a place, 0 from the end on.
pub fn at(numbers: &[i64], place: usize) -> i64
    ensures { result ≡ number_at numbers.now place }
{
    numbers.get(place).copied().unwrap_or(0)
}

/// Appends a particle to the list of the node that owns its bin.
fn give(lists: &mut NumberLists, layout: Regular, bin: i64, value: i64) -> Result<(), Memory>
    requires from_one { pos 1 ≤ℤ bin }
    requires within { bin ≤ℤ pos layout.extent }
    requires block { layout.shape ≡ Block }
    ensures { OnOk result (lists.new ≡ given layout.extent layout.nodes lists.old (bin, value)) }
{
    let owner = u64::from(layout.owner(bin as u64));
    lists.push_to(owner, bin)?;
    lists.push_to(owner, value)
}

/// The same, for the bin that a step brings it to.
fn give_moved(lists: &mut NumberLists, layout: Regular, bin: i64, value: i64) -> Result<(), Memory>
    requires few { layout.extent ≤ 2 ^ 16 }
    requires block { layout.shape ≡ Block }
    ensures { OnOk result (lists.new ≡ given layout.extent layout.nodes lists.old (stepped layout.extent (bin, value))) }
{
    let to = step(layout.extent as u32, value, bin);
    give(lists, layout, to, value)
}

/// Deals out pairs of bin and value, each to the owner of the bin that a step brings it to: those that stay and those that
/// go, behind what the lists have.
pub fn deal(lists: &mut NumberLists, layout: Regular, rows: &[i64]) -> Result<(), Memory>
    requires few { layout.extent ≤ 2 ^ 16 }
    requires block { layout.shape ≡ Block }
    ensures { OnOk result (lists.new
        ≡ dealt_rows layout.extent layout.nodes lists.old (map (stepped layout.extent) (pairs_in rows.now))) }
{
    for k in 0..rows.len() / 2 {
        let bin = at(rows, 2 * k);
        let value = at(rows, 2 * k + 1);
        give_moved(lists, layout, bin, value)?;
    }
    Ok(())
}

/// For each node the particles that go to it in round 0, by their first bins.
pub fn deal_first(
    alloc: Global,
    layout: Regular,
    bins: &[i64],
    values: &[i64],
) -> Result<NumberLists, Memory>
    requires in_bins { All (λ b. (pos 1 ≤ℤ b) × (b ≤ℤ pos layout.extent)) bins.now }
    requires block { layout.shape ≡ Block }
    ensures { IfOk result (λ lists. lists
        ≡ dealt_rows layout.extent layout.nodes (replicate layout.nodes []) (zip bins.now values.now)) }
{
    let mut lists = NumberLists::empty(alloc, layout.nodes)?;
    let count = bins.len().min(values.len());
    for k in 0..count {
        give(&mut lists, layout, bins[k], values[k])?;
    }
    Ok(lists)
}
