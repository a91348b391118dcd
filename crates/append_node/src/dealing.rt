ghost use Rattle.std.specs.Prelude.{◌≡◌, ◌≤◌, ◌^◌, [], map, replicate, IfOk};
ghost use Rattle.chaos_bins.specs.Coming.{all_pairs};
ghost use Rattle.chaos_bins.specs.Dealing.{dealt_rows, stepped};
ghost use Rattle.chaos_dist.specs.declared.shape.Shape.TheVariants.{Block};

use crate::parts::part;
use chaos_bins::deal;
use chaos_dist::Regular;
use chaos_letter::Letter;
use fd_words::{Memory, NumberLists};
use std::alloc::Global;

/// For each node the pairs that go to it in the next round, of all that node `me` has and took.
pub fn deal_all(
    alloc: Global,
    layout: Regular,
    me: u32,
    own: &[i64],
    got: &[Letter],
) -> Result<NumberLists, Memory>
    requires few { layout.extent ≤ 2 ^ 16 }
    requires block { layout.shape ≡ Block }
    ensures { IfOk result (λ lists. lists
        ≡ dealt_rows layout.extent layout.nodes (replicate layout.nodes [])
        (map (stepped layout.extent) (all_pairs layout.nodes me own.now got.now))) }
{
    let mut lists = NumberLists::empty(alloc, layout.nodes)?;
    for node in 0..layout.nodes {
        deal(&mut lists, layout, part(me, own, got, node))?;
    }
    Ok(lists)
}
