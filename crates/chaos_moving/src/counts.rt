ghost use Rattle.std.specs.Prelude.{◌≡◌, [], ◌∷◌, ◌++◌, map, IfOk, OnOk};
ghost use Rattle.chaos_dist.specs.Counting.{below};
ghost use Rattle.chaos_table.specs.Pages.{counts_of, owners_on};

use crate::Share;
use chaos_table::page_counts;
use fd_words::{Memory, NumberLists, Numbers};
use std::alloc::Global;

/// To each node how many elements of this node's page each node owns.
pub(crate) fn count_lists(
    alloc: Global,
    share: &Share,
    pairs: &NumberLists,
) -> Result<NumberLists, Memory>
    ensures { IfOk result (λ lists. lists
        ≡ map (λ q. counts_of share.now.nodes (owners_on share.now.extent share.now.nodes share.now.me pairs.now))
        (below share.now.nodes)) }
{
    let counts = page_counts(alloc, share.extent, share.nodes, share.me, pairs)?;
    copies(alloc, share.nodes, &counts)
}

fn copies(alloc: Global, nodes: u32, numbers: &Numbers) -> Result<NumberLists, Memory>
    ensures { IfOk result (λ lists. lists ≡ map (λ q. numbers.now) (below nodes)) }
{
    let mut lists = NumberLists::new(alloc);
    for _node in 0..nodes {
        add_copy(&mut lists, alloc, numbers)?;
    }
    Ok(lists)
}

fn add_copy(lists: &mut NumberLists, alloc: Global, numbers: &Numbers) -> Result<(), Memory>
    ensures { OnOk result (lists.new ≡ lists.old ++ numbers.now ∷ []) }
{
    lists.push(numbers.copy(alloc)?)
}
