ghost use Rattle.std.specs.Prelude.{◌≡◌, ◌≤◌, ◌<◌, ◌++◌, ◌∷◌, [], length, pos, OnOk, IfOk};
ghost use Rattle.chaos_table.specs.Pages.{counts_of, owners_on};

use crate::owners::owners_given;
use chaos_dist::tally;
use fd_words::{Memory, NumberLists, Numbers};
use std::alloc::Global;

/// For each node the number of elements of a page that it owns. List q of `pairs` has pairs of an
/// element and its owner; of several pairs of an element the last counts, an element without a pair
/// belongs to node 0, and a pair whose owner is no node is left out.
pub fn page_counts(
    alloc: Global,
    extent: u64,
    nodes: u32,
    page: u32,
    pairs: &NumberLists,
) -> Result<Numbers, Memory>
    requires small { 1 ≤ extent }
    requires large { extent ≤ 4294967296 }
    requires some { 1 ≤ nodes }
    requires few { nodes ≤ 16 }
    requires page { page < nodes }
    ensures { IfOk result (λ counts. counts ≡ counts_of nodes (owners_on extent nodes page pairs.now)) }
{
    let owners = owners_given(alloc, extent, nodes, page, pairs)?;
    counts(alloc, nodes, owners.as_slice())
}

fn counts(alloc: Global, nodes: u32, owners: &[u32]) -> Result<Numbers, Memory>
    requires few { nodes ≤ 16 }
    requires short { length owners.now ≤ 4294967296 }
    ensures { IfOk result (λ counts. counts ≡ counts_of nodes owners.now) }
{
    let tally = tally(owners);
    let mut counts = Numbers::new(alloc);
    for node in 0..nodes {
        note(&mut counts, tally[node as usize])?;
    }
    Ok(counts)
}

/// Appends a count.
fn note(counts: &mut Numbers, count: u64) -> Result<(), Memory>
    requires { count ≤ 4294967296 }
    ensures { OnOk result (counts.new ≡ counts.old ++ pos count ∷ []) }
{
    counts.push(count as i64)
}
