ghost use Rattle.std.specs.Prelude.{◌≡◌, ◌≤◌, ◌<◌, ◌+◌, pos, All, length, replicate, slice_set, IfOk};
ghost use Rattle.std.specs.List.{slice_index_or};
ghost use Rattle.chaos_table.specs.Pages.{first_on, owners_on, pairs_in, all_pairs, node_named};
ghost use Rattle.chaos_table.specs.Noting.{noted, noted_all, place_named};

use crate::width::{first, size};
use fd_words::{Memory, NumberLists, Numbers};
use std::alloc::Global;

/// The owners of a page's elements: of several pairs of an element and its owner the last counts, an
/// element without a pair belongs to node 0, and a pair whose owner is no node is left out.
pub(crate) fn owners_given(
    alloc: Global,
    extent: u64,
    nodes: u32,
    page: u32,
    pairs: &NumberLists,
) -> Result<Vec<u32>, Memory>
    requires small { 1 ≤ extent }
    requires large { extent ≤ 4294967296 }
    requires some { 1 ≤ nodes }
    requires few { nodes ≤ 16 }
    requires page { page < nodes }
    ensures owners { IfOk result (λ owners. owners.items ≡ owners_on extent nodes page pairs.now) }
    ensures nodes { IfOk result (λ owners. All (λ o. o < nodes) owners.items) }
    ensures short { IfOk result (λ owners. length owners.items ≤ 4294967296) }
{
    let mut owners = zeros(alloc, size(extent, nodes, page))?;
    note_lists(
        first(extent, nodes, page),
        nodes,
        pairs.as_slice(),
        &mut owners,
    );
    Ok(owners)
}

/// So many elements of node 0.
fn zeros(alloc: Global, size: u64) -> Result<Vec<u32>, Memory>
    ensures { IfOk result (λ owners. owners.items ≡ replicate size 0) }
{
    let owners = vec![in alloc; 0u32; size as usize]?;
    Ok(owners)
}

fn note_lists(first: u64, nodes: u32, lists: &[Numbers], owners: &mut Vec<u32>)
    ensures { owners.new.items ≡ noted_all first nodes (all_pairs lists.now) owners.old.items }
{
    for list in lists {
        note_pairs(first, nodes, list.as_slice(), owners);
    }
}

fn note_pairs(first: u64, nodes: u32, list: &[i64], owners: &mut Vec<u32>)
    ensures { owners.new.items ≡ noted_all first nodes (pairs_in list.now) owners.old.items }
{
    for i in 0..list.len() / 2 {
        note_at(first, nodes, list, 2 * i, owners);
    }
}

fn note_at(first: u64, nodes: u32, list: &[i64], at: usize, owners: &mut Vec<u32>)
    requires { at + 1 < length list.now }
    ensures { owners.new.items ≡ noted first nodes (slice_index_or list.now at (pos 0), slice_index_or list.now (at + 1) (pos 0))
        owners.old.items }
{
    note(first, nodes, list[at], list[at + 1], owners);
}

fn note(first: u64, nodes: u32, element: i64, owner: i64, owners: &mut Vec<u32>)
    ensures { owners.new.items ≡ noted first nodes (element, owner) owners.old.items }
{
    if let (Some(at), Some(owner)) = (place(first, element), node(nodes, owner)) {
        put(owners, at, owner);
    }
}

/// Changes the owner at a place of the page; nothing behind its end.
fn put(owners: &mut Vec<u32>, at: u64, owner: u32)
    ensures { owners.new.items ≡ slice_set owners.old.items at owner }
{
    if at < owners.len() as u64 {
        owners[at as usize] = owner;
    }
}

/// How far behind the page's first element an element stands.
fn place(first: u64, element: i64) -> Option<u64>
    ensures { result ≡ place_named first element }
{
    let element = u64::try_from(element).ok()?;
    element.checked_sub(first)
}

/// The node that a number names, if it names one.
fn node(nodes: u32, owner: i64) -> Option<u32>
    ensures { result ≡ node_named nodes owner }
{
    let owner = u32::try_from(owner).ok()?;
    if owner < nodes { Some(owner) } else { None }
}
