ghost use Rattle.std.specs.Prelude.{◌≡◌, ◌≤◌, ◌<◌, pos, length, IfOk, IfSome, OnOk};
ghost use Rattle.std.specs.List.{slice_index_or};
ghost use Rattle.fd_words.specs.Value.{remainder_of};
ghost use Rattle.fd_program.specs.Stores.{number_at};
ghost use Rattle.chaos_moving.specs.Pairs.{element_within, map_pairs, pairs_to_page, with_pairs};

use crate::Share;
use chaos_table::page_of;
use fd_words::{Memory, NumberLists, Numbers, remainder};
use std::alloc::Global;

/// The pairs of an element of a map array and the owner that it names, by page. `elements` has the
/// elements of the array's decomposition on this node, and `values` the array's local part.
pub(crate) fn pair_lists(
    alloc: Global,
    share: &Share,
    offset: u64,
    elements: &Numbers,
    values: &Numbers,
) -> Result<NumberLists, Memory>
    ensures { IfOk result (λ lists. lists ≡ map_pairs share.now.extent share.now.nodes offset elements.now values.now) }
{
    pair_all(
        alloc,
        share.extent,
        share.nodes,
        offset,
        elements.as_slice(),
        values,
    )
}

fn pair_all(
    alloc: Global,
    extent: u64,
    nodes: u32,
    offset: u64,
    elements: &[i64],
    values: &Numbers,
) -> Result<NumberLists, Memory>
    requires large { extent ≤ 1048576 }
    requires some { 1 ≤ nodes }
    requires few { nodes ≤ 16 }
    ensures { IfOk result (λ lists. lists ≡ map_pairs extent nodes offset elements.now values.now) }
{
    let mut lists = NumberLists::empty(alloc, nodes)?;
    for at in 0..elements.len() {
        let element = named(extent, offset, elements, at);
        add_pair(&mut lists, extent, nodes, element, values, at as u64)?;
    }
    Ok(lists)
}

/// The element of the array that stands at an element of its decomposition.
fn named(extent: u64, offset: u64, elements: &[i64], at: usize) -> Option<u64>
    requires { at < length elements.now }
    ensures element { result ≡ element_within extent offset (slice_index_or elements.now at (pos 0)) }
    ensures some { IfSome result (λ g. 1 ≤ g) }
    ensures most { IfSome result (λ g. g ≤ extent) }
{
    let element = u64::try_from(elements[at]).ok()?;
    if offset < element && element - offset <= extent {
        Some(element - offset)
    } else {
        None
    }
}

fn add_pair(
    lists: &mut NumberLists,
    extent: u64,
    nodes: u32,
    element: Option<u64>,
    values: &Numbers,
    at: u64,
) -> Result<(), Memory>
    requires large { extent ≤ 1048576 }
    requires some { 1 ≤ nodes }
    requires few { nodes ≤ 16 }
    requires from_one { IfSome element (λ g. 1 ≤ g) }
    requires within { IfSome element (λ g. g ≤ extent) }
    ensures { OnOk result (lists.new ≡ with_pairs lists.old (pairs_to_page extent nodes element (number_at values.now at))) }
{
    match element {
        Some(element) => {
            let page = u64::from(page_of(extent, nodes, element));
            lists.push_to(page, element as i64)?;
            lists.push_to(page, i64::from(owner(values, at, nodes)))
        }
        None => Ok(()),
    }
}

/// The owner that the value at a place names.
fn owner(values: &Numbers, at: u64, nodes: u32) -> u32
    requires some { 1 ≤ nodes }
    requires few { nodes ≤ 16 }
    ensures { result ≡ remainder_of (number_at values.now at) nodes }
{
    match values.get(at) {
        Some(value) => remainder(value, nodes),
        None => remainder(0, nodes),
    }
}
