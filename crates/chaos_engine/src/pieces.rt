ghost use Rattle.std.specs.Prelude.{◌≡◌, ◌<◌, ◌≤◌, map, IfOk};
ghost use Rattle.chaos_dist.specs.Counting.{below};
ghost use Rattle.fd_program.specs.Checks.{layout_extent};
ghost use Rattle.fd_program.specs.Places.{decomposition_of, part_of, parts_of, value_on};
ghost use Rattle.fd_program.specs.Stores.{array_at, number_at};
ghost use Rattle.fd_words.specs.Lists.{list_at};
ghost use Rattle.chaos_holdings.specs.Starting.{block_owners};

use chaos_dist::{Regular, Shape};
use chaos_holdings::Session;
use fd_program::{ArrayFacts, ArrayList, Checked, LayoutNames, Store};
use fd_words::{Memory, NumberLists, Numbers};
use sqlite_items::Items;
use std::alloc::Global;

/// For each node the local parts of all arrays.
pub type PieceList = Items<NumberLists>;

fn extent_of(layouts: &LayoutNames, decomposition: u32) -> u64
    ensures { result ≡ layout_extent layouts.now decomposition }
{
    match layouts.get(decomposition as usize) {
        Some(layout) => layout.extent,
        None => 0,
    }
}

fn number_in(store: &Store, array: usize, at: u64) -> i64
    ensures { result ≡ number_at (list_at store.now array) at }
{
    match store.get(array as u64) {
        Some(values) => values.get(at).unwrap_or(0),
        None => 0,
    }
}

/// What the local part of an array holds for an element of the array's decomposition.
fn value_for(
    facts: &ArrayFacts,
    store: &Store,
    arrays: &ArrayList,
    array: usize,
    element: u64,
) -> i64
    requires { facts.now ≡ array_at arrays.now array }
    ensures { result ≡ value_on arrays.now store.now array element }
{
    let z = i128::from(element) - i128::from(facts.offset);
    if z < 1 || z > i128::from(facts.extent) {
        return 0;
    }
    number_in(store, array, (z - 1) as u64)
}

/// The local part of an array on a node.
fn part_on(
    alloc: Global,
    checked: &Checked,
    nodes: u32,
    store: &Store,
    facts: &ArrayFacts,
    array: usize,
    node: u32,
) -> Result<Numbers, Memory>
    requires few { nodes ≤ 16 }
    requires node { node < nodes }
    requires facts { facts.now ≡ array_at checked.now.arrays array }
    ensures { IfOk result (λ part. part ≡ part_of checked.now.arrays (block_owners nodes checked.now.layouts) store.now node array) }
{
    let mut part = Numbers::new(alloc);
    let extent = extent_of(&checked.layouts, facts.decomposition);
    if extent == 0 {
        return Ok(part);
    }
    let layout = Regular {
        extent,
        nodes,
        shape: Shape::Block,
    };
    for local in 0..layout.length_on(node) {
        let element = layout.global_of(node, local);
        part.push(value_for(facts, store, &checked.arrays, array, element))?;
    }
    Ok(part)
}

/// The local parts of all arrays on a node.
pub fn parts_on(
    alloc: Global,
    checked: &Checked,
    nodes: u32,
    store: &Store,
    node: u32,
) -> Result<NumberLists, Memory>
    requires few { nodes ≤ 16 }
    requires node { node < nodes }
    ensures { IfOk result (λ parts. parts ≡ parts_of checked.now.arrays (block_owners nodes checked.now.layouts) store.now node) }
{
    let mut parts = NumberLists::new(alloc);
    let all = checked.arrays.as_slice();
    for array in 0..all.len() {
        let facts = &all[array];
        parts.push(part_on(alloc, checked, nodes, store, facts, array, node)?)?;
    }
    Ok(parts)
}

/// The local parts of a store on each node, with every decomposition in blocks.
pub fn split(alloc: Global, session: &Session, store: &Store) -> Result<PieceList, Memory>
    requires { session.now.nodes ≤ 16 }
    ensures { IfOk result (λ pieces. pieces
        ≡ map (parts_of session.now.checked.arrays (block_owners session.now.nodes session.now.checked.layouts) store.now)
        (below session.now.nodes)) }
{
    let mut pieces = Items::new(alloc);
    for node in 0..session.nodes {
        pieces.push(parts_on(alloc, &session.checked, session.nodes, store, node)?)?;
    }
    Ok(pieces)
}
