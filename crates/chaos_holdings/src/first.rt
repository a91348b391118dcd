ghost use Rattle.std.specs.Prelude.{◌≡◌, ◌≤◌, ◌<◌, All, map, pos, replicate, IfOk};
ghost use Rattle.chaos_dist.specs.Owners.{elements_on, regular_owners};
ghost use Rattle.chaos_dist.specs.declared.shape.Shape.TheVariants.{Block};
ghost use Rattle.fd_program.specs.Checks.{IsChecked, IsExtent};
ghost use Rattle.fd_program.specs.Reports.{no_count};
ghost use Rattle.fd_program.specs.declared.array.LayoutName.{LayoutName as ALayout};
ghost use Rattle.chaos_holdings.specs.Starting.{HoldsFirst, block_elements, no_pages};

use crate::holdings::Holdings;
use crate::kept_list::KeptList;
use crate::session::Session;
use chaos_dist::{Regular, Shape};
use chaos_records::Records;
use fd_program::{LayoutNames, SiteCount, SiteCounts};
use fd_words::{Memory, NumberLists, Numbers};
use inspect_places::PageSet;
use node_tables::TableSet;
use sqlite_items::Items;
use std::alloc::Global;

/// The elements of a decomposition in blocks that stand on a node.
fn elements_of_block(alloc: Global, extent: u64, nodes: u32, node: u32) -> Result<Numbers, Memory>
    requires some { 1 ≤ extent }
    requires most { extent ≤ 1048576 }
    requires few { nodes ≤ 16 }
    requires node { node < nodes }
    ensures { IfOk result (λ numbers. numbers ≡ map pos (elements_on (regular_owners Block extent nodes) node)) }
{
    let layout = Regular {
        extent,
        nodes,
        shape: Shape::Block,
    };
    let mut elements = Numbers::new(alloc);
    for local in 0..layout.length_on(node) {
        elements.push(layout.global_of(node, local) as i64)?;
    }
    Ok(elements)
}

/// For each decomposition its elements on a node, in blocks.
fn elements_of_blocks(
    alloc: Global,
    layouts: &LayoutNames,
    nodes: u32,
    node: u32,
) -> Result<NumberLists, Memory>
    requires layouts { All (λ (l : ALayout). IsExtent l.extent) layouts.now }
    requires few { nodes ≤ 16 }
    requires node { node < nodes }
    ensures { IfOk result (λ lists. lists ≡ block_elements nodes layouts.now node) }
{
    let mut lists = NumberLists::new(alloc);
    let all = layouts.as_slice();
    for k in 0..all.len() {
        lists.push(elements_of_block(alloc, all[k].extent, nodes, node)?)?;
    }
    Ok(lists)
}

/// No counts of so many FORALLs yet.
pub fn counts_of_none(alloc: Global, sites: usize) -> Result<SiteCounts, Memory>
    ensures { IfOk result (λ counts. counts ≡ replicate sites no_count) }
{
    let mut counts = Items::new(alloc);
    for _site in 0..sites {
        counts.push(SiteCount::none())?;
    }
    Ok(counts)
}

/// No page yet of so many decompositions.
fn pages_of_none(alloc: Global, layouts: usize) -> Result<PageSet, Memory>
    ensures { IfOk result (λ pages. pages ≡ no_pages layouts) }
{
    let mut pages = Items::new(alloc);
    for _layout in 0..layouts {
        pages.push(None)?;
    }
    Ok(pages)
}

/// What a node has at its start: its local parts while every decomposition is in blocks, and nothing else.
pub fn first_holdings(
    alloc: Global,
    session: &Session,
    id: u32,
    own: NumberLists,
) -> Result<Holdings, Memory>
    requires node { id < session.now.nodes }
    requires few { session.now.nodes ≤ 16 }
    requires checked { IsChecked session.now.checked }
    ensures { IfOk result (HoldsFirst session.now id own) }
{
    let checked = &session.checked;
    let layouts = checked.layouts.len();
    Ok(Holdings {
        elements: elements_of_blocks(alloc, &checked.layouts, session.nodes, id)?,
        parts: own,
        records: Records::new(alloc, checked.arrays.len() as u32, layouts as u32)?,
        pages: pages_of_none(alloc, layouts)?,
        kept: KeptList::new(alloc, checked.sites.len())?,
        tables: TableSet::new(alloc, layouts as u32)?,
    })
}
