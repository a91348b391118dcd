//! All nodes of a bisection.
ghost use Rattle.std.specs.Prelude.{◌≡◌, ◌<◌, map, IfOk};
ghost use Rattle.bsp_core.specs.Turns.{Begins};
ghost use Rattle.bsp_core.specs.Views.{View};
ghost use Rattle.chaos_dist.specs.declared.shape.Shape.TheVariants.{Block};
ghost use Rattle.bisect_node.specs.Blocks.{block_in, own_in};
ghost use Rattle.bisect_node.specs.Plans.{BisectPlan, IsBisectPlan, IsOfJob, bisect_rows};
ghost use Rattle.bisect_node.specs.States.{BisectState, bisect_holds};

use crate::node::blocks;
use crate::numbers::number_at;
use crate::{BisectNode, Job};
use bsp_core::NodeList;
use chaos_dist::Regular;
use fd_words::{Memory, NumberLists, Numbers};
use std::alloc::Global;

/// The coordinates of a node's elements on an axis.
fn block_of(alloc: Global, layout: Regular, node: u32, axis: &Numbers) -> Result<Numbers, Memory>
    requires shape { layout.shape ≡ Block }
    requires node { node < layout.nodes }
    ensures { IfOk result (λ own. own ≡ block_in layout.extent layout.nodes node axis.now) }
{
    let mut own = Numbers::new(alloc);
    for k in 0..layout.length_on(node) {
        own.push(number_at(axis, layout.global_of(node, k) - 1))?;
    }
    Ok(own)
}

/// The coordinates of a node's elements on each axis.
fn own_of(
    alloc: Global,
    layout: Regular,
    node: u32,
    axes: &NumberLists,
) -> Result<NumberLists, Memory>
    requires shape { layout.shape ≡ Block }
    requires node { node < layout.nodes }
    ensures { IfOk result (λ own. own ≡ own_in layout.extent layout.nodes node axes.now) }
{
    let mut own = NumberLists::new(alloc);
    let all = axes.as_slice();
    for axis in all {
        own.push(block_of(alloc, layout, node, axis)?)?;
    }
    Ok(own)
}

/// The nodes of a job, as their first phase begins, from the coordinates of all elements, one list for each
/// axis.
pub fn bisect_nodes(
    alloc: Global,
    job: &Job,
    axes: &NumberLists,
) -> Result<NodeList<BisectNode>, Memory>
    ensures { IfOk result (λ nodes. (plan : BisectPlan) → IsBisectPlan plan → IsOfJob job.now plan → plan.axes ≡ axes.now →
        Begins (bisect_rows plan) (bisect_holds plan) plan.nodes (map (λ (s : View BisectState). s) nodes)) }
{
    let mut nodes = NodeList::new(alloc);
    for node in 0..job.nodes {
        let own = own_of(alloc, blocks(*job), node, axes)?;
        let made = BisectNode::start(alloc, job, node, own)?;
        nodes.push(made)?;
    }
    Ok(nodes)
}
