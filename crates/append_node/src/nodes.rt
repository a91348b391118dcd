ghost use Rattle.std.specs.Prelude.{◌≡◌, ◌-◌, ◌<◌, ◌≤ℤ◌, pos, length, map, All, IfOk};
ghost use Rattle.bsp_core.specs.Turns.{Begins};
ghost use Rattle.bsp_core.specs.Views.{View};
ghost use Rattle.chaos_dist.specs.Layout.{elements_of};
ghost use Rattle.chaos_dist.specs.declared.shape.Shape.TheVariants.{Block};
ghost use Rattle.chaos_bins.specs.Plan.{append_rows};
ghost use Rattle.chaos_bins.specs.Rows.{number_at};
ghost use Rattle.append_node.specs.Ending.{NodesEndWithTheLines};
ghost use Rattle.append_node.specs.Node.{AppendState, append_holds, plan_of};

use crate::{AppendJob, AppendNode};
use bsp_core::NodeList;
use chaos_bins::at;
use chaos_dist::{Regular, Shape};
use fd_words::{Memory, Numbers};
use std::alloc::Global;

/// The numbers of a node's block.
fn block_of(alloc: Global, layout: Regular, numbers: &Numbers, node: u32) -> Result<Numbers, Memory>
    requires block { layout.shape ≡ Block }
    requires node { node < layout.nodes }
    ensures { IfOk result (λ own.
        own ≡ map (λ g. number_at numbers.now (g - 1)) (elements_of Block layout.extent layout.nodes node)) }
{
    let mut own = Numbers::new(alloc);
    for local in 0..layout.length_on(node) {
        let element = layout.global_of(node, local);
        own.push(at(numbers.as_slice(), (element - 1) as usize))?;
    }
    Ok(own)
}

/// The nodes of a job, each with its block of these first bins and values.
pub fn append_nodes(
    alloc: Global,
    job: &AppendJob,
    bins: &Numbers,
    values: &Numbers,
) -> Result<NodeList<AppendNode>, Memory>
    requires count { length bins.now ≡ job.now.count }
    requires in_bins { All (λ b. (pos 1 ≤ℤ b) × (b ≤ℤ pos job.now.bins)) bins.now }
    ensures { IfOk result (λ nodes. Begins (append_rows (plan_of job.now bins.now values.now))
        (append_holds (plan_of job.now bins.now values.now)) job.now.nodes (map (λ (s : View AppendState). s) nodes)) }
{
    let layout = Regular {
        extent: job.count,
        nodes: job.nodes,
        shape: Shape::Block,
    };
    let mut nodes = NodeList::new(alloc);
    for id in 0..job.nodes {
        let first = block_of(alloc, layout, bins, id)?;
        let own = block_of(alloc, layout, values, id)?;
        nodes.push(AppendNode::start(alloc, job, id, first, own)?)?;
    }
    Ok(nodes)
}

/// At the end of a plan node 0 has the lines of its particles, and all others have no text.
pub fn nodes_end_with_the_lines()
    ensures { NodesEndWithTheLines }
{}
