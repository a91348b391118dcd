ghost use Rattle.std.specs.Prelude.{◌≡◌, ◌+◌, length, map, slice_get, unwrap_or, Some, IfOk};
ghost use Rattle.bsp_core.specs.Turns.{AreDone};
ghost use Rattle.bsp_core.specs.Views.{View, next_of};
ghost use Rattle.bsp_core.specs.declared.phased.Want.TheVariants.{Done};
ghost use Rattle.chaos_entering.specs.State.{NodeState};
ghost use Rattle.fd_program.specs.Reports.{no_count};
ghost use Rattle.fd_program.specs.declared.count.SiteCount.{SiteCount as ACount};
ghost use Rattle.chaos_engine.specs.Counts.{first_count, more_count, total_among, total_counts};
ghost use Rattle.plan_run.specs.StandLaws.{counted_at};

use bsp_core::NodeList;
use chaos_node::Node;
use fd_program::{SiteCount, SiteCounts};
use fd_words::Memory;
use sqlite_items::Items;
use std::alloc::Global;

/// What a FORALL counts on a node that is done.
fn count_on(node: &Node<'_>, site: usize) -> SiteCount
    ensures { next_of node.now.face ≡ Done → result ≡ counted_at node.now.state.end.counts site }
{
    let none = SiteCount {
        executed: 0,
        inspected: 0,
        gathered: 0,
        scattered: 0,
    };
    match node.ending() {
        Some(end) => end.counts.get(site).copied().unwrap_or(none),
        None => none,
    }
}

/// A sum; `Memory` where there would be 2^64 of something.
fn plus(one: u64, other: u64) -> Result<u64, Memory>
    ensures { IfOk result (λ sum. sum ≡ one + other) }
{
    match one.checked_add(other) {
        Some(sum) => Ok(sum),
        None => Err(Memory),
    }
}

/// The count with what one more node gathered and scattered.
fn more(count: SiteCount, one: SiteCount) -> Result<SiteCount, Memory>
    ensures { IfOk result (λ c. c ≡ more_count count one) }
{
    Ok(SiteCount {
        executed: count.executed,
        inspected: count.inspected,
        gathered: plus(count.gathered, one.gathered)?,
        scattered: plus(count.scattered, one.scattered)?,
    })
}

/// The first count of several, without what was gathered and scattered.
fn first(nodes: &[Node<'_>], site: usize) -> SiteCount
    ensures { AreDone (λ (s : View NodeState). s) nodes.now
        → result ≡ first_count (map (λ (v : View NodeState). counted_at v.state.end.counts site) nodes.now) }
{
    match nodes.first() {
        Some(node) => without_moves(count_on(node, site)),
        None => SiteCount {
            executed: 0,
            inspected: 0,
            gathered: 0,
            scattered: 0,
        },
    }
}

fn without_moves(count: SiteCount) -> SiteCount
    ensures { result ≡ record { executed = count.executed; inspected = count.inspected; gathered = 0; scattered = 0 } }
{
    SiteCount {
        executed: count.executed,
        inspected: count.inspected,
        gathered: 0,
        scattered: 0,
    }
}

/// What a FORALL counts on the node at a place, 0 where there is none.
fn count_at(nodes: &[Node<'_>], at: usize, site: usize) -> SiteCount
    ensures { (v : View NodeState) → slice_get nodes.now at ≡ Some v → next_of v.face ≡ Done → result ≡ counted_at v.state.end.counts site }
{
    match nodes.get(at) {
        Some(node) => count_on(node, site),
        None => SiteCount {
            executed: 0,
            inspected: 0,
            gathered: 0,
            scattered: 0,
        },
    }
}

/// What a FORALL counts on all nodes together: executed and inspected are those of node 0, gathered and
/// scattered are summed.
fn total(nodes: &[Node<'_>], site: usize) -> Result<SiteCount, Memory>
    ensures { IfOk result (λ c. AreDone (λ (s : View NodeState). s) nodes.now
        → c ≡ total_among (map (λ (v : View NodeState). counted_at v.state.end.counts site) nodes.now)) }
{
    let mut count = first(nodes, site);
    for at in 0..nodes.len() {
        count = more(count, count_at(nodes, at, site))?;
    }
    Ok(count)
}

/// For each FORALL what it counts on all nodes together.
pub(crate) fn totals(
    alloc: Global,
    sites: usize,
    nodes: &NodeList<Node<'_>>,
) -> Result<SiteCounts, Memory>
    ensures length { IfOk result (λ counts. length counts ≡ sites) }
    ensures totals { IfOk result (λ counts. AreDone (λ (s : View NodeState). s) nodes.now
        → counts ≡ total_counts sites (map (λ (v : View NodeState). v.state.end.counts) nodes.now)) }
{
    let all = nodes.as_slice();
    let mut counts = Items::new(alloc);
    for site in 0..sites {
        counts.push(total(all, site)?)?;
    }
    Ok(counts)
}
