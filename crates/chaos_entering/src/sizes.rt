ghost use Rattle.std.specs.Prelude.{◌≡◌, ◌/◌, map, length, IfOk};
ghost use Rattle.fd_words.specs.Lists.{list_at};
ghost use Rattle.chaos_entering.specs.Entering.{counts_behind, counts_behind_loop};

use fd_words::{Memory, NumberLists, Numbers};
use plan_loop::LoopPhase;
use plan_run::Stage;
use std::alloc::Global;

/// How long each list is.
pub fn sizes_of(alloc: Global, lists: &NumberLists) -> Result<Vec<u64>, Memory>
    ensures { IfOk result (λ sizes. sizes.items ≡ map length lists.now) }
{
    let mut sizes = Vec::new(alloc);
    let all = lists.as_slice();
    for list in all {
        sizes.push(list.len())?;
    }
    Ok(sizes)
}

/// The list for the node itself.
pub fn own_of(alloc: Global, lists: &NumberLists, me: u32) -> Result<Numbers, Memory>
    ensures { IfOk result (λ own. own ≡ list_at lists.now me) }
{
    match lists.get(u64::from(me)) {
        Some(list) => list.copy(alloc),
        None => Ok(Numbers::new(alloc)),
    }
}

/// How long the letter of each node is, where that is known from the lists that were sent in the phase
/// before: an answer is as long as its ask, values are half as many, and page counts are one for each node.
pub fn counts(alloc: Global, stage: Stage, nodes: u32, sizes: &[u64]) -> Result<Vec<u64>, Memory>
    ensures { IfOk result (λ counts. counts.items ≡ counts_behind stage nodes sizes.now) }
{
    match stage {
        Stage::PageCounts => Ok(vec![in alloc; u64::from(nodes); nodes as usize]?),
        Stage::MovingAnswer => Ok(Vec::from_slice(alloc, sizes)?),
        Stage::InLoop(phase) => counts_in_loop(alloc, phase, sizes),
        Stage::MapPairs(_) | Stage::MovingAsk | Stage::Remap => Ok(Vec::new(alloc)),
        Stage::Print | Stage::Output(_) => Ok(Vec::new(alloc)),
    }
}

fn counts_in_loop(alloc: Global, phase: LoopPhase, sizes: &[u64]) -> Result<Vec<u64>, Memory>
    ensures { IfOk result (λ counts. counts.items ≡ counts_behind_loop phase sizes.now) }
{
    match phase {
        LoopPhase::DerefAnswer(_) => Ok(Vec::from_slice(alloc, sizes)?),
        LoopPhase::IndexValues(_) => halved(alloc, sizes),
        LoopPhase::DerefAsk(_) | LoopPhase::IndexAsk(_) | LoopPhase::Vote => Ok(Vec::new(alloc)),
        LoopPhase::Iterations | LoopPhase::ScheduleAsk => Ok(Vec::new(alloc)),
        LoopPhase::Gather | LoopPhase::Scatter => Ok(Vec::new(alloc)),
    }
}

fn halved(alloc: Global, sizes: &[u64]) -> Result<Vec<u64>, Memory>
    ensures { IfOk result (λ counts. counts.items ≡ map (λ n. n / 2) sizes.now) }
{
    let mut counts = Vec::new(alloc);
    for size in sizes {
        counts.push(*size / 2)?;
    }
    Ok(counts)
}
