//! What a node begins a phase with.
ghost use Rattle.std.specs.Prelude.{◌≡◌, ◌+◌, ◌-◌, IfOk};
ghost use Rattle.bsp_core.specs.Views.{Ascends, nodes_in};
ghost use Rattle.bisect_node.specs.Ends.{IsPhaseFor};

use crate::Job;
use crate::stage::{stage_at, wanted_by, way_in};
use bsp_desk::{Phase, same_phase};
use chaos_letter::Letter;
use fd_words::{Memory, Numbers};
use std::alloc::Global;

/// The begin of a phase on a node that tells these numbers, where so many phases are left with it.
pub fn phase_with(
    alloc: Global,
    job: Job,
    phase: u32,
    left: u32,
    me: u32,
    told: &Numbers,
) -> Result<Phase, Memory>
    ensures begun { IfOk result (λ f. IsPhaseFor job phase left me told.now f) }
    ensures out_up { IfOk result (λ f. Ascends me job.nodes 0 (nodes_in f.out.items)) }
    ensures due_up { IfOk result (λ f. Ascends me job.nodes 0 (nodes_in f.due.items)) }
{
    let stage = stage_at(job.parts, phase);
    let wanted = wanted_by(job.axes, told.len(), phase, stage);
    let numbers = told.copy(alloc)?;
    let letter = Letter::new(wanted.kind, wanted.execution, wanted.site, numbers);
    let begun = same_phase(alloc, left, way_in(stage), me, job.nodes, &letter, wanted)?;
    Ok(begun)
}
