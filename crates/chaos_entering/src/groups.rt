ghost use Rattle.std.specs.Prelude.{◌≡◌, ◌==◌, ◌+◌, ◌<◌, ◌^◌, length, count_by};
ghost use Rattle.fd_words.specs.Roles.{is_index as is_index_role};
ghost use Rattle.fd_program.specs.declared.array.ArrayFacts.{ArrayFacts as AnArray};
ghost use Rattle.chaos_entering.specs.Entering.{group_in, group_in_loop, indexes_in};
ghost use Rattle.plan_run.specs.Phases.{arrays_in as the_arrays};

use fd_program::{ArrayFacts, Checked, Reference};
use plan_loop::LoopPhase;
use plan_run::Stage;

/// How many of these arrays a decomposition has.
fn those_of(arrays: &[ArrayFacts], decomposition: u32) -> usize
    ensures number { result ≡ count_by (λ (a : AnArray). a.decomposition == decomposition) arrays.now }
    ensures few { result < 2 ^ 63 }
{
    arrays
        .iter()
        .filter(|array| array.decomposition == decomposition)
        .count()
}

/// How many arrays a decomposition has.
fn arrays_in(checked: &Checked, decomposition: u32) -> u64
    ensures number { result ≡ length (the_arrays checked.now decomposition) }
    ensures few { result < 2 ^ 63 }
{
    those_of(checked.arrays.as_slice(), decomposition) as u64
}

/// The numbers of an iteration with these references: its own, and one for each index reference.
fn width_of(references: &[Reference]) -> usize
    ensures { result ≡ 1 + count_by (λ r. is_index_role r.role) references.now }
{
    1 + references.iter().filter(|r| r.role.is_index()).count()
}

/// The numbers of an iteration of a FORALL.
fn width(checked: &Checked, site: u32) -> u64
    ensures { result ≡ 1 + indexes_in checked.now site }
{
    match checked.sites.get(site as usize) {
        Some(site) => width_of(site.references.as_slice()) as u64,
        None => 1,
    }
}

/// How many numbers belong together in the letters of a stage that is for this array, decomposition or
/// FORALL.
pub fn group(checked: &Checked, stage: Stage, site: u32) -> u64
    ensures { result ≡ group_in checked.now stage site }
{
    match stage {
        Stage::PageCounts => 1,
        Stage::Remap => 1 + arrays_in(checked, site),
        Stage::InLoop(phase) => group_of_loop(checked, phase, site),
        Stage::MapPairs(_) | Stage::MovingAsk | Stage::MovingAnswer => 2,
        Stage::Print | Stage::Output(_) => 2,
    }
}

fn group_of_loop(checked: &Checked, phase: LoopPhase, site: u32) -> u64
    ensures { result ≡ group_in_loop checked.now phase site }
{
    match phase {
        LoopPhase::DerefAsk(_) | LoopPhase::DerefAnswer(_) | LoopPhase::IndexAsk(_) => 2,
        LoopPhase::IndexValues(_) => 1,
        LoopPhase::Vote | LoopPhase::ScheduleAsk => 4,
        LoopPhase::Iterations => width(checked, site),
        LoopPhase::Gather | LoopPhase::Scatter => 3,
    }
}
