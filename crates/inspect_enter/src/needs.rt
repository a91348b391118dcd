//! What a node needs of the others.
ghost use Rattle.std.specs.Prelude.{◌≡◌, ◌<◌, ◌≤◌, ◌^◌, ◌++◌, OnOk, IfOk, length};
ghost use Rattle.std.specs.List.{AllByRecursion};
ghost use Rattle.inspect_enter.specs.Placed.{MayBeStamped};
ghost use Rattle.chaos_dist.specs.Homes.{natural};
ghost use Rattle.inspect_enter.specs.Needs.{need_of, needs_of as needs_list};
ghost use Rattle.inspect_uses.specs.Accepted.{IsAccepted};

use crate::placed::Placed;
use chaos_sched::{LocalRef, Need, Needs};
use fd_program::LoopFacts;
use fd_words::Memory;
use std::alloc::Global;

/// The array's own element from 1 that a reference reaches.
fn element(facts: &LoopFacts, placed: Placed) -> u64
    requires accepted { IsAccepted facts.now }
    requires kept { MayBeStamped facts.now placed.used }
    ensures element { result ≡ natural placed.used.subscript }
    ensures small { result ≤ 1048576 }
{
    placed.used.subscript as u64
}

fn note(facts: &LoopFacts, placed: Placed, local: LocalRef, needs: &mut Needs) -> Result<(), Memory>
    requires accepted { IsAccepted facts.now }
    requires kept { MayBeStamped facts.now placed.used }
    ensures { OnOk result (needs.new ≡ needs.old ++ need_of placed local) }
{
    if let LocalRef::Ghost(slot) = local {
        needs.push(Need {
            role: placed.used.role,
            array: placed.used.array,
            element: element(facts, placed),
            place: placed.place,
            slot,
        })?;
    }
    Ok(())
}

/// The needs of the references that have a slot, in order.
pub(crate) fn needs_of(
    alloc: Global,
    facts: &LoopFacts,
    placed: &[Placed],
    references: &[LocalRef],
) -> Result<Needs, Memory>
    requires each { length placed.now ≡ length references.now }
    requires accepted { IsAccepted facts.now }
    requires kept { AllByRecursion (λ x. MayBeStamped facts.now x.used) placed.now }
    requires locals { AllByRecursion (λ x. x.place.local < 2 ^ 63) placed.now }
    ensures needs { IfOk result (λ needs. needs ≡ needs_list placed.now references.now) }
{
    let mut needs = Needs::new(alloc);
    for at in 0..placed.len() {
        note(facts, placed[at], references[at], &mut needs)?;
    }
    Ok(needs)
}
