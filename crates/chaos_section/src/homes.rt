ghost use Rattle.std.specs.Prelude.{◌≡◌, ◌≤◌, ◌≤ℤ◌, map, All, IfOk};
ghost use Rattle.chaos_dist.specs.Homes.{most_of};
ghost use Rattle.chaos_section.specs.Sections.{IsSection, IsSectionReference, home_on, owner_at};

use crate::standing::owner;
use crate::{SectionHomes, SectionLoop, SectionReference};
use chaos_part::home_by_most;
use fd_words::Memory;
use smallvec::SmallVec;
use std::alloc::Global;

/// The lowest node that owns most of what is reached at iteration `i`.
fn most(
    alloc: Global,
    facts: &SectionLoop,
    references: &[SectionReference],
    i: i64,
) -> Result<u32, Memory>
    requires some { 1 ≤ facts.now.nodes }
    requires few { facts.now.nodes ≤ 16 }
    requires references { All (IsSectionReference facts.now.low facts.now.high) references.now }
    requires from { facts.now.low ≤ℤ i }
    requires to { i ≤ℤ facts.now.high }
    ensures { IfOk result (λ home. home ≡ most_of facts.now.nodes (map (λ r. owner_at facts.now.nodes r i) references.now)) }
{
    let mut owners: SmallVec<u32, 64> = SmallVec::new(alloc);
    for reference in references {
        owners.push(owner(facts, *reference, i))?;
    }
    Ok(home_by_most(owners.as_slice(), facts.nodes))
}

/// The node that executes iteration `i`.
pub(crate) fn home(alloc: Global, facts: &SectionLoop, i: i64) -> Result<u32, Memory>
    requires section { IsSection facts.now }
    requires from { facts.now.low ≤ℤ i }
    requires to { i ≤ℤ facts.now.high }
    ensures { IfOk result (λ home. home ≡ home_on facts.now i) }
{
    match facts.homes {
        SectionHomes::OwnerOf(reference) => Ok(owner(facts, reference, i)),
        SectionHomes::Most => most(alloc, facts, facts.references.as_slice(), i),
    }
}
