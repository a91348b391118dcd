ghost use Rattle.std.specs.Prelude.{◌≡◌, ◌≤◌, ◌<◌, ◌==◌, ◌≤ℤ◌, ◌++◌, ◌∷◌, [], All, filter, OnOk, IfOk};
ghost use Rattle.std.specs.List.{flat_map, list_any};
ghost use Rattle.chaos_section.specs.Sections.{IsSection, IsSectionReference, home_on, iterations_on, own_on, owner_at, range_on};

use crate::homes::home;
use crate::own::own_iterations;
use crate::{SectionHomes, SectionLoop, SectionReference};
use fd_words::{Memory, Numbers};
use list_laws::ascend;
use std::alloc::Global;

/// The iterations at which each reference reaches an element of a node, one reference after another.
fn owned(
    alloc: Global,
    facts: &SectionLoop,
    references: &[SectionReference],
    me: u32,
) -> Result<Numbers, Memory>
    requires some { 1 ≤ facts.now.nodes }
    requires few { facts.now.nodes ≤ 16 }
    requires references { All (IsSectionReference facts.now.low facts.now.high) references.now }
    requires me { me < facts.now.nodes }
    ensures { IfOk result (λ list. list ≡ flat_map (own_on facts.now me) references.now) }
{
    let mut list = Numbers::new(alloc);
    for reference in references {
        let own = own_iterations(alloc, facts, *reference, me)?;
        list.append(own.as_slice())?;
    }
    Ok(list)
}

/// The iterations at which some reference reaches an element of a node, ascending, each once.
fn candidates(alloc: Global, facts: &SectionLoop, me: u32) -> Result<Numbers, Memory>
    requires section { IsSection facts.now }
    requires me { me < facts.now.nodes }
    ensures { IfOk result (λ list. list ≡ filter (λ i. list_any (λ r. owner_at facts.now.nodes r i == me) facts.now.references)
        (range_on facts.now)) }
{
    let all = owned(alloc, facts, facts.references.as_slice(), me)?;
    let mut list = all.into_vec();
    ascend(&mut list);
    Ok(Numbers::from_vec(list))
}

/// Appends an iteration where its home is a node.
fn keep(
    alloc: Global,
    facts: &SectionLoop,
    i: i64,
    me: u32,
    kept: &mut Numbers,
) -> Result<(), Memory>
    requires section { IsSection facts.now }
    requires from { facts.now.low ≤ℤ i }
    requires to { i ≤ℤ facts.now.high }
    ensures { OnOk result (kept.new ≡ kept.old ++ filter (λ k. home_on facts.now k == me) (i ∷ [])) }
{
    if home(alloc, facts, i)? == me {
        kept.push(i)?;
    }
    Ok(())
}

/// Those of some iterations whose home is a node.
fn kept(alloc: Global, facts: &SectionLoop, list: &[i64], me: u32) -> Result<Numbers, Memory>
    requires section { IsSection facts.now }
    requires from { All (λ i. facts.now.low ≤ℤ i) list.now }
    requires to { All (λ i. i ≤ℤ facts.now.high) list.now }
    ensures { IfOk result (λ kept. kept ≡ filter (λ i. home_on facts.now i == me) list.now) }
{
    let mut kept = Numbers::new(alloc);
    for i in list {
        keep(alloc, facts, *i, me, &mut kept)?;
    }
    Ok(kept)
}

/// The iterations that a node executes, ascending.
pub fn section_iterations(alloc: Global, facts: &SectionLoop, me: u32) -> Result<Numbers, Memory>
    requires section { IsSection facts.now }
    requires me { me < facts.now.nodes }
    ensures { IfOk result (λ list. list ≡ iterations_on facts.now me) }
{
    match facts.homes {
        SectionHomes::OwnerOf(reference) => own_iterations(alloc, facts, reference, me),
        SectionHomes::Most => {
            let list = candidates(alloc, facts, me)?;
            kept(alloc, facts, list.as_slice(), me)
        }
    }
}
