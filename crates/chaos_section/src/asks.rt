ghost use Rattle.std.specs.Prelude.{◌≡◌, ◌<◌, ◌≤◌, ◌^◌, ◌++◌, ◌≤ℤ◌, All, OnOk, IfOk};
ghost use Rattle.std.specs.List.{flat_map};
ghost use Rattle.chaos_sched.specs.Scheduled.{asks_for};
ghost use Rattle.chaos_section.specs.Sections.{IsSection, IsSectionReference, asked_at, asked_by, home_on, need_at, needs_of};

use crate::homes::home;
use crate::own::own_iterations;
use crate::standing::{element, local};
use crate::{SectionLoop, SectionReference};
use chaos_sched::{Need, Needs, asks_of};
use fd_words::{Memory, NumberLists, Place, Role};
use std::alloc::Global;

/// What a reference reaches at iteration `i`, as the iteration's home asks it of the owner.
fn need(facts: &SectionLoop, reference: SectionReference, i: i64, home: u32) -> Need
    requires some { 1 ≤ facts.now.nodes }
    requires few { facts.now.nodes ≤ 16 }
    requires reference { IsSectionReference facts.now.low facts.now.high reference }
    requires from { facts.now.low ≤ℤ i }
    requires to { i ≤ℤ facts.now.high }
    requires home { home ≡ home_on facts.now i }
    ensures need { result ≡ need_at facts.now reference i }
    ensures element { result.element < 2 ^ 63 }
    ensures local { result.place.local < 2 ^ 63 }
{
    let role = if reference.target {
        Role::Target
    } else {
        Role::Read
    };
    Need {
        role,
        array: reference.array,
        element: element(facts, reference, i),
        place: Place {
            owner: home,
            local: local(facts, reference, i),
        },
        slot: 0,
    }
}

/// Appends what a reference reaches of a node at iteration `i`, unless the node itself asks it.
fn add_need(
    alloc: Global,
    facts: &SectionLoop,
    reference: SectionReference,
    i: i64,
    me: u32,
    needs: &mut Needs,
) -> Result<(), Memory>
    requires section { IsSection facts.now }
    requires reference { IsSectionReference facts.now.low facts.now.high reference }
    requires from { facts.now.low ≤ℤ i }
    requires to { i ≤ℤ facts.now.high }
    requires elements { All (λ n. n.element < 2 ^ 63) needs.old }
    requires locals { All (λ n. n.place.local < 2 ^ 63) needs.old }
    ensures needs { OnOk result (needs.new ≡ needs.old ++ asked_at facts.now me reference i) }
    ensures elements { OnOk result (All (λ n. n.element < 2 ^ 63) needs.new) }
    ensures locals { OnOk result (All (λ n. n.place.local < 2 ^ 63) needs.new) }
{
    let home = home(alloc, facts, i)?;
    if home != me {
        needs.push(need(facts, reference, i, home))?;
    }
    Ok(())
}

/// Appends what a reference reaches of a node at these iterations, but for what the node itself asks.
fn add_needs(
    alloc: Global,
    facts: &SectionLoop,
    reference: SectionReference,
    own: &[i64],
    me: u32,
    needs: &mut Needs,
) -> Result<(), Memory>
    requires section { IsSection facts.now }
    requires reference { IsSectionReference facts.now.low facts.now.high reference }
    requires from { All (λ i. facts.now.low ≤ℤ i) own.now }
    requires to { All (λ i. i ≤ℤ facts.now.high) own.now }
    requires elements { All (λ n. n.element < 2 ^ 63) needs.old }
    requires locals { All (λ n. n.place.local < 2 ^ 63) needs.old }
    ensures needs { OnOk result (needs.new ≡ needs.old ++ flat_map (asked_at facts.now me reference) own.now) }
    ensures elements { OnOk result (All (λ n. n.element < 2 ^ 63) needs.new) }
    ensures locals { OnOk result (All (λ n. n.place.local < 2 ^ 63) needs.new) }
{
    for i in own {
        add_need(alloc, facts, reference, *i, me, needs)?;
    }
    Ok(())
}

/// What other nodes need of a node by these references.
fn needs(
    alloc: Global,
    facts: &SectionLoop,
    references: &[SectionReference],
    me: u32,
) -> Result<Needs, Memory>
    requires section { IsSection facts.now }
    requires references { All (IsSectionReference facts.now.low facts.now.high) references.now }
    requires me { me < facts.now.nodes }
    ensures needs { IfOk result (λ needs. needs ≡ flat_map (asked_by facts.now me) references.now) }
    ensures elements { IfOk result (All (λ n. n.element < 2 ^ 63)) }
    ensures locals { IfOk result (All (λ n. n.place.local < 2 ^ 63)) }
{
    let mut needs = Needs::new(alloc);
    for reference in references {
        let own = own_iterations(alloc, facts, *reference, me)?;
        add_needs(alloc, facts, *reference, own.as_slice(), me, &mut needs)?;
    }
    Ok(needs)
}

/// What each node asks of node `me`: list p has the rows of node p, first of the elements that it reads and
/// then of those that it writes, each in ascending order and once.
pub fn section_asks(alloc: Global, facts: &SectionLoop, me: u32) -> Result<NumberLists, Memory>
    requires section { IsSection facts.now }
    requires me { me < facts.now.nodes }
    ensures { IfOk result (λ asks. asks ≡ asks_for facts.now.nodes (needs_of facts.now me)) }
{
    let needs = needs(alloc, facts, facts.references.as_slice(), me)?;
    asks_of(alloc, &needs, facts.nodes)
}
