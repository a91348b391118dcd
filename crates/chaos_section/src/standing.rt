ghost use Rattle.std.specs.Prelude.{◌≡◌, ◌^◌, ◌≤◌, ◌<◌, pos, ◌+ℤ◌, ◌≤ℤ◌, ◌<ℤ◌};
ghost use Rattle.chaos_dist.specs.Homes.{natural as natural_of};
ghost use Rattle.chaos_section.specs.Sections.{IsSectionReference, owner_at, local_at, shift_of, stands as stands_of};

use crate::{SectionLoop, SectionReference};
use chaos_dist::Regular;

/// How far the element of the decomposition that a reference reaches is from the index.
pub(crate) fn shift(reference: SectionReference) -> i128
    ensures shift { result ≡ shift_of reference }
    ensures low { pos 0 ≤ℤ (result +ℤ pos (2 ^ 64)) }
    ensures high { result <ℤ pos (2 ^ 64) }
{
    i128::from(reference.add) + i128::from(reference.offset)
}

/// A number that isn't negative.
fn natural(z: i128) -> u64
    requires low { pos 0 ≤ℤ z }
    requires high { z <ℤ pos (2 ^ 64) }
    ensures { result ≡ natural_of z }
{
    z as u64
}

/// The element of its decomposition that a reference reaches at iteration `i`.
pub(crate) fn stands(facts: &SectionLoop, reference: SectionReference, i: i64) -> u64
    requires reference { IsSectionReference facts.now.low facts.now.high reference }
    requires from { facts.now.low ≤ℤ i }
    requires to { i ≤ℤ facts.now.high }
    ensures stands { result ≡ stands_of reference i }
    ensures from_one { 1 ≤ result }
    ensures within { result ≤ reference.extent }
{
    natural(i128::from(i) + shift(reference))
}

/// The element of its array that a reference reaches at iteration `i`.
pub(crate) fn element(facts: &SectionLoop, reference: SectionReference, i: i64) -> u64
    requires reference { IsSectionReference facts.now.low facts.now.high reference }
    requires from { facts.now.low ≤ℤ i }
    requires to { i ≤ℤ facts.now.high }
    ensures element { result ≡ natural_of (i +ℤ reference.add) }
    ensures small { result < 2 ^ 63 }
{
    natural(i128::from(i) + i128::from(reference.add))
}

/// The layout in which a reference reaches elements.
pub(crate) fn layout(facts: &SectionLoop, reference: SectionReference) -> Regular
    requires some { 1 ≤ facts.now.nodes }
    requires few { facts.now.nodes ≤ 16 }
    requires extent { 1 ≤ reference.extent }
    requires reference { IsSectionReference facts.now.low facts.now.high reference }
    ensures extent { result.extent ≡ reference.extent }
    ensures nodes { result.nodes ≡ facts.now.nodes }
    ensures shape { result.shape ≡ reference.shape }
{
    Regular {
        extent: reference.extent,
        nodes: facts.nodes,
        shape: reference.shape,
    }
}

/// The owner of what a reference reaches at iteration `i`.
pub(crate) fn owner(facts: &SectionLoop, reference: SectionReference, i: i64) -> u32
    requires some { 1 ≤ facts.now.nodes }
    requires few { facts.now.nodes ≤ 16 }
    requires reference { IsSectionReference facts.now.low facts.now.high reference }
    requires from { facts.now.low ≤ℤ i }
    requires to { i ≤ℤ facts.now.high }
    ensures { result ≡ owner_at facts.now.nodes reference i }
{
    let stands = stands(facts, reference, i);
    layout(facts, reference).owner(stands)
}

/// The local address, on its owner, of what a reference reaches at iteration `i`.
pub(crate) fn local(facts: &SectionLoop, reference: SectionReference, i: i64) -> u64
    requires some { 1 ≤ facts.now.nodes }
    requires few { facts.now.nodes ≤ 16 }
    requires reference { IsSectionReference facts.now.low facts.now.high reference }
    requires from { facts.now.low ≤ℤ i }
    requires to { i ≤ℤ facts.now.high }
    ensures local { result ≡ local_at facts.now.nodes reference i }
    ensures small { result < 2 ^ 63 }
{
    let stands = stands(facts, reference, i);
    layout(facts, reference).local(stands)
}
