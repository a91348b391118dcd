ghost use Rattle.std.specs.Prelude.{◌≡◌, ◌+◌, ◌-◌, ◌≤◌, ◌<◌, ◌^◌, ◌==◌, pos, ◌+ℤ◌, ◌-ℤ◌, ◌≤ℤ◌, ◌<ℤ◌, IfOk, filter, map};
ghost use Rattle.std.specs.List.{range_with_len};
ghost use Rattle.chaos_dist.specs.Layout.{count_on, element_of, owner_of};
ghost use Rattle.chaos_section.specs.Sections.{IsSectionReference, own_on};

use crate::counts::count_to;
use crate::standing::{layout, shift, stands};
use crate::{SectionLoop, SectionReference};
use chaos_dist::Regular;
use fd_words::{Memory, Numbers};
use std::alloc::Global;

/// The element at a local address, less a shift.
fn shifted(layout: Regular, me: u32, local: u64, shift: i128) -> i128
    requires node { me < layout.nodes }
    requires place { local < count_on layout.shape layout.extent layout.nodes me layout.extent }
    requires low { pos 0 ≤ℤ (shift +ℤ pos (2 ^ 65)) }
    requires high { shift ≤ℤ pos (2 ^ 65) }
    ensures { result ≡ pos (element_of layout.shape layout.extent layout.nodes me local) -ℤ shift }
{
    i128::from(layout.global_of(me, local)) - shift
}

/// The elements of a node from `first` to `last`, ascending, each less a shift.
fn shifted_between(
    alloc: Global,
    layout: Regular,
    me: u32,
    first: u64,
    last: u64,
    shift: i128,
) -> Result<Numbers, Memory>
    requires node { me < layout.nodes }
    requires from_one { 1 ≤ first }
    requires order { first ≤ last }
    requires within { last ≤ layout.extent }
    requires low { pos 0 ≤ℤ (pos first -ℤ shift +ℤ pos (2 ^ 63)) }
    requires high { (pos last -ℤ shift) <ℤ pos (2 ^ 63) }
    ensures { IfOk result (λ list. list ≡ map (λ g. pos g -ℤ shift)
        (filter (λ g. owner_of layout.shape layout.extent layout.nodes g == me) (range_with_len first (last + 1 - first)))) }
{
    let from = count_to(layout, me, first - 1);
    let end = count_to(layout, me, last);
    let mut list = Numbers::new(alloc);
    for local in from..end {
        list.push(shifted(layout, me, local, shift) as i64)?;
    }
    Ok(list)
}

/// The iterations at which a reference reaches an element of a node, ascending. Only these are gone
/// through, one local address after another.
pub(crate) fn own_iterations(
    alloc: Global,
    facts: &SectionLoop,
    reference: SectionReference,
    me: u32,
) -> Result<Numbers, Memory>
    requires some { 1 ≤ facts.now.nodes }
    requires few { facts.now.nodes ≤ 16 }
    requires me { me < facts.now.nodes }
    requires reference { IsSectionReference facts.now.low facts.now.high reference }
    ensures { IfOk result (λ list. list ≡ own_on facts.now me reference) }
{
    if facts.high < facts.low {
        return Ok(Numbers::new(alloc));
    }
    let first = stands(facts, reference, facts.low);
    let last = stands(facts, reference, facts.high);
    let layout = layout(facts, reference);
    shifted_between(alloc, layout, me, first, last, shift(reference))
}
