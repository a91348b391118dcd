//! The homes of iterations, and the rows that go there.
ghost use Rattle.std.specs.Prelude.{◌≡◌, ◌≤◌, ◌∷◌, map, take, slice_get, unwrap_or, IfOk, OnOk};
ghost use Rattle.std.specs.List.{flat_map};
ghost use Rattle.list_laws.specs.Rows.{appended_at, deals};
ghost use Rattle.fd_program.specs.Homes.{home_by};
ghost use Rattle.chaos_dist.specs.Homes.{most_of};
ghost use Rattle.inspect_uses.specs.Accepted.{IsAccepted};
ghost use Rattle.chaos_inspect.specs.Walking.{home_told, homed_through};

use crate::spot::{Spot, Spots, behind_all, note};
use crate::votes::behind;
use chaos_part::home_by_most;
use fd_program::{HomeRule, LoopFacts, Use};
use fd_words::{Memory, NumberLists, Numbers, Place};
use inspect_uses::{given, uses};
use plan_loop::Asking;
use smallvec::SmallVec;
use std::alloc::Global;

/// The lowest node that owns most of these elements.
fn most(alloc: Global, nodes: u32, spots: &[Spot]) -> Result<u32, Memory>
    requires some { 1 ≤ nodes }
    requires few { nodes ≤ 16 }
    ensures { IfOk result (λ home. home ≡ most_of nodes (map (λ s. s.owner) spots.now)) }
{
    let mut owners: SmallVec<u32, 64> = SmallVec::new(alloc);
    for spot in spots {
        owners.push(spot.owner)?;
    }
    Ok(home_by_most(owners.as_slice(), nodes))
}

/// The owner of the first of these elements.
fn first_owner(spots: &[Spot]) -> u32
    ensures { result ≡ unwrap_or (slice_get (map (λ s. s.owner) spots.now) 0) 0 }
{
    match spots.first() {
        Some(spot) => spot.owner,
        None => 0,
    }
}

/// The home of an iteration, where the references that the rule looks at reach these elements.
fn home_at(alloc: Global, facts: &LoopFacts, spots: &[Spot]) -> Result<u32, Memory>
    requires { IsAccepted facts.now }
    ensures { IfOk result (λ home. home ≡ home_by facts.now.rule facts.now.nodes (map (λ s. s.owner) spots.now)) }
{
    match facts.rule {
        HomeRule::Owner => Ok(first_owner(spots)),
        HomeRule::Most => most(alloc, facts.nodes, spots),
    }
}

/// The home of an iteration with these references.
fn home(alloc: Global, facts: &LoopFacts, told: &[Place], uses: &[Use]) -> Result<u32, Memory>
    requires { IsAccepted facts.now }
    ensures { IfOk result (λ home. home ≡ home_told facts.now told.now uses.now) }
{
    let mut spots = Spots::new(alloc);
    note(facts, Asking::Homes, told, uses, &mut spots)?;
    home_at(alloc, facts, spots.as_slice())
}

/// Up to so many of the values.
fn front(values: &[i64], count: usize) -> &[i64]
    ensures { result.now ≡ take count values.now }
{
    if count < values.len() {
        &values[..count]
    } else {
        values
    }
}

/// Appends the row of an iteration to the list of its home.
#[tactic(auto, using(crate::proofs::Deals::push_append))]
fn append_iteration(
    lists: &mut NumberLists,
    home: u32,
    i: i64,
    values: &[i64],
) -> Result<(), Memory>
    ensures { OnOk result (lists.new ≡ appended_at lists.old home (i ∷ values.now)) }
{
    lists.push_to(u64::from(home), i)?;
    lists.append_to(u64::from(home), values)
}

/// The rows of these iterations, whose index references give these values, to the homes; `told` has the
/// places that are asked for of the references that tell homes.
pub fn homed(
    alloc: Global,
    facts: &LoopFacts,
    iterations: &[i64],
    values: &[i64],
    told: &[Place],
) -> Result<NumberLists, Memory>
    requires { IsAccepted facts.now }
    ensures { IfOk result (λ lists. lists ≡ deals (λ h. h.home) (λ h. h.row) facts.now.nodes
        (homed_through facts.now iterations.now values.now told.now)) }
{
    let arrays = facts.arrays.as_slice();
    let mut lists = NumberLists::empty(alloc, facts.nodes)?;
    let mut rest = values;
    let mut places = told;
    for i in iterations {
        let used = uses(alloc, facts, *i, rest)?;
        let count = given(arrays, used.as_slice());
        let home = home(alloc, facts, places, used.as_slice())?;
        append_iteration(&mut lists, home, *i, front(rest, count))?;
        rest = behind(rest, count);
        places = behind_all(facts, Asking::Homes, places, used.as_slice());
    }
    Ok(lists)
}

/// The rows of all nodes, in their order.
pub fn joined(alloc: Global, letters: &[Numbers]) -> Result<Numbers, Memory>
    ensures { IfOk result (λ rows. rows ≡ flat_map (λ l. l) letters.now) }
{
    let mut rows = Numbers::new(alloc);
    for letter in letters {
        rows.append(letter.as_slice())?;
    }
    Ok(rows)
}
