//! Where the elements stand that references reach.
ghost use Rattle.std.specs.Prelude.{◌≡◌, ◌<◌, ◌+◌, ◌++◌, ◌∷◌, [], ◌^◌, ℕ, ℤ, List, map, filter, slice_get, true, if◌then◌else◌, IfOk, OnOk};
ghost use Rattle.std.specs.List.{AllByRecursion, flat_map};
ghost use Rattle.fd_program.specs.Uses.{is_met as is_met_of};
ghost use Rattle.fd_program.specs.Met.{kept_uses};
ghost use Rattle.plan_loop.specs.LoopLetters.{iteration_row};
ghost use Rattle.inspect_enter.specs.Placed.{MayBeStamped, IsTold, is_mapped as is_mapped_use, placed_at};
ghost use Rattle.inspect_enter.specs.Rows.{AreMet};
ghost use Rattle.inspect_uses.specs.Accepted.{IsAccepted, AreOwners};
ghost use Rattle.inspect_uses.specs.Reached.{place_met, place_reached};

use crate::placed::{Placed, PlacedList};
use crate::rows::read_rows;
use chaos_dist::StepForm;
use fd_program::{LoopFacts, Use, Uses};
use fd_words::{Memory, Place};
use inspect_uses::{layout_of, place_by_formula};
use std::alloc::Global;

/// More local addresses than an element can have.
const LOCALS: u64 = 1 << 63;

fn small(place: Place) -> Place
    ensures small { result.local < 2 ^ 63 }
    ensures same { place.local < 2 ^ 63 → result ≡ place }
{
    if place.local < LOCALS {
        place
    } else {
        Place { owner: 0, local: 0 }
    }
}

/// Whether no formula tells the place.
fn is_mapped(facts: &LoopFacts, used: Use) -> bool
    ensures { result ≡ is_mapped_use facts.now used }
{
    match layout_of(facts, used.array).form {
        StepForm::Regular(_) => false,
        StepForm::Map(_) => true,
    }
}

/// The place by formula, else the given one.
fn place(facts: &LoopFacts, used: Use, given: Option<Place>) -> Place
    requires accepted { IsAccepted facts.now }
    requires met { is_met_of facts.now.arrays used ≡ true }
    ensures small { result.local < 2 ^ 63 }
    ensures told { IsTold (place_reached facts.now used) given result }
{
    match place_by_formula(facts, used) {
        Some(place) => small(place),
        None => match given {
            Some(place) => small(place),
            None => Place { owner: 0, local: 0 },
        },
    }
}

fn given(places: &[Place], at: usize) -> Option<Place>
    ensures { result ≡ slice_get places.now at }
{
    places.get(at).copied()
}

/// The place behind those that a reference takes.
fn behind(facts: &LoopFacts, used: Use, next: usize) -> usize
    requires { next < 9223372036854775807 }
    ensures { result ≡ next + (if is_mapped_use facts.now used then 1 else 0) }
{
    if is_mapped(facts, used) {
        next + 1
    } else {
        next
    }
}

/// Each reference with its place; `places` has those that no formula tells, in order.
pub(crate) fn place_all(
    alloc: Global,
    facts: &LoopFacts,
    uses: &[Use],
    places: &[Place],
) -> Result<PlacedList, Memory>
    requires accepted { IsAccepted facts.now }
    requires kept { AllByRecursion (MayBeStamped facts.now) uses.now }
    ensures kept { IfOk result (λ placed. AllByRecursion (λ x. MayBeStamped facts.now x.used) placed) }
    ensures locals { IfOk result (λ placed. AllByRecursion (λ x. x.place.local < 2 ^ 63) placed) }
    ensures places { IfOk result (λ placed. (owners : List (List ℕ)) → AreOwners facts.now owners
        → places.now ≡ map (place_met facts.now owners) (filter (is_mapped_use facts.now) uses.now)
        → placed ≡ map (placed_at facts.now owners) uses.now) }
{
    let mut placed = PlacedList::new(alloc);
    let mut next = 0;
    for used in uses {
        let place = place(facts, *used, given(places, next));
        placed.push(Placed { used: *used, place })?;
        next = behind(facts, *used, next);
    }
    Ok(placed)
}

fn keep_mapped(facts: &LoopFacts, used: Use, list: &mut Uses) -> Result<(), Memory>
    ensures { OnOk result (list.new ≡ list.old ++ filter (is_mapped_use facts.now) (used ∷ [])) }
{
    if is_mapped(facts, used) {
        list.push(used)?;
    }
    Ok(())
}

/// Those of these references whose places no formula tells.
fn mapped_of(alloc: Global, facts: &LoopFacts, uses: &[Use]) -> Result<Uses, Memory>
    ensures { IfOk result (λ list. list ≡ filter (is_mapped_use facts.now) uses.now) }
{
    let mut list = Uses::new(alloc);
    for used in uses {
        keep_mapped(facts, *used, &mut list)?;
    }
    Ok(list)
}

/// The references of these rows, but for index references, whose places no formula tells, by iteration
/// and reference number. `rows` has each iteration with the values of its index references.
pub fn uses_to_place(alloc: Global, facts: &LoopFacts, rows: &[i64]) -> Result<Uses, Memory>
    requires { IsAccepted facts.now }
    ensures met { IfOk result (λ uses. AllByRecursion (λ u. is_met_of facts.now.arrays u ≡ true) uses) }
    ensures uses { IfOk result (λ uses. (store : List (List ℤ)) (iterations : List ℤ) → AreMet facts.now store iterations
        → rows.now ≡ flat_map (iteration_row facts.now store) iterations
        → uses ≡ filter (is_mapped_use facts.now) (kept_uses facts.now store iterations)) }
{
    let own = read_rows(alloc, facts, rows)?;
    mapped_of(alloc, facts, own.uses.as_slice())
}
