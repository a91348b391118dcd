//! Where the elements stand that references reach.
ghost use Rattle.std.specs.Prelude.{◌≡◌, ◌≤◌, ◌∷◌, ◌++◌, [], true, false, count_by, drop, IfOk, OnOk};
ghost use Rattle.fd_program.specs.Uses.{is_met as is_met_of};
ghost use Rattle.plan_loop.specs.declared.loop_phase.Asking.TheVariants as round;
ghost use Rattle.plan_loop.specs.declared.loop_phase.Level.TheVariants as levels;
ghost use Rattle.inspect_uses.specs.Accepted.{IsAccepted};
ghost use Rattle.chaos_inspect.specs.Walking.{is_asked as is_asked_by, known_through, place_or_told, spot_of, spots_one, spots_told};
ghost use Rattle.chaos_inspect.specs.Walking.{told_behind};

use crate::round::{asked_of, is_asked, is_reached};
use crate::votes;
use fd_program::{LoopFacts, Use};
use fd_words::{Memory, Place};
use inspect_uses::{given_first, known, place_by_formula};
use plan_loop::{Asking, Level};
use sqlite_items::Items;
use std::alloc::Global;

/// Where an element stands: its owner, its array, and the local address there.
#[derive(Clone, Copy, Debug, PartialEq, Eq)]
pub struct Spot {
    pub owner: u32,
    pub array: u32,
    pub local: u64,
}

/// Spots in the order of iterations and references.
pub type Spots = Items<Spot>;

/// The places behind so many.
fn behind(told: &[Place], count: usize) -> &[Place]
    ensures { result.now ≡ drop count told.now }
{
    if count < told.len() {
        &told[count..]
    } else {
        &[]
    }
}

/// The place of the element that a reference reaches: by formula, else the first of those told.
fn place(facts: &LoopFacts, told: &[Place], used: Use) -> Place
    requires accepted { IsAccepted facts.now }
    requires met { is_met_of facts.now.arrays used ≡ true }
    ensures { result ≡ place_or_told facts.now told.now used }
{
    match place_by_formula(facts, used) {
        Some(place) => place,
        None => told
            .first()
            .copied()
            .unwrap_or(Place { owner: 0, local: 0 }),
    }
}

fn spot_at(facts: &LoopFacts, told: &[Place], used: Use) -> Spot
    requires accepted { IsAccepted facts.now }
    requires met { is_met_of facts.now.arrays used ≡ true }
    ensures { result ≡ spot_of facts.now told.now used }
{
    let place = place(facts, told, used);
    Spot {
        owner: place.owner,
        array: used.array,
        local: place.local,
    }
}

fn note_one(
    facts: &LoopFacts,
    asking: Asking,
    told: &[Place],
    used: Use,
    spots: &mut Spots,
) -> Result<(), Memory>
    requires { IsAccepted facts.now }
    ensures { OnOk result (spots.new ≡ spots.old ++ spots_one facts.now asking told.now used) }
{
    if is_reached(facts, asking, used) {
        spots.push(spot_at(facts, told, used))?;
    }
    Ok(())
}

/// The places behind the one that a reference takes.
fn behind_one<'a>(facts: &LoopFacts, asking: Asking, told: &'a [Place], used: Use) -> &'a [Place]
    ensures { result.now ≡ told_behind facts.now asking told.now used }
{
    if is_asked(facts, asking, used) {
        behind(told, 1)
    } else {
        told
    }
}

/// Notes where the elements stand that those of these references reach that the asking is for; `told`
/// has the places that are asked for, in order.
pub fn note(
    facts: &LoopFacts,
    asking: Asking,
    told: &[Place],
    uses: &[Use],
    spots: &mut Spots,
) -> Result<(), Memory>
    requires { IsAccepted facts.now }
    ensures { OnOk result (spots.new ≡ spots.old ++ spots_told facts.now asking told.now uses.now) }
{
    let mut rest = told;
    for used in uses {
        note_one(facts, asking, rest, *used, spots)?;
        rest = behind_one(facts, asking, rest, *used);
    }
    Ok(())
}

/// The places behind those that these references take.
pub fn behind_all<'a>(
    facts: &LoopFacts,
    asking: Asking,
    told: &'a [Place],
    uses: &[Use],
) -> &'a [Place]
    ensures { result.now ≡ drop (count_by (is_asked_by facts.now asking) uses.now) told.now }
{
    behind(told, asked_of(facts, asking, uses))
}

/// Where the elements of a level's index arrays stand that these iterations look at, where index references
/// of the first give these values; `told` has the places that are asked for, in order.
pub fn spots(
    alloc: Global,
    facts: &LoopFacts,
    level: Level,
    iterations: &[i64],
    firsts: &[i64],
    told: &[Place],
) -> Result<Spots, Memory>
    requires { IsAccepted facts.now }
    ensures { IfOk result (λ spots. spots ≡ spots_told facts.now (round.Indexes level) told.now
        (known_through facts.now iterations.now firsts.now)) }
{
    let arrays = facts.arrays.as_slice();
    let asking = Asking::Indexes(level);
    let mut spots = Spots::new(alloc);
    let mut rest = firsts;
    let mut places = told;
    for i in iterations {
        let used = known(alloc, facts, *i, rest)?;
        note(facts, asking, places, used.as_slice(), &mut spots)?;
        places = behind_all(facts, asking, places, used.as_slice());
        rest = votes::behind(rest, given_first(arrays, used.as_slice()));
    }
    Ok(spots)
}

/// Where those of the first level stand, if no place is asked for.
pub fn first_spots(
    alloc: Global,
    facts: &LoopFacts,
    seeks: bool,
    iterations: &[i64],
) -> Result<Spots, Memory>
    requires { IsAccepted facts.now }
    ensures { IfOk result (λ spots. seeks ≡ false → spots ≡ spots_told facts.now (round.Indexes levels.First) []
        (known_through facts.now iterations.now [])) }
{
    if seeks {
        Ok(Spots::new(alloc))
    } else {
        spots(alloc, facts, Level::First, iterations, &[], &[])
    }
}
