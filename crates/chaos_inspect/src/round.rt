//! The rounds in which an inspection asks for places.
ghost use Rattle.std.specs.Prelude.{◌≡◌, ◌≤◌, ◌∷◌, ◌++◌, [], true, length, count_by, filter, IfOk, OnOk};
ghost use Rattle.plan_loop.specs.LoopLetters.{asks_places, has_level, is_for as is_for_by, is_looked_at as is_looked_at_by};
ghost use Rattle.fd_program.specs.Met.{is_map, layout_for};
ghost use Rattle.plan_loop.specs.declared.loop_phase.Asking.TheVariants as round;
ghost use Rattle.plan_loop.specs.declared.loop_phase.Level.TheVariants as levels;
ghost use Rattle.inspect_places.specs.Asks.{IsAsked};
ghost use Rattle.inspect_uses.specs.Accepted.{IsAccepted};
ghost use Rattle.chaos_inspect.specs.Walking.{is_asked as is_asked_by, is_reached as is_reached_by, known_through, uses_through};

use crate::votes::behind;
use chaos_dist::StepForm;
use fd_program::{HomeRule, LoopFacts, Use, Uses, first_target, is_met, is_plain};
use fd_words::{Memory, Role};
use inspect_places::Asked;
use inspect_uses::{given, given_first, known, layout_of, uses};
use plan_loop::{Asking, Level};
use std::alloc::Global;

/// Whether the rule looks at the reference with this number.
fn is_looked_at(facts: &LoopFacts, number: u32) -> bool
    ensures { result ≡ is_looked_at_by facts.now.rule facts.now.site.body number }
{
    match facts.rule {
        HomeRule::Owner => number == first_target(facts.site.body.as_slice()),
        HomeRule::Most => true,
    }
}

/// Whether an asking is for the reference with this number and role, whose subscript is `plain`, or isn't.
fn is_for(facts: &LoopFacts, asking: Asking, number: u32, role: Role, plain: bool) -> bool
    ensures { result ≡ is_for_by facts.now asking number role plain }
{
    match asking {
        Asking::Indexes(level) => role.is_index() && level.is_at(plain),
        Asking::Homes => is_looked_at(facts, number),
        Asking::References => !role.is_index(),
    }
}

/// Whether no formula tells where an array's elements stand.
fn is_mapped(facts: &LoopFacts, array: u32) -> bool
    ensures { result ≡ is_map (layout_for facts.now array).form }
{
    match layout_of(facts, array).form {
        StepForm::Regular(_) => false,
        StepForm::Map(_) => true,
    }
}

/// Whether places are asked for in this round.
pub fn asks(facts: &LoopFacts, asking: Asking) -> bool
    requires { length facts.now.site.references ≤ 64 }
    ensures { result ≡ asks_places facts.now asking }
{
    let references = facts.site.references.as_slice();
    let mut number: u32 = 1;
    for reference in references {
        let plain = is_plain(&reference.subscript);
        if is_for(facts, asking, number, reference.role, plain)
            && is_mapped(facts, reference.array)
        {
            return true;
        }
        number += 1;
    }
    false
}

/// Whether there are index references of this level.
pub fn has(facts: &LoopFacts, level: Level) -> bool
    ensures { result ≡ has_level facts.now level }
{
    facts.site.references.as_slice().iter().any(|r| r.role.is_index()
        && level.is_at(is_plain(&r.subscript)))
}

/// Whether an asking is for a reference, and its array has the element.
pub fn is_reached(facts: &LoopFacts, asking: Asking, used: Use) -> bool
    ensures { result ≡ is_reached_by facts.now asking used }
{
    is_for(facts, asking, used.number, used.role, used.plain)
        && is_met(facts.arrays.as_slice(), used)
}

/// Whether the place of a reference is asked for.
pub fn is_asked(facts: &LoopFacts, asking: Asking, used: Use) -> bool
    ensures { result ≡ is_asked_by facts.now asking used }
{
    is_for(facts, asking, used.number, used.role, used.plain)
        && is_met(facts.arrays.as_slice(), used)
        && is_mapped(facts, used.array)
}

/// How many of these references' places are asked for.
pub fn asked_of(facts: &LoopFacts, asking: Asking, uses: &[Use]) -> usize
    ensures { result ≡ count_by (is_asked_by facts.now asking) uses.now }
{
    uses.iter()
        .filter(|used| is_asked(facts, asking, **used))
        .count()
}

fn keep(facts: &LoopFacts, asking: Asking, used: Use, wanted: &mut Uses) -> Result<(), Memory>
    ensures { OnOk result (wanted.new ≡ wanted.old ++ filter (is_asked_by facts.now asking) (used ∷ [])) }
{
    if is_asked(facts, asking, used) {
        wanted.push(used)?;
    }
    Ok(())
}

/// Keeps those of these references whose places are asked for.
fn keep_all(
    facts: &LoopFacts,
    asking: Asking,
    uses: &[Use],
    wanted: &mut Uses,
) -> Result<(), Memory>
    ensures { OnOk result (wanted.new ≡ wanted.old ++ filter (is_asked_by facts.now asking) uses.now) }
{
    for used in uses {
        keep(facts, asking, *used, wanted)?;
    }
    Ok(())
}

/// The references of these iterations whose places are asked for, by iteration and number, where index
/// references give these values.
fn wanted(
    alloc: Global,
    facts: &LoopFacts,
    asking: Asking,
    iterations: &[i64],
    values: &[i64],
) -> Result<Uses, Memory>
    requires { length facts.now.site.references ≤ 64 }
    ensures { IfOk result (λ list. list ≡ filter (is_asked_by facts.now asking) (uses_through facts.now iterations.now values.now)) }
{
    let arrays = facts.arrays.as_slice();
    let mut list = Uses::new(alloc);
    let mut rest = values;
    for i in iterations {
        let used = uses(alloc, facts, *i, rest)?;
        keep_all(facts, asking, used.as_slice(), &mut list)?;
        rest = behind(rest, given(arrays, used.as_slice()));
    }
    Ok(list)
}

/// The asks for the places of these iterations' references, where index references give these values.
pub fn asked(
    alloc: Global,
    facts: &LoopFacts,
    asking: Asking,
    iterations: &[i64],
    values: &[i64],
) -> Result<Asked, Memory>
    requires { IsAccepted facts.now }
    ensures { IfOk result (λ asked. IsAsked facts.now
        (filter (is_asked_by facts.now asking) (uses_through facts.now iterations.now values.now)) asked) }
{
    let uses = wanted(alloc, facts, asking, iterations, values)?;
    Asked::new(alloc, facts, uses.as_slice())
}

/// The same, where the values alone are known that index references with a plain subscript give.
fn known_wanted(
    alloc: Global,
    facts: &LoopFacts,
    asking: Asking,
    iterations: &[i64],
    firsts: &[i64],
) -> Result<Uses, Memory>
    requires { length facts.now.site.references ≤ 64 }
    ensures { IfOk result (λ list. list ≡ filter (is_asked_by facts.now asking) (known_through facts.now iterations.now firsts.now)) }
{
    let arrays = facts.arrays.as_slice();
    let mut list = Uses::new(alloc);
    let mut rest = firsts;
    for i in iterations {
        let used = known(alloc, facts, *i, rest)?;
        keep_all(facts, asking, used.as_slice(), &mut list)?;
        rest = behind(rest, given_first(arrays, used.as_slice()));
    }
    Ok(list)
}

/// The asks for the places of a level's index references, where those of the first give these values.
pub fn level_asked(
    alloc: Global,
    facts: &LoopFacts,
    level: Level,
    iterations: &[i64],
    firsts: &[i64],
) -> Result<Asked, Memory>
    requires { IsAccepted facts.now }
    ensures { IfOk result (λ asked. IsAsked facts.now
        (filter (is_asked_by facts.now (round.Indexes level)) (known_through facts.now iterations.now firsts.now)) asked) }
{
    let uses = known_wanted(alloc, facts, Asking::Indexes(level), iterations, firsts)?;
    Asked::new(alloc, facts, uses.as_slice())
}

/// The asks for the places of the first level's index references, if any are asked for.
pub fn first_asked(
    alloc: Global,
    facts: &LoopFacts,
    seeks: bool,
    iterations: &[i64],
) -> Result<Asked, Memory>
    requires { IsAccepted facts.now }
    ensures { IfOk result (λ asked. seeks ≡ true → IsAsked facts.now
        (filter (is_asked_by facts.now (round.Indexes levels.First)) (known_through facts.now iterations.now [])) asked) }
{
    if seeks {
        level_asked(alloc, facts, Level::First, iterations, &[])
    } else {
        Asked::new(alloc, facts, &[])
    }
}
