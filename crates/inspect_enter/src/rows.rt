//! The iterations of rows, and their references but for index references.
ghost use Rattle.std.specs.Prelude.{◌≡◌, ◌≤◌, ◌+◌, ◌++◌, ◌∷◌, [], ℤ, List, filter, length, OnOk, IfOk, count_by};
ghost use Rattle.std.specs.List.{AllByRecursion, flat_map};
ghost use Rattle.fd_words.specs.Roles.{is_index as is_index_role};
ghost use Rattle.fd_program.specs.Met.{kept_uses};
ghost use Rattle.plan_loop.specs.LoopLetters.{iteration_row};
ghost use Rattle.inspect_enter.specs.Placed.{is_kept, MayBeStamped};
ghost use Rattle.inspect_enter.specs.Rows.{AreMet, first_iteration, first_uses};
ghost use Rattle.inspect_uses.specs.Accepted.{IsAccepted};
ghost use Rattle.inspect_uses.specs.Reached.{uses_with};

use fd_program::{LoopFacts, Reference, Use, Uses, is_met};
use fd_words::{Memory, Numbers};
use inspect_uses::uses;
use std::alloc::Global;

/// The iterations of some rows, and their references but for index references.
#[derive(Drop)]
pub(crate) struct OwnUses {
    pub(crate) iterations: Numbers,
    pub(crate) uses: Uses,
}

/// The numbers of a row.
fn width(references: &[Reference]) -> usize
    requires { length references.now ≤ 64 }
    ensures { result ≡ 1 + count_by (λ r. is_index_role r.role) references.now }
{
    1 + references.iter().filter(|r| r.role.is_index()).count()
}

fn keep(facts: &LoopFacts, used: Use, kept: &mut Uses) -> Result<(), Memory>
    ensures { OnOk result (kept.new ≡ kept.old ++ filter (is_kept facts.now) (used ∷ [])) }
{
    if !used.role.is_index() && is_met(facts.arrays.as_slice(), used) {
        kept.push(used)?;
    }
    Ok(())
}

fn keep_all(facts: &LoopFacts, list: &[Use], kept: &mut Uses) -> Result<(), Memory>
    ensures { OnOk result (kept.new ≡ kept.old ++ filter (is_kept facts.now) list.now) }
{
    for used in list {
        keep(facts, *used, kept)?;
    }
    Ok(())
}

/// The references of an iteration, where its index references give the first of these values.
fn add_iteration(
    alloc: Global,
    facts: &LoopFacts,
    i: i64,
    values: &[i64],
    kept: &mut Uses,
) -> Result<(), Memory>
    requires { length facts.now.site.references ≤ 64 }
    ensures { OnOk result (kept.new ≡ kept.old ++ filter (is_kept facts.now) (uses_with facts.now i values.now)) }
{
    let list = uses(alloc, facts, i, values)?;
    keep_all(facts, list.as_slice(), kept)
}

/// The iteration of the first row, and its references.
fn add_row(alloc: Global, facts: &LoopFacts, rows: &[i64], own: &mut OwnUses) -> Result<(), Memory>
    requires { length facts.now.site.references ≤ 64 }
    ensures iterations { OnOk result (own.new.iterations ≡ own.old.iterations ++ first_iteration rows.now) }
    ensures uses { OnOk result (own.new.uses ≡ own.old.uses ++ first_uses facts.now rows.now) }
{
    if let [i, values @ ..] = rows {
        own.iterations.push(*i)?;
        add_iteration(alloc, facts, *i, values, &mut own.uses)?;
    }
    Ok(())
}

/// The iterations of these rows, and their references.
pub(crate) fn read_rows(alloc: Global, facts: &LoopFacts, rows: &[i64]) -> Result<OwnUses, Memory>
    requires { IsAccepted facts.now }
    ensures kept { IfOk result (λ own. AllByRecursion (MayBeStamped facts.now) own.uses) }
    ensures iterations { IfOk result (λ own. (store : List (List ℤ)) (iterations : List ℤ) → AreMet facts.now store iterations
        → rows.now ≡ flat_map (iteration_row facts.now store) iterations → own.iterations ≡ iterations) }
    ensures uses { IfOk result (λ own. (store : List (List ℤ)) (iterations : List ℤ) → AreMet facts.now store iterations
        → rows.now ≡ flat_map (iteration_row facts.now store) iterations → own.uses ≡ kept_uses facts.now store iterations) }
{
    let width = width(facts.site.references.as_slice());
    let mut own = OwnUses {
        iterations: Numbers::new(alloc),
        uses: Uses::new(alloc),
    };
    let mut at = 0;
    while width <= rows.len() - at {
        add_row(alloc, facts, &rows[at..], &mut own)?;
        at += width;
    }
    Ok(own)
}
