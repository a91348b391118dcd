//! The values of both levels of index references, in one list.
ghost use Rattle.std.specs.Prelude.{◌≡◌, ◌≤◌, ◌∷◌, ◌++◌, [], filter, length, IfOk, OnOk};
ghost use Rattle.fd_program.specs.Stores.{number_at};
ghost use Rattle.fd_program.specs.Uses.{gives_index};
ghost use Rattle.chaos_inspect.specs.Walking.{known_through, woven as woven_of};

use crate::votes::behind;
use fd_program::{ArrayFacts, LoopFacts, Use, Uses, gives};
use fd_words::{Memory, Numbers};
use inspect_uses::{given_first, known};
use std::alloc::Global;

fn keep(arrays: &[ArrayFacts], used: Use, kept: &mut Uses) -> Result<(), Memory>
    ensures { OnOk result (kept.new ≡ kept.old ++ filter (gives_index arrays.now) (used ∷ [])) }
{
    if gives(arrays, used) {
        kept.push(used)?;
    }
    Ok(())
}

/// Keeps those of these references that are index references and reach an element.
fn keep_all(arrays: &[ArrayFacts], uses: &[Use], kept: &mut Uses) -> Result<(), Memory>
    ensures { OnOk result (kept.new ≡ kept.old ++ filter (gives_index arrays.now) uses.now) }
{
    for used in uses {
        keep(arrays, *used, kept)?;
    }
    Ok(())
}

/// The index references of these iterations that reach an element, where those with a plain subscript give
/// these values.
pub fn index_uses(
    alloc: Global,
    facts: &LoopFacts,
    iterations: &[i64],
    firsts: &[i64],
) -> Result<Uses, Memory>
    requires { length facts.now.site.references ≤ 64 }
    ensures { IfOk result (λ list. list ≡ filter (gives_index facts.now.arrays) (known_through facts.now iterations.now firsts.now)) }
{
    let arrays = facts.arrays.as_slice();
    let mut list = Uses::new(alloc);
    let mut rest = firsts;
    for i in iterations {
        let used = known(alloc, facts, *i, rest)?;
        keep_all(arrays, used.as_slice(), &mut list)?;
        rest = behind(rest, given_first(arrays, used.as_slice()));
    }
    Ok(list)
}

/// The number at a place; 0 from the end on.
fn value(values: &[i64], at: usize) -> i64
    ensures { result ≡ number_at values.now at }
{
    values.get(at).copied().unwrap_or(0)
}

/// What these index references give, where those with a plain subscript give the first values and the
/// others the second ones.
pub fn woven(
    alloc: Global,
    uses: &[Use],
    firsts: &[i64],
    seconds: &[i64],
) -> Result<Numbers, Memory>
    ensures { IfOk result (λ values. values ≡ woven_of uses.now firsts.now seconds.now) }
{
    let mut values = Numbers::new(alloc);
    let mut first = firsts;
    let mut second = seconds;
    for used in uses {
        if used.plain {
            values.push(value(first, 0))?;
            first = behind(first, 1);
        } else {
            values.push(value(second, 0))?;
            second = behind(second, 1);
        }
    }
    Ok(values)
}
