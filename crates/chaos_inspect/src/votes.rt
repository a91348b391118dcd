ghost use Rattle.std.specs.Prelude.{◌≡◌, ◌≤◌, ◌+◌, length, drop, map, filter_map, replicate, IfOk};
ghost use Rattle.fd_program.specs.Loops.{first_of, offence_at as offence_by};
ghost use Rattle.chaos_vote.specs.Votes.{least_of, read_vote};
ghost use Rattle.chaos_inspect.specs.Walking.{uses_through};

use chaos_vote::{least, offence_of};
use fd_program::{LoopFacts, first_offence};
use fd_words::{Memory, NumberLists, Numbers, Offence};
use inspect_uses::{given, uses};
use std::alloc::Global;

/// The values behind so many.
pub fn behind(values: &[i64], count: usize) -> &[i64]
    ensures { result.now ≡ drop count values.now }
{
    if count < values.len() {
        &values[count..]
    } else {
        &[]
    }
}

/// The first offence of these iterations, whose index references give these values.
pub fn own_vote(
    alloc: Global,
    facts: &LoopFacts,
    iterations: &[i64],
    values: &[i64],
) -> Result<Option<Offence>, Memory>
    requires { length facts.now.site.references ≤ 64 }
    ensures { IfOk result (λ o. o ≡ first_of (filter_map (offence_by facts.now.arrays)
        (uses_through facts.now iterations.now values.now))) }
{
    let arrays = facts.arrays.as_slice();
    let mut rest = values;
    for i in iterations {
        let used = uses(alloc, facts, *i, rest)?;
        match first_offence(arrays, used.as_slice()) {
            Some(offence) => return Ok(Some(offence)),
            None => {}
        }
        rest = behind(rest, given(arrays, used.as_slice()));
    }
    Ok(None)
}

/// The same numbers for each node.
pub fn to_all(alloc: Global, nodes: u32, numbers: &Numbers) -> Result<NumberLists, Memory>
    ensures { IfOk result (λ lists. lists ≡ replicate nodes numbers.now) }
{
    let mut lists = NumberLists::new(alloc);
    for _ in 0..nodes {
        lists.push(numbers.copy(alloc)?)?;
    }
    Ok(lists)
}

/// The least vote among these letters.
pub fn least_told(alloc: Global, letters: &[Numbers]) -> Result<Option<Offence>, Memory>
    ensures { IfOk result (λ o. o ≡ least_of (map read_vote letters.now)) }
{
    let mut votes = Vec::new(alloc);
    for letter in letters {
        votes.push(offence_of(letter))?;
    }
    Ok(least(votes.as_slice()))
}
