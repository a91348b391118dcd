ghost use Rattle.std.specs.Prelude.{◌≡◌, ◌+◌, ◌*◌, ◌/◌, ◌^◌, ◌≤◌, ◌<◌, ◌+ℤ◌, ◌-ℤ◌, ◌≤ℤ◌, ◌<ℤ◌, pos, IfOk, unsigned_abs};
ghost use Rattle.fd_program.specs.Homes.{inspected_by};
ghost use Rattle.fd_program.specs.Loops.{range_of};

use fd_program::LoopFacts;
use fd_words::{Memory, Numbers};
use std::alloc::Global;

/// How many iterations a node inspects, where it inspects as many as any.
fn width(facts: &LoopFacts) -> u128
    requires { 1 ≤ facts.now.nodes }
    ensures width { result ≡ unsigned_abs (facts.now.turn.high -ℤ facts.now.turn.low) / facts.now.nodes + 1 }
    ensures most { result ≤ 2 ^ 64 }
{
    u128::from(facts.turn.high.abs_diff(facts.turn.low)) / u128::from(facts.nodes) + 1
}

/// How many iterations the nodes before a node inspect, where each inspects as many as any.
fn passed(width: u128, me: u32) -> i128
    requires { width ≤ 2 ^ 64 }
    ensures passed { result ≡ pos (me * width) }
    ensures most { me * width < 2 ^ 97 }
{
    (u128::from(me) * width) as i128
}

/// The first and the last of the iterations that a node inspects; the last is below the first where it
/// inspects none.
fn block(facts: &LoopFacts, me: u32) -> (i128, i128)
    requires { 1 ≤ facts.now.nodes }
    ensures first { pos 0 ≤ℤ (result.0 +ℤ pos (2 ^ 63)) }
    ensures last { result.1 <ℤ pos (2 ^ 63) }
    ensures block { range_of result.0 result.1 ≡ inspected_by facts.now me }
{
    let width = width(facts);
    let first = i128::from(facts.turn.low) + passed(width, me);
    let last = first + width as i128 - 1;
    if last < i128::from(facts.turn.high) {
        (first, last)
    } else {
        (first, i128::from(facts.turn.high))
    }
}

/// The iterations that a node inspects, in order: its block of the range, and nothing else of it is
/// gone through.
pub fn inspected(alloc: Global, facts: &LoopFacts, me: u32) -> Result<Numbers, Memory>
    requires some { 1 ≤ facts.now.nodes }
    requires few { facts.now.nodes ≤ 16 }
    ensures { IfOk result (λ list. list ≡ inspected_by facts.now me) }
{
    let (first, last) = block(facts, me);
    let mut list = Numbers::new(alloc);
    let mut i = first;
    while i <= last {
        list.push(i as i64)?;
        i += 1;
    }
    Ok(list)
}
