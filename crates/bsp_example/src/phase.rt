ghost use Rattle.std.specs.Prelude.{◌≡◌, ◌≤◌, [], length, vec_capacity, IfOk};
ghost use Rattle.bsp_core.specs.Others.{others};
ghost use Rattle.bsp_example.specs.Rows.{voter_out, voter_due, voter_letter, voter_wanted, to_whom, from_whom};

use bsp_desk::{Phase, phase_of};
use chaos_letter::{Kind, Letter, Wanted};
use fd_words::{Memory, Numbers};
use std::alloc::Global;
use std::collections::VecDeque;

/// The nodes below a count but one.
fn others_of(alloc: Global, me: u32, count: u32) -> Result<Vec<u32>, Memory>
    ensures { IfOk result (λ v. v.items ≡ others me count) }
{
    let mut all = Vec::new(alloc);
    for q in 0..count {
        if q != me {
            all.push(q)?;
        }
    }
    Ok(all)
}

/// Whom a node sends to.
fn receivers_of(
    alloc: Global,
    left: u32,
    all: bool,
    me: u32,
    count: u32,
) -> Result<Vec<u32>, Memory>
    ensures { IfOk result (λ v. v.items ≡ to_whom left all me count) }
{
    if left == 0 {
        return Ok(Vec::new(alloc));
    }
    if all {
        return others_of(alloc, me, count);
    }
    let mut first = Vec::new(alloc);
    if me != 0 {
        first.push(0)?;
    }
    Ok(first)
}

/// Whom a node takes from.
fn senders_of(alloc: Global, left: u32, all: bool, me: u32, count: u32) -> Result<Vec<u32>, Memory>
    ensures { IfOk result (λ v. v.items ≡ from_whom left all me count) }
{
    if left == 0 {
        return Ok(Vec::new(alloc));
    }
    if all {
        return others_of(alloc, me, count);
    }
    if me == 0 {
        return others_of(alloc, 0, count);
    }
    Ok(Vec::new(alloc))
}

/// A letter of a phase: one number, and a second one where the flag is set.
fn letter_of(alloc: Global, left: u32, flag: bool) -> Result<Letter, Memory>
    ensures { IfOk result (λ x. x ≡ voter_letter left flag) }
{
    let mut numbers = Numbers::new(alloc);
    numbers.push(1)?;
    if flag {
        numbers.push(1)?;
    }
    Ok(Letter::new(Kind::Gather, u64::from(left), 0, numbers))
}

/// What is wanted in a phase.
fn wanted_of(left: u32) -> Wanted
    ensures { result ≡ voter_wanted left }
{
    Wanted {
        kind: Kind::Gather,
        execution: u64::from(left),
        site: 0,
        group: 1,
        least: 1,
        most: 2,
    }
}

/// A list with room, as much as it happens to get.
pub fn pool_of(alloc: Global) -> Result<Vec<u32>, Memory>
    ensures { IfOk result (λ v. 4 ≤ vec_capacity v) }
{
    let mut pool = Vec::new(alloc);
    for k in 0..4 {
        pool.push(k)?;
    }
    Ok(pool)
}

/// What a node begins a phase with.
pub fn prepared(
    alloc: Global,
    left: u32,
    all: bool,
    me: u32,
    count: u32,
    flag: bool,
) -> Result<Phase, Memory>
    ensures left { IfOk result (λ f. f.left ≡ left) }
    ensures out { IfOk result (λ f. f.out.items ≡ voter_out left all flag me count) }
    ensures due { IfOk result (λ f. f.due.items ≡ voter_due left all me count) }
    ensures got { IfOk result (λ f. f.got.items ≡ []) }
    ensures room { IfOk result (λ f. length f.due.items ≤ vec_capacity f.got) }
{
    let to = receivers_of(alloc, left, all, me, count)?;
    let from = senders_of(alloc, left, all, me, count)?;
    let mut out = VecDeque::new(alloc);
    'outs: for q in &to {
        let letter = letter_of(alloc, left, flag)?;
        out.push_back((*q, letter))?;
    }
    let mut due = VecDeque::new(alloc);
    'dues: for q in &from {
        due.push_back((*q, wanted_of(left)))?;
    }
    let phase = phase_of(alloc, left, out, due)?;
    Ok(phase)
}
