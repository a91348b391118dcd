//! The steps on the line of one ordered pair.
ghost use Rattle.std.specs.Prelude.{◌≡◌, true, [], IfOk, MatchResult, MatchOption};
ghost use Rattle.crossbeam_queue.specs.SegTies.{IsSegPassOf};
ghost use Rattle.bsp_mail.specs.Rule.{sender, receiver, after_put, after_take, after_poll, retired, heir, IsPrefix};

use crate::Hand;
use crate::rule::{Drops, InTurn, Polls, Puts, Retires, Roles, Takes, Unites};
use chaos_letter::Letter;
use crossbeam_queue::{RuledSegQueue, SegPass};
use fd_words::Memory;
use std::alloc::Global;
use std::sync::Wait;

/// The queue of one ordered pair, under its rule.
pub type Line = RuledSegQueue<Letter, Hand, InTurn>;

/// A pass to a line: the sender's or the receiver's.
pub type Pass = SegPass<Letter, Hand>;

/// A new line, its sender's pass and its receiver's.
pub fn open(alloc: Global) -> Result<(Line, Pass, Pass), Memory>
    ensures { IfOk result (λ r. IsSegPassOf r.0 r.1 × IsSegPassOf r.0 r.2 × (r.1.me.view.client ≡ sender)
        × (r.2.me.view.client ≡ receiver)) }
{
    let (line, mut pass) = Line::with_rule(alloc)?;
    let other = line.another::<Roles>(&mut pass);
    Ok((line, pass, other))
}

/// The sender's push. Where memory is wanting the letter comes back.
pub fn put<R: Wait>(rt: &R, line: &Line, pass: &mut Pass, letter: Letter) -> Result<(), Letter>
    requires pass { IsSegPassOf line.now pass.old }
    requires role { pass.old.me.view.client.sends ≡ true }
    ensures pass { IsSegPassOf line.now pass.new }
    ensures put { MatchResult result (λ _. pass.new.me.view.client ≡ after_put pass.old.me.view.client letter) (λ x. (x ≡ letter)
        × (pass.new.me.view.client ≡ pass.old.me.view.client)) }
{
    line.push_as::<Puts, R>(rt, pass, letter)
}

/// The receiver's pop. Where it finds nothing it counts an empty poll.
pub fn take<R: Wait>(rt: &R, line: &Line, pass: &mut Pass) -> Option<Letter>
    requires pass { IsSegPassOf line.now pass.old }
    requires role { (pass.old.me.view.client.takes ≡ true) × (pass.old.me.view.client.dropped ≡ []) }
    ensures pass { IsSegPassOf line.now pass.new }
    ensures take { MatchOption result (pass.new.me.view.client ≡ after_poll pass.old.me.view.client) (λ x. pass.new.me.view.client
        ≡ after_take pass.old.me.view.client x) }
{
    match line.pop_as::<Takes, R>(rt, pass) {
        Some(letter) => Some(letter),
        None => {
            let _nobody = line.another::<Polls>(pass);
            None
        }
    }
}

/// Splits the right to take from the receiver's pass, which keeps its lists and may do nothing more.
pub fn retire(line: &Line, to: &mut Pass) -> Pass
    requires { IsSegPassOf line.now to.old × (to.old.me.view.client.takes ≡ true) }
    ensures to { IsSegPassOf line.now to.new × (to.new.me.view.client ≡ retired to.old.me.view.client) }
    ensures heir { IsSegPassOf line.now result × (result.me.view.client ≡ heir to.old.me.view.client) }
{
    line.another::<Retires>(to)
}

/// Joins the right to take to the sender's pass, and pops once: that pass then knows both lists.
pub fn unite<R: Wait>(rt: &R, line: &Line, from: &mut Pass, heir: Pass)
    requires from { IsSegPassOf line.now from.old × (from.old.me.view.client.sends ≡ true) }
    requires heir { IsSegPassOf line.now heir × (heir.me.view.client.takes ≡ true) }
    ensures from { IsSegPassOf line.now from.new × (from.new.me.view.client.sent ≡ from.old.me.view.client.sent) }
    ensures prefix { IsPrefix heir.me.view.client.taken from.old.me.view.client.sent }
{
    line.absorb::<Unites>(from, heir);
    let _dropped = line.pop_as::<Drops, R>(rt, from);
}
