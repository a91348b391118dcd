ghost use Rattle.std.specs.Prelude.{◌≡◌, ◌≢◌, ℕ, ◌<◌, ◌++◌, ◌+◌, [], length, slice_get, IfOk, MatchResult, MatchOption};
ghost use Rattle.bsp_mail.specs.Seats.{below, place, IsPeer, IsOpenOn, sent_to, taken_from, polls_of, only, IsInAt, IsOutAt, IsHeirOf};
ghost use Rattle.bsp_mail.specs.Opens.{GetsOut, GetsIn};
ghost use Rattle.bsp_mail.specs.Rule.{IsPrefix};

use crate::line::Pass;
use crate::queues::{below_of, place_of};
use crate::{End, Queues, line};
use chaos_letter::Letter;
use fd_words::Memory;
use std::alloc::Global;
use std::sync::Wait;

/// A node's ends of its lines: the sender's passes of those to the other seats, and the receiver's
/// passes of those from them, each list in the order of the other seats.
///
/// Contracts see two lists for each other seat: what was sent to it and what was taken from it. They
/// take no memory.
#[derive(Drop)]
pub struct MailSeat {
    pub me: u32,
    pub outs: Vec<End>,
    pub ins: Vec<End>,
}

impl MailSeat {
    /// Puts a letter on the line to another seat. Where memory is wanting the letter comes back, and
    /// nothing has changed.
    pub fn put<R: Wait>(
        &mut self,
        rt: &R,
        queues: &Queues,
        to: u32,
        letter: Letter,
    ) -> Result<(), Letter>
        requires open { IsOpenOn queues.now self.old }
        requires peer { IsPeer self.old.me to }
        ensures open { IsOpenOn queues.now self.new }
        ensures same { (self.new.me ≡ self.old.me) × (self.new.ins ≡ self.old.ins) }
        ensures put { MatchResult result (λ _. (q : ℕ) → IsPeer self.old.me q → sent_to self.new q ≡ sent_to self.old q
            ++ only to q letter) (λ x. (x ≡ letter) × ((q : ℕ) → IsPeer self.old.me q → sent_to self.new q ≡ sent_to self.old q)) }
    {
        let queue = &queues.lines[place_of(self.me, to)];
        let end = &mut self.outs[below_of(self.me, to)];
        line::put(rt, &queue.line, &mut end.pass, letter)
    }

    /// Takes the next letter from another seat; none only where its line was empty at a moment of this
    /// call, which is then counted as an empty poll.
    pub fn take_from<R: Wait>(&mut self, rt: &R, queues: &Queues, from: u32) -> Option<Letter>
        requires open { IsOpenOn queues.now self.old }
        requires peer { IsPeer self.old.me from }
        ensures open { IsOpenOn queues.now self.new }
        ensures same { (self.new.me ≡ self.old.me) × (self.new.outs ≡ self.old.outs) }
        ensures others { (q : ℕ) → IsPeer self.old.me q → q ≢ from → polls_of self.new q ≡ polls_of self.old q }
        ensures take { MatchOption result
            ((polls_of self.new from ≡ polls_of self.old from + 1)
            × ((q : ℕ) → IsPeer self.old.me q → taken_from self.new q ≡ taken_from self.old q))
            (λ x. (polls_of self.new from ≡ 0) × ((q : ℕ) → IsPeer self.old.me q → taken_from self.new q ≡ taken_from self.old q
            ++ only from q x)) }
    {
        let queue = &queues.lines[place_of(from, self.me)];
        let end = &mut self.ins[below_of(self.me, from)];
        line::take(rt, &queue.line, &mut end.pass)
    }

    /// Gives away the right to take from another seat. The lists stay.
    pub(crate) fn retire(&mut self, queues: &Queues, from: u32) -> Pass
        requires shape { (self.old.me < 16) × (length self.old.ins.items ≡ 15) × (length queues.now.lines.items ≡ 240) }
        requires peer { IsPeer self.old.me from }
        requires end { IsInAt queues.now self.old from }
        ensures same { (self.new.me ≡ self.old.me) × (self.new.outs ≡ self.old.outs) × (length self.new.ins.items ≡ 15) }
        ensures others { (q : ℕ) → IsPeer self.old.me q → q ≢ from → slice_get self.new.ins.items (below self.old.me q)
            ≡ slice_get self.old.ins.items (below self.old.me q) }
        ensures taken { (q : ℕ) → IsPeer self.old.me q → taken_from self.new q ≡ taken_from self.old q }
        ensures heir { IsHeirOf queues.now (place from self.old.me) (taken_from self.old from) result }
    {
        let queue = &queues.lines[place_of(from, self.me)];
        let end = &mut self.ins[below_of(self.me, from)];
        line::retire(&queue.line, &mut end.pass)
    }

    /// Joins the right to take from its own line to another seat, and pops once from it. The lists stay.
    pub(crate) fn unite<R: Wait>(&mut self, rt: &R, queues: &Queues, to: u32, heir: Pass)
        requires shape { (self.old.me < 16) × (length self.old.outs.items ≡ 15) × (length queues.now.lines.items ≡ 240) }
        requires peer { IsPeer self.old.me to }
        requires end { IsOutAt queues.now self.old to }
        requires heir { IsHeirOf queues.now (place self.old.me to) heir.me.view.client.taken heir }
        ensures same { (self.new.me ≡ self.old.me) × (self.new.ins ≡ self.old.ins) × (length self.new.outs.items ≡ 15) }
        ensures others { (q : ℕ) → IsPeer self.old.me q → q ≢ to → slice_get self.new.outs.items (below self.old.me q)
            ≡ slice_get self.old.outs.items (below self.old.me q) }
        ensures sent { (q : ℕ) → IsPeer self.old.me q → sent_to self.new q ≡ sent_to self.old q }
        ensures prefix { IsPrefix heir.me.view.client.taken (sent_to self.old to) }
    {
        let queue = &queues.lines[place_of(self.me, to)];
        let end = &mut self.outs[below_of(self.me, to)];
        line::unite(rt, &queue.line, &mut end.pass, heir);
    }

    /// What stands for a seat while it is away; it takes no memory.
    pub fn away(alloc: Global) -> MailSeat
        ensures { result.me ≡ 16 }
    {
        MailSeat::bare(alloc, 16)
    }

    /// A seat with no end yet, which takes no memory.
    pub(crate) fn bare(alloc: Global, me: u32) -> MailSeat
        ensures { (result.me ≡ me) × (result.outs.items ≡ []) × (result.ins.items ≡ []) }
    {
        MailSeat {
            me,
            outs: Vec::new(alloc),
            ins: Vec::new(alloc),
        }
    }

    /// Adds the sender's end of the line to the next of the other seats.
    pub(crate) fn add_out(&mut self, peer: u32, pass: Pass) -> Result<(), Memory>
        ensures { IfOk result (λ _. GetsOut self.old self.new (record { peer = peer; pass = pass })) }
    {
        self.outs.push(End { peer, pass })?;
        Ok(())
    }

    /// Adds the receiver's end of the line from the next of the other seats.
    pub(crate) fn add_in(&mut self, peer: u32, pass: Pass) -> Result<(), Memory>
        ensures { IfOk result (λ _. GetsIn self.old self.new (record { peer = peer; pass = pass })) }
    {
        self.ins.push(End { peer, pass })?;
        Ok(())
    }
}
