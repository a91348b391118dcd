ghost use Rattle.std.specs.Prelude.{◌≡◌, ◌<◌, ◌+◌, IfOk};
ghost use Rattle.bsp_mail.specs.Rule.{IsPrefix};
ghost use Rattle.bsp_mail.specs.Seats.{place, IsHeirOf};
ghost use Rattle.bsp_mail.specs.Mails.{IsPair, IsOutOn, AreRetired, AreUnited, IsShaped, IsOpenPair, IsWhole, IsFresh, SameLists, SameElse};
ghost use Rattle.bsp_mail.specs.Mails.{ArePrefixes, sent_on, taken_on};
ghost use Rattle.bsp_mail.specs.Opens.{AreBare, IsOpening};

use crate::line::Pass;
use crate::{MailSeat, Queues, line};
use fd_words::Memory;
use std::alloc::Global;
use std::sync::Wait;

/// The lines of all ordered pairs of sixteen seats, and the seats; seat j is node j's.
#[derive(Drop)]
pub struct Mail {
    pub queues: Queues,
    pub seats: Vec<MailSeat>,
}

impl Mail {
    /// A Mail of empty lines, whose lists are all empty.
    pub fn new(alloc: Global) -> Result<Mail, Memory>
        ensures { IfOk result (λ m. IsFresh m.queues m.seats.items) }
    {
        let mut mail = Mail {
            queues: Queues {
                lines: Vec::new(alloc),
            },
            seats: bare_seats(alloc)?,
        };
        for from in 0..16u32 {
            mail.open_row(alloc, from)?;
        }
        Ok(mail)
    }

    /// Opens the lines from one seat to all others.
    fn open_row(&mut self, alloc: Global, from: u32) -> Result<(), Memory>
        requires row { from < 16 }
        requires opening { IsOpening self.old.queues self.old.seats.items from 0 }
        ensures { IfOk result (λ _. IsOpening self.new.queues self.new.seats.items (from + 1) 0) }
    {
        for to in 0..16u32 {
            if from != to {
                self.open_pair(alloc, from, to)?;
            }
        }
        Ok(())
    }

    /// Opens the line of one pair.
    fn open_pair(&mut self, alloc: Global, from: u32, to: u32) -> Result<(), Memory>
        requires pair { IsPair from to }
        requires opening { IsOpening self.old.queues self.old.seats.items from to }
        ensures { IfOk result (λ _. IsOpening self.new.queues self.new.seats.items from (to + 1)) }
    {
        let (line, sender, receiver) = line::open(alloc)?;
        self.queues.push(line)?;
        self.seats[from as usize].add_out(to, sender)?;
        self.seats[to as usize].add_in(from, receiver)?;
        Ok(())
    }

    /// Settles one line.
    fn settle_pair<R: Wait>(&mut self, rt: &R, from: u32, to: u32)
        requires shape { IsShaped self.old.queues self.old.seats.items }
        requires pair { IsPair from to }
        requires opened { IsOpenPair self.old.queues self.old.seats.items from to }
        ensures queues { self.new.queues ≡ self.old.queues }
        ensures shape { IsShaped self.old.queues self.new.seats.items }
        ensures same { SameLists self.old.seats.items self.new.seats.items }
        ensures others { SameElse self.old.seats.items self.new.seats.items from to }
        ensures prefix { IsPrefix (taken_on self.new.seats.items from to) (sent_on self.new.seats.items from to) }
    {
        let heir = retire_end(&self.queues, &mut self.seats, from, to);
        unite_ends(rt, &self.queues, &mut self.seats, from, to, heir);
    }

    /// Joins the two passes of each pair and pops once from each line; what that gives is dropped. The
    /// lists stay as they were, and each taken list is then known to be a prefix of its sent list. No
    /// letter can be put or taken afterwards. It takes no memory.
    pub fn settle<R: Wait>(&mut self, rt: &R)
        requires { IsWhole self.old.queues self.old.seats.items }
        ensures queues { self.new.queues ≡ self.old.queues }
        ensures shape { IsShaped self.new.queues self.new.seats.items }
        ensures same { SameLists self.old.seats.items self.new.seats.items }
        ensures prefixes { ArePrefixes self.new.seats.items }
    {
        for n in 0..256u32 {
            let from = n / 16;
            let to = n % 16;
            if from != to {
                self.settle_pair(rt, from, to);
            }
        }
    }
}

/// Sixteen seats with no end yet.
fn bare_seats(alloc: Global) -> Result<Vec<MailSeat>, Memory>
    ensures { IfOk result (λ seats. AreBare seats.items 16) }
{
    let mut seats = Vec::new(alloc);
    for me in 0..16u32 {
        seats.push(MailSeat::bare(alloc, me))?;
    }
    Ok(seats)
}

/// Gives away the receiver's right to the line of a pair.
fn retire_end(queues: &Queues, seats: &mut Vec<MailSeat>, from: u32, to: u32) -> Pass
    requires shape { IsShaped queues.now seats.old.items }
    requires pair { IsPair from to }
    requires opened { IsOpenPair queues.now seats.old.items from to }
    ensures seats { AreRetired queues.now seats.old.items seats.new.items from to }
    ensures heir { IsHeirOf queues.now (place from to) (taken_on seats.old.items from to) result }
{
    seats[to as usize].retire(queues, from)
}

/// Joins the receiver's right to the line of a pair to the sender's pass, and pops once.
fn unite_ends<R: Wait>(
    rt: &R,
    queues: &Queues,
    seats: &mut Vec<MailSeat>,
    from: u32,
    to: u32,
    heir: Pass,
)
    requires shape { IsShaped queues.now seats.old.items }
    requires pair { IsPair from to }
    requires end { IsOutOn queues.now seats.old.items from to }
    requires heir { IsHeirOf queues.now (place from to) heir.me.view.client.taken heir }
    ensures seats { AreUnited queues.now seats.old.items seats.new.items from to }
    ensures prefix { IsPrefix heir.me.view.client.taken (sent_on seats.old.items from to) }
{
    seats[from as usize].unite(rt, queues, to, heir);
}
