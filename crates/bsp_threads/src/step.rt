//! One step of a seat.
ghost use Rattle.std.specs.Prelude.{◌≡◌};
ghost use Rattle.bsp_core.specs.declared.phased.Want.TheVariants.{Send, Take, Work};
ghost use Rattle.bsp_core.specs.Views.{next_of, WorksFor};
ghost use Rattle.bsp_threads.specs.Seats.{IsReady, IsDueWith};
ghost use Rattle.bsp_threads.specs.Drives.{fault_of, HasStepped};

use crate::{DriveFault, DriveSeat};
use bsp_core::{Phased, TakeFault, Want};
use bsp_mail::Queues;
use fd_outside::Gate;
use std::sync::Wait;

/// What a step was: an action of the node, a poll of an empty line, or nothing since the node is done.
#[derive(Clone, Copy, Debug, PartialEq, Eq)]
pub enum Step {
    Moved,
    Empty,
    AtEnd,
}

impl DriveFault {
    /// The fault of a drive whose letter wasn't taken.
    fn of(fault: TakeFault) -> DriveFault
        ensures { result ≡ fault_of fault }
    {
        match fault {
            TakeFault::Stray { wanted, got } => DriveFault::Stray { wanted, got },
        }
    }
}

impl<N: Phased> DriveSeat<N> {
    /// The node posts its next letter, and the mail seat puts it.
    fn send<R: Wait>(&mut self, rt: &R, queues: &Queues, to: u32) -> Result<Step, DriveFault>
        requires { IsDueWith N.view queues.now self.old (Send to) to }
        ensures ready { IsReady N.view queues.now self.new }
        ensures stepped { HasStepped N.view (WorksFor N.IsPlan N.count N.rows N.holds) self.old result self.new }
    {
        let letter = self.node.post();
        match self.mail.put(rt, queues, to, letter) {
            Ok(()) => Ok(Step::Moved),
            Err(_) => Err(DriveFault::Memory),
        }
    }

    /// The mail seat polls its line from another, and the node takes the letter that it gives.
    fn receive<R: Wait>(&mut self, rt: &R, queues: &Queues, from: u32) -> Result<Step, DriveFault>
        requires { IsDueWith N.view queues.now self.old (Take from) from }
        ensures ready { IsReady N.view queues.now self.new }
        ensures stepped { HasStepped N.view (WorksFor N.IsPlan N.count N.rows N.holds) self.old result self.new }
    {
        match self.mail.take_from(rt, queues, from) {
            None => Ok(Step::Empty),
            Some(letter) => match self.node.take(letter) {
                Ok(()) => Ok(Step::Moved),
                Err(fault) => Err(DriveFault::of(fault)),
            },
        }
    }

    /// The node works, once it has passed the gate. The works never come near 2^64: each makes the
    /// phases left fewer, which are below 2^31.
    fn work<G: Gate>(&mut self, queues: &Queues, gate: &G) -> Result<Step, DriveFault>
        requires ready { IsReady N.view queues.now self.old }
        requires due { next_of (N.view self.old.node).face ≡ Work }
        ensures ready { IsReady N.view queues.now self.new }
        ensures stepped { HasStepped N.view (WorksFor N.IsPlan N.count N.rows N.holds) self.old result self.new }
    {
        gate.pass(self.mail.me, self.works);
        match self.node.work() {
            Ok(()) => {
                self.works = self.works.wrapping_add(1);
                Ok(Step::Moved)
            }
            Err(_) => Err(DriveFault::Memory),
        }
    }

    /// The one action that is due, or a poll.
    pub(crate) fn step<R: Wait, G: Gate>(
        &mut self,
        rt: &R,
        queues: &Queues,
        gate: &G,
    ) -> Result<Step, DriveFault>
        requires ready { IsReady N.view queues.now self.old }
        ensures ready { IsReady N.view queues.now self.new }
        ensures stepped { HasStepped N.view (WorksFor N.IsPlan N.count N.rows N.holds) self.old result self.new }
    {
        match self.node.next() {
            Want::Send(to) => self.send(rt, queues, to),
            Want::Take(from) => self.receive(rt, queues, from),
            Want::Work => self.work(queues, gate),
            Want::Done => Ok(Step::AtEnd),
        }
    }
}
