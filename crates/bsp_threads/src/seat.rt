ghost use Rattle.std.specs.Prelude.{◌≡◌};
ghost use Rattle.bsp_threads.specs.declared.seat.Standing.TheVariants.{Going};
ghost use Rattle.bsp_threads.specs.Drives.{standing_after};

use crate::{DriveFault, Drove};
use bsp_mail::MailSeat;

/// How a seat stands: it is going, or its node is done, or a fault has stopped it.
#[derive(Clone, Copy, Debug, PartialEq, Eq)]
pub enum Standing {
    Going,
    Finished,
    Strayed,
    OutOfMemory,
}

impl Standing {
    /// How a seat stands after a drive.
    pub(crate) fn after(answer: &Result<Drove, DriveFault>) -> Standing
        ensures { result ≡ standing_after answer.now }
    {
        match answer {
            Ok(Drove::Finished) => Standing::Finished,
            Ok(Drove::Waiting) => Standing::Going,
            Err(DriveFault::Stray { .. }) => Standing::Strayed,
            Err(DriveFault::Memory) => Standing::OutOfMemory,
        }
    }
}

/// A node with its mail seat, and how many works it has done on this seat.
#[derive(Drop)]
pub struct DriveSeat<N> {
    pub node: N,
    pub mail: MailSeat,
    pub works: u64,
    pub standing: Standing,
}

impl<N> DriveSeat<N> {
    /// A seat whose node has done no work on it.
    pub fn new(node: N, mail: MailSeat) -> DriveSeat<N>
        ensures { result ≡ record { node = node; mail = mail; works = 0; standing = Going } }
    {
        DriveSeat {
            node,
            mail,
            works: 0,
            standing: Standing::Going,
        }
    }

    /// Gives the node and the mail seat back.
    pub fn into_parts(self) -> (N, MailSeat)
        ensures { (result.0 ≡ self.node) × (result.1 ≡ self.mail) }
    {
        let DriveSeat { node, mail, .. } = self;
        (node, mail)
    }
}
