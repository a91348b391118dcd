ghost use Rattle.std.specs.Prelude.{◌≡◌, IfOk};

use chaos_sched::Prepared;
use fd_words::{Memory, NumberLists, Offence, Places};
use inspect_enter::Entering;
use plan_loop::{Asking, Level};
use std::alloc::Global;

/// How far an inspection has come, and what it has in hand there.
#[derive(Drop)]
pub enum Stage {
    /// Places are asked for of the nodes that keep the pages.
    Seeking(Asking),
    /// The other nodes' asks for places are here, and are answered from this node's pages.
    Telling(Asking, NumberLists),
    /// The values of a level's index arrays are asked for.
    Fetching(Level),
    /// The other nodes' asks for values are here, and are answered.
    Answering(Level, NumberLists),
    /// The values are here; the votes are due.
    Voting,
    /// A node had an offence: the end.
    Refused(Offence),
    /// No node had one, and these are the places that no formula tells of the references that tell
    /// homes; the iterations go there.
    Homing(Places),
    /// The iterations whose home is here are entered in the tables; what they need is asked for.
    Entered(Entering),
    /// The end.
    Ready(Prepared),
}

impl Stage {
    /// An equal value.
    pub(crate) fn copy(&self, alloc: Global) -> Result<Stage, Memory>
        ensures { IfOk result (λ stage. stage ≡ self.now) }
    {
        match self {
            Stage::Seeking(asking) => Ok(Stage::Seeking(*asking)),
            Stage::Telling(asking, asked) => Ok(Stage::Telling(*asking, asked.copy(alloc)?)),
            Stage::Fetching(level) => Ok(Stage::Fetching(*level)),
            Stage::Answering(level, asked) => Ok(Stage::Answering(*level, asked.copy(alloc)?)),
            Stage::Voting => Ok(Stage::Voting),
            Stage::Refused(offence) => Ok(Stage::Refused(*offence)),
            Stage::Homing(told) => Ok(Stage::Homing(Places::from_slice(alloc, told.as_slice())?)),
            Stage::Entered(entering) => Ok(Stage::Entered(entering.copy(alloc)?)),
            Stage::Ready(prepared) => Ok(Stage::Ready(prepared.copy(alloc)?)),
        }
    }
}
