ghost use Rattle.std.specs.Prelude.{◌≡◌, IfOk};

use crate::{LocalRefs, Schedule};
use fd_words::{Memory, Numbers};
use std::alloc::Global;

/// A kept inspection: the iterations of this node, where each of their references finds its value, and
/// the schedule. The references go by iteration and reference number, without index references.
#[derive(Debug, Drop)]
pub struct Prepared {
    pub iterations: Numbers,
    pub references: LocalRefs,
    pub schedule: Schedule,
}

impl Prepared {
    /// An equal inspection.
    pub fn copy(&self, alloc: Global) -> Result<Prepared, Memory>
        ensures { IfOk result (λ p. p ≡ self.now) }
    {
        let iterations = self.iterations.copy(alloc)?;
        let references = LocalRefs::from_slice(alloc, self.references.as_slice())?;
        let schedule = self.schedule.copy(alloc)?;
        Ok(Prepared {
            iterations,
            references,
            schedule,
        })
    }
}
