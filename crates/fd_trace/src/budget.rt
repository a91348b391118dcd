ghost use Rattle.std.specs.Prelude.{◌≡◌, ◌≤◌, ◌^◌, ◌*◌, [], ◌∷◌};
ghost use Rattle.fd_trace.specs.Events.{Event, Goes};

use fd_words::{SourceCause, SourceFault, SourcePlace, SourceStop};

/// The most iterations times references of an executed FORALL.
const MOST_WORK: u128 = 16_777_216;

/// What may still be spent: steps and turns of DOs, and printed elements.
#[derive(Clone, Copy, Debug, PartialEq, Eq)]
pub struct Left {
    pub turns: u64,
    pub elements: u64,
}

impl Left {
    /// A step or a turn begins.
    pub fn begin(&mut self, at: SourcePlace) -> Result<(), SourceStop>
        ensures { Goes self.old self.new result (Event.Begins at ∷ []) }
    {
        if self.turns == 0 {
            let cause = SourceCause::TraceTooLong;
            return Err(SourceStop::Fault(SourceFault { at, cause }));
        }
        self.turns -= 1;
        Ok(())
    }

    /// Elements are printed.
    pub fn print(&mut self, at: SourcePlace, count: u64) -> Result<(), SourceStop>
        ensures { Goes self.old self.new result (Event.Prints at count ∷ []) }
    {
        if self.elements < count {
            let cause = SourceCause::TextTooLong;
            return Err(SourceStop::Fault(SourceFault { at, cause }));
        }
        self.elements -= count;
        Ok(())
    }

    /// A FORALL is executed, with so many iterations and references.
    pub fn work(
        &self,
        at: SourcePlace,
        iterations: u128,
        references: usize,
    ) -> Result<(), SourceStop>
        requires { iterations ≤ 2 ^ 64 }
        ensures { Goes self.now self.now result (Event.Works at (iterations * references) ∷ []) }
    {
        if MOST_WORK < iterations * references as u128 {
            let cause = SourceCause::LoopTooLarge;
            return Err(SourceStop::Fault(SourceFault { at, cause }));
        }
        Ok(())
    }
}
