ghost use Rattle.std.specs.Prelude.{◌≡◌};
ghost use Rattle.plan_run.specs.Phases.{kind_of};

use chaos_letter::Kind;
use plan_loop::LoopPhase;

/// What a phase of a run is for. A DISTRIBUTE goes through the first five, or through `Remap` alone; a
/// PRINT through `Print`; the array of OUTPUT with a number, from 0, through `Output`.
#[derive(Clone, Copy, Debug, PartialEq, Eq)]
pub enum Stage {
    /// Pairs of an element and its owner, by the map array with this number.
    MapPairs(u32),
    PageCounts,
    MovingAsk,
    MovingAnswer,
    Remap,
    Print,
    Output(u32),
    InLoop(LoopPhase),
}

impl Stage {
    /// The kind of the phase's letters.
    pub fn kind(self) -> Kind
        ensures { result ≡ kind_of self }
    {
        match self {
            Stage::MapPairs(_) => Kind::MapPairs,
            Stage::PageCounts => Kind::PageCounts,
            Stage::MovingAsk => Kind::DerefAsk,
            Stage::MovingAnswer => Kind::DerefAnswer,
            Stage::Remap => Kind::Remap,
            Stage::Print | Stage::Output(_) => Kind::Print,
            Stage::InLoop(phase) => phase.kind(),
        }
    }
}
