ghost use Rattle.std.specs.Prelude.{◌≡◌};
ghost use Rattle.plan_loop.specs.LoopLetters.{is_at as is_at_level, kind_in_loop};

use chaos_letter::Kind;

/// A phase of one execution of a FORALL. An inspection goes through some of those up to `ScheduleAsk`,
/// and every execution through the last two.
#[derive(Clone, Copy, Debug, PartialEq, Eq)]
pub enum LoopPhase {
    DerefAsk(Asking),
    DerefAnswer(Asking),
    IndexAsk(Level),
    IndexValues(Level),
    Vote,
    Iterations,
    ScheduleAsk,
    Gather,
    Scatter,
}

/// Which index arrays: those that are read at the index and a number, or those that are read through
/// another, whose elements are known once the first have given their values.
#[derive(Clone, Copy, Debug, PartialEq, Eq)]
pub enum Level {
    First,
    Second,
}

/// Whose places an inspection asks for: those of index arrays' elements, level by level, of the references
/// that tell homes, or of all other references.
#[derive(Clone, Copy, Debug, PartialEq, Eq)]
pub enum Asking {
    Indexes(Level),
    Homes,
    References,
}

impl Level {
    /// Whether an index reference is of this level whose subscript is `plain`, or isn't.
    pub fn is_at(self, plain: bool) -> bool
        ensures { result ≡ is_at_level self plain }
    {
        match self {
            Level::First => plain,
            Level::Second => !plain,
        }
    }
}

impl LoopPhase {
    /// The kind of the phase's letters.
    pub fn kind(self) -> Kind
        ensures { result ≡ kind_in_loop self }
    {
        match self {
            LoopPhase::DerefAsk(_) => Kind::DerefAsk,
            LoopPhase::DerefAnswer(_) => Kind::DerefAnswer,
            LoopPhase::IndexAsk(_) => Kind::IndexAsk,
            LoopPhase::IndexValues(_) => Kind::IndexValues,
            LoopPhase::Vote => Kind::Vote,
            LoopPhase::Iterations => Kind::Iterations,
            LoopPhase::ScheduleAsk => Kind::ScheduleAsk,
            LoopPhase::Gather => Kind::Gather,
            LoopPhase::Scatter => Kind::Scatter,
        }
    }
}
