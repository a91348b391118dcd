ghost use Rattle.chaos_inspect.specs.PhaseLaws.{PhasesFollow};

/// The phases that follow one another from the first phase on are those of the loop's inspection, up to
/// the vote and from it on.
pub fn phases_follow()
    ensures { PhasesFollow }
{}
