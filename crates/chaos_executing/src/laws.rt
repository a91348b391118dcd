//! Laws of the definitions. The function does nothing; its contract is the laws.
ghost use Rattle.chaos_executing.specs.Counts.{CountsAreReported, GatherHasCounts, ScatterHasCounts};

/// Where a kept inspection fits, the counts are the lengths of the letters that are due, and the
/// elements gathered and scattered are those that the report of the run counts.
pub fn letters_have_counts()
    ensures gather { GatherHasCounts }
    ensures scatter { ScatterHasCounts }
    ensures reported { CountsAreReported }
{}
