//! Laws of the definitions. Each function does nothing; its contract is the law.
ghost use Rattle.chaos_begin.specs.BeginsLaws.{KeptAreLatest, StagesAreBegun};

/// Where for each FORALL is kept what is to be kept between steps, the records are those of the latest
/// executions.
pub fn kept_are_latest()
    ensures { KeptAreLatest }
{}

/// In a run, what is begun has the stages of its step.
pub fn stages_are_begun()
    ensures { StagesAreBegun }
{}
