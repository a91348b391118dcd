//! Laws of the definitions. Each function does nothing; its contract is the law.
ghost use Rattle.chaos_facts.specs.FactsLaws.{FactsAreAccepted, FactsAreExact, RunHasOwners, RunKeepsExtents};
ghost use Rattle.fd_program.specs.StepLaws.{StepsAreIn};

/// What is made from the records are the facts of the execution, and they are those of a checked program;
/// and the steps of a program are steps that it can take.
pub fn facts_are_known()
    ensures exact { FactsAreExact }
    ensures accepted { FactsAreAccepted }
    ensures steps { StepsAreIn }
{}

/// In a run of a checked program each decomposition has an owner for each of its elements, which is one
/// of the nodes, and the one by its form where that is regular.
pub fn run_has_owners()
    ensures owners { RunHasOwners }
    ensures extents { RunKeepsExtents }
{}
