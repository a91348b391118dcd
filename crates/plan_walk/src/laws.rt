//! Laws of the definitions. Each function does nothing; its contract is the law.
ghost use Rattle.plan_walk.specs.LetterLaws.{AllLengthsAreCounted, AllListsAreSent, FirstTakesAll, FreeIsCounted, GathersAreKnown};
ghost use Rattle.plan_walk.specs.LetterLaws.{IndexValuesAreKnown, LettersAreSent, LettersAreTaken, LettersComeIn, MoveAnswersAreKnown};
ghost use Rattle.plan_walk.specs.LetterLaws.{OwnListIsPutIn, PageCountsAreKnown, PlaceAnswersAreKnown, PrintIsSent, RowsAreMade};
ghost use Rattle.plan_walk.specs.LetterLaws.{ScattersAreKnown};
ghost use Rattle.plan_walk.specs.PhaseBegins.{OnlyInspectionsStop, OutputsAreCounted, OutputsFollow, PhasesAreCounted, PhasesFollow};
ghost use Rattle.plan_walk.specs.PhaseBegins.{RowsFollow, LeftBegins, StepsAreOver, VotesDecide, VotesPass, VotesStop};
ghost use Rattle.plan_walk.specs.StepEnds.{QuietStepsPass, RunStarts, StagesAreKnown, StepsAreKnown, StepsEnd};
ghost use Rattle.plan_walk.specs.Walking.{OutputFollows, OutputIsPhase, OutputsFollowSteps, OutputsFollowVote, QuietIsPassed, RunIsOver};
ghost use Rattle.plan_walk.specs.Walking.{StageFollows, StageFollowsVote, StageIsPhase, StartIsBeforeStep, StepFollows, StepIsEntered};

/// At the start a node stands before the whole trace, and all phases are left.
pub fn run_starts()
    ensures { RunStarts }
{}

/// The steps that are left are those of the trace from the number of the present step on, and the
/// stages of a step are told by whether it is a repeat or has an empty range, and whether it inspects.
pub fn steps_are_known()
    ensures steps { StepsAreKnown }
    ensures stages { StagesAreKnown }
{}

/// A step without phases, as a DISTRIBUTE that is a repeat or a FORALL with an empty range, is never
/// refused and changes nothing, and the same phases are left behind it.
pub fn quiet_steps_pass()
    ensures { QuietStepsPass }
{}

/// A step begins with its first stage; from then on one phase of it follows another, also behind a vote
/// where the step isn't refused.
pub fn phases_begin()
    ensures steps { LeftBegins }
    ensures others { PhasesFollow }
    ensures votes { VotesPass }
{}

/// The vote of a refused step is its last phase: the run is refused there, the values stay as they were
/// before the step, and the OUTPUT arrays follow. The votes tell whether a step is refused; one that
/// doesn't inspect isn't.
pub fn vote_stops()
    ensures votes { VotesStop }
    ensures decided { VotesDecide }
    ensures others { OnlyInspectionsStop }
{}

/// Behind the last phase of a step that isn't refused a node stands before the next step.
pub fn steps_end()
    ensures { StepsEnd }
{}

/// Behind the last step the OUTPUT arrays follow, one phase each.
pub fn outputs_follow()
    ensures steps { StepsAreOver }
    ensures phases { OutputsFollow }
    ensures count { OutputsAreCounted }
{}

/// How many phases can still come, from a stage, from an array of OUTPUT and from a step on.
pub fn phases_are_counted()
    ensures { PhasesAreCounted }
{}

/// The rows of a phase, and those of the phase after it.
pub fn rows_follow()
    ensures { RowsFollow }
{}

/// Once a node has taken all letters of a phase, it has those of all nodes that send to it.
pub fn letters_come_in()
    ensures { LettersComeIn }
{}

/// Where all send to all, the letters with the node's own list put in are the lists of all nodes; on
/// node 0 they are in each phase.
pub fn own_list_is_put_in()
    ensures all { OwnListIsPutIn }
    ensures first { FirstTakesAll }
{}

/// The lengths that a receiver knows before the letter comes.
pub fn lengths_are_known()
    ensures moves { MoveAnswersAreKnown }
    ensures pages { PageCountsAreKnown }
    ensures places { PlaceAnswersAreKnown }
    ensures values { IndexValuesAreKnown }
    ensures gathers { GathersAreKnown }
    ensures scatters { ScattersAreKnown }
{}

/// What `sends` and `takes` make of the right lists and lengths is a node's row as a phase begins.
pub fn letters_are_sent()
    ensures sends { LettersAreSent }
    ensures takes { LettersAreTaken }
    ensures rows { RowsAreMade }
    ensures lists { AllListsAreSent }
    ensures prints { PrintIsSent }
    ensures lengths { AllLengthsAreCounted }
    ensures unknown { FreeIsCounted }
{}

/// From phase t to phase t + 1 of a run, between the steps: it starts before the first step; steps without
/// phases are passed over, and another is entered; behind the last step the OUTPUT arrays come.
pub fn steps_are_walked()
    ensures start { StartIsBeforeStep }
    ensures quiet { QuietIsPassed }
    ensures entered { StepIsEntered }
    ensures over { OutputsFollowSteps }
{}

/// From phase t to phase t + 1 within a step: the present stage, and what comes behind it.
pub fn stages_are_walked()
    ensures present { StageIsPhase }
    ensures next { StageFollows }
    ensures votes { StageFollowsVote }
    ensures refused { OutputsFollowVote }
    ensures last { StepFollows }
{}

/// From phase t to phase t + 1 through the OUTPUT arrays, to the end of the run.
pub fn outputs_are_walked()
    ensures present { OutputIsPhase }
    ensures next { OutputFollows }
    ensures last { RunIsOver }
{}
