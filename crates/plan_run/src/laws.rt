//! Laws of the definitions. Each function does nothing; its contract is the law.
ghost use Rattle.plan_run.specs.CutLaws.{RefusedEndsAtVote, RunIsCompleted};
ghost use Rattle.plan_run.specs.DueLaws.{RowsHaveDueLists, RowsHaveMoves};
ghost use Rattle.plan_run.specs.EndLaws.{LastIsReached, RunIsWhole};
ghost use Rattle.plan_run.specs.InspectionLaws.{InspectionBegins, InspectionEnds};
ghost use Rattle.plan_run.specs.KeptLaws.{InspectedIsKept, OtherLoopsStay, QuietKeepsLoops, ReusedIsKept};
ghost use Rattle.plan_run.specs.LeftLaws.{LeftIsSmall};
ghost use Rattle.plan_run.specs.MeasureLaws.{LettersAreMeasured};
ghost use Rattle.plan_run.specs.OwnerLaws.{ForallKeepsOwners, MoveChangesOne, QuietKeepsOwners, QuietKeepsStore};
ghost use Rattle.plan_run.specs.PreparedLaws.{OthersStayPrepared};
ghost use Rattle.plan_run.specs.RefusalLaws.{RefusedInspects};
ghost use Rattle.plan_run.specs.RowLaws.{RowsFall, RowsMeet};
ghost use Rattle.plan_run.specs.StandLaws.{LoopStands, MoveStands, QuietStands};
ghost use Rattle.plan_run.specs.StepLaws.{PrintKeepsLoops, PrintLeavesStore, PrintStands, StartStands};
ghost use Rattle.plan_run.specs.TableLaws.{MoveKeepsLoops, StampsKeepInspections, TablesKeepLoops};
ghost use Rattle.plan_run.specs.WithinLaws.{LoopEnds, RefusalStops, StepBegins, StepGoesOn};

use plan_tables::stamp_laws;

/// As a phase begins, each node sends to another exactly what that one takes.
pub fn rows_meet()
    ensures { RowsMeet }
{}

/// The phases left fall from phase to phase.
pub fn rows_fall()
    ensures { RowsFall }
{}

/// The letters of all phases, from one node to another, are those that are due.
pub fn rows_have_due_lists()
    ensures { RowsHaveDueLists }
{}

/// The actions of all phases are as many as the definition says.
pub fn rows_have_moves()
    ensures { RowsHaveMoves }
{}

/// A run that isn't refused executes and completes the whole trace.
pub fn run_is_whole()
    ensures { RunIsWhole }
{}

/// Where the run has come to its end, the last store is the present one.
pub fn last_is_reached()
    ensures { LastIsReached }
{}

/// The letters of a program within its limits come in whole groups, and none is longer than what is taken.
pub fn letters_are_measured()
    ensures { LettersAreMeasured }
{}

/// A run has fewer than 2^31 phases.
pub fn left_is_small()
    ensures { LeftIsSmall }
{}

/// At the start a node has its local parts and nothing else.
pub fn start_stands()
    ensures { StartStands }
{}

/// A PRINT leaves the store as it is.
pub fn print_leaves_store()
    ensures { PrintLeavesStore }
{}

/// Over a PRINT a node holds what it held.
pub fn print_stands()
    ensures { PrintStands }
{}

/// Over a PRINT what is kept of the loops stays right.
pub fn print_keeps_loops()
    ensures { PrintKeepsLoops }
{}

/// After completed steps a FORALL that is refused inspects, so its vote is one of its phases.
pub fn refused_inspects()
    ensures { RefusedInspects }
{}

/// A DISTRIBUTE that is a repeat, a PRINT and a FORALL with an empty range leave the store and the
/// owners as they are, and any FORALL leaves the owners.
pub fn owners_stay()
    ensures store { QuietKeepsStore }
    ensures owners { QuietKeepsOwners }
    ensures in_loops { ForallKeepsOwners }
{}

/// A DISTRIBUTE changes only the owners in its own decomposition, to those by the new form.
pub fn move_changes_one()
    ensures { MoveChangesOne }
{}

/// What a node holds over the end of a step. Over one that changes nothing it holds what it held; after
/// an execution of a FORALL it holds the parts of the store after the loop, its changes noted and the
/// execution counted; after a DISTRIBUTE that isn't a repeat what the new owners tell.
pub fn steps_stand()
    ensures quiet { QuietStands }
    ensures loops { LoopStands }
    ensures moves { MoveStands }
{}

/// What is kept of each FORALL over a step: all of it where nothing changes, and of each other than the
/// executed one; of the executed one its record, and its inspection, made now or kept: what was kept fits
/// an execution that doesn't inspect.
pub fn steps_keep_loops()
    ensures quiet { QuietKeepsLoops }
    ensures others { OtherLoopsStay }
    ensures inspected { InspectedIsKept }
    ensures reused { ReusedIsKept }
{}

/// What is kept of a FORALL where tables change: all of it where inspections of it stay right, as they do
/// where its stamps stay, and over a DISTRIBUTE that isn't a repeat its record, with its inspection unless
/// it has references in that decomposition.
pub fn tables_keep_loops()
    ensures stamps { StampsKeepInspections }
    ensures tables { TablesKeepLoops }
    ensures moves { MoveKeepsLoops }
{}

/// From one phase of a step to the next only what is in hand and the list for the node itself are new;
/// after an execution of a FORALL all FORALLs keep what they are to keep between steps, and a step that
/// inspects nothing begins with that; behind the vote of a refused FORALL nothing is kept of it.
pub fn steps_go_on()
    ensures within { StepGoesOn }
    ensures ends { LoopEnds }
    ensures begins { StepBegins }
    ensures refusals { RefusalStops }
{}

/// The phases of a refused run end with the vote of the refused step and the OUTPUT arrays, and no step
/// before that one was refused.
pub fn refused_run_ends()
    ensures phases { RefusedEndsAtVote }
    ensures steps { RunIsCompleted }
{}

/// As an inspection begins, nothing is kept of its FORALL; once it is over, its record and the inspection
/// are; of each other FORALL what was kept stays right, where the tables changed for this one alone.
pub fn inspections_go_on()
    ensures begins { InspectionBegins }
    ensures ends { InspectionEnds }
{}

/// Where the tables changed for one FORALL alone, inspections of all others stay right.
pub fn others_stay_prepared()
    ensures { OthersStayPrepared }
{
    stamp_laws()
}
