//! Laws of printing. Each function does nothing; its contract is the law.
ghost use Rattle.chaos_print.specs.InPlan.{OutputsBegin, OutputsEnd, OutputsGoOn, PlansCanPrint, PrintsGoOn};
ghost use Rattle.chaos_print.specs.InRun.{ElementsAreOwned, LettersCameIn, LinesArePrinted, RowsAreHeld};

/// At a step of a run of a checked program each decomposition has as many owners as elements.
pub fn elements_are_owned()
    ensures { ElementsAreOwned }
{}

/// The rows that a node finds beside its elements are those that it sends in the run.
pub fn rows_are_held()
    ensures { RowsAreHeld }
{}

/// The letters that a node took in a phase are those of the nodes that send to it, in their order.
pub fn letters_came_in()
    ensures { LettersCameIn }
{}

/// From its own rows and the letters of the others node 0 writes the line of the array as it is before
/// the step, and the others write nothing.
pub fn lines_are_printed()
    ensures { LinesArePrinted }
{}

/// Behind completed steps of a plan each element has an owner, and the store has a list of each array's
/// extent: what printing builds on.
pub fn plans_can_print()
    ensures { PlansCanPrint }
{}

/// What a node's text is behind a PRINT, and behind an array of OUTPUT; before the first of those it has the
/// lines of the PRINTs and the refusal line, and behind the last it is the text of the run.
pub fn texts_go_on()
    ensures prints { PrintsGoOn }
    ensures outputs { OutputsGoOn }
    ensures begins { OutputsBegin }
    ensures ends { OutputsEnd }
{}
