//! Laws of the definitions. Each function does nothing; its contract is the law.
ghost use Rattle.chaos_records.specs.KeepingLaws.{InspectionsAreKnown, MoveKeeps, NewKeeps, PrintKeeps, RecordsAreExact, VersionsAreFew};
ghost use Rattle.chaos_records.specs.KeepingLaws.{WritesKeep};

/// What is kept are the changes, forms and versions that the steps before tell: for new records before
/// the first step, and through each step as it is noted. A repeat is found exactly where there is one,
/// and no version passes the number of steps.
pub fn notes_keep_the_past()
    ensures new { NewKeeps }
    ensures print { PrintKeeps }
    ensures writes { WritesKeep }
    ensures moves { MoveKeeps }
    ensures few { VersionsAreFew }
{}

/// The record made from what is kept is that of the execution.
pub fn records_are_exact()
    ensures { RecordsAreExact }
{}

/// An execution inspects exactly where its range isn't empty and its record isn't the one of the latest
/// execution whose range wasn't.
pub fn inspections_are_known()
    ensures { InspectionsAreKnown }
{}
