//! Laws of the definitions. Each function does nothing; its contract is the law.
ghost use Rattle.fd_program.specs.{CellsLaws.CellsAreInOrder, CombinedLaws.CombiningSplits};
ghost use Rattle.fd_program.specs.{ContributionLaws.ContributionsMakeElements, HomeLaws.HomesAreOnce, HomeLaws.InspectedInOrder};
ghost use Rattle.fd_program.specs.{LoopCases.LoopHasThreeCases, LoopLaws.WritesChangeElements, OffenceLaws.OffenceIsLeast};
ghost use Rattle.fd_program.specs.{RecordLaws.RecordDetermines, RunLaws.RunHasHistory, SameLoops.SameLoopsDoTheSame};
ghost use Rattle.fd_program.specs.{StoreLaws.InitialStoreFits, StoreLaws.RunKeepsLengths, SubscriptLaws.SubscriptsAreExact};
ghost use Rattle.fd_program.specs.{UsesLaws.UsesAreTold, VoteLaws.ExecutedInOrder, VoteLaws.VotesTell};

/// Each subscript is the exact number that its form says; through an index array it has one where the index
/// reference directly before it reads an element.
pub fn subscripts_are_exact()
    ensures { SubscriptsAreExact }
{}

/// The references of an iteration depend on the store only through what its index references give.
pub fn uses_are_told()
    ensures { UsesAreTold }
{}

/// The offence of a loop is that of the least iteration, and there of the least reference.
pub fn offence_is_least()
    ensures { OffenceIsLeast }
{}

/// What writes leave at an element: the old value, changed by those that reach it.
pub fn writes_change_elements()
    ensures { WritesChangeElements }
{}

/// What a loop without an offence leaves at an element: the value of the one iteration that assigns it, the
/// old value combined with all that reduce into it, or the old value.
pub fn loop_has_three_cases()
    ensures { LoopHasThreeCases }
{}

/// Values may be combined on each node first, and the nodes taken in any order.
pub fn combining_splits()
    ensures { CombiningSplits }
{}

/// The store before the run has each array's list, of its extent.
pub fn initial_store_fits()
    ensures { InitialStoreFits }
{}

/// Through a run each array keeps the length of its list.
pub fn run_keeps_lengths()
    ensures { RunKeepsLengths }
{}

/// Elements in order ascend, each once, and no other list that ascends has the same.
pub fn cells_are_in_order()
    ensures { CellsAreInOrder }
{}

/// The provisional homes deal out a range in order.
pub fn inspected_in_order()
    ensures { InspectedInOrder }
{}

/// The first offence that a node finds, in the order of the nodes, is that of the loop.
pub fn votes_tell()
    ensures { VotesTell }
{}

/// The iterations of a home, from each node those that it inspects, are the home's in order.
pub fn executed_in_order()
    ensures { ExecutedInOrder }
{}

/// Each iteration has one home among the nodes.
pub fn homes_are_once()
    ensures { HomesAreOnce }
{}

/// After a loop without an offence an element is the old one with what each node's own iterations contribute
/// to it, in any order of the nodes.
pub fn contributions_make_elements()
    ensures { ContributionsMakeElements }
{}

/// Executions of a loop with one range, the same numbers in subscripts, the same index arrays and the same
/// owners have the same subscripts, offence, homes, needed and given elements.
pub fn same_loops_do_the_same()
    ensures { SameLoopsDoTheSame }
{}

/// The stores of a run are those that its completed steps leave, one after another.
pub fn run_has_history()
    ensures { RunHasHistory }
{}

/// Two executions of a loop in one run with equal records have the same subscripts, offence, homes, needed
/// and given elements.
pub fn record_determines()
    ensures { RecordDetermines }
{}
