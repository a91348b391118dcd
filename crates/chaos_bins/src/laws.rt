//! Laws of the definitions. Each function does nothing; its contract is the law.
ghost use Rattle.chaos_bins.specs.Appended.{PlanIsAppended};
ghost use Rattle.chaos_bins.specs.Ascending.{OneOrderOfKeys, OneOrderOfValues, PairsAreSorted, SortedAscends, SortedIsOnly, SortedIsSame};
ghost use Rattle.chaos_bins.specs.Ascending.{SortedPairsAreOnly};
ghost use Rattle.chaos_bins.specs.Bags.{DealtIsSame};
ghost use Rattle.chaos_bins.specs.Lines.{LinesAreShown};
ghost use Rattle.chaos_bins.specs.Moving.{ComeIsHeld, RowsAreMoving};
ghost use Rattle.chaos_bins.specs.StepLaws.{StepsLead, StepsStayWithin};

/// Single steps from one of the bins lead to the final bin, which is one of the bins.
pub fn steps_lead()
    ensures lead { StepsLead }
    ensures within { StepsStayWithin }
{}

/// Particles dealt out to nodes are the same particles.
pub fn dealt_is_same()
    ensures { DealtIsSame }
{}

/// What goes from node to node in a round is, as a bag, the particles that the first has before the round
/// and whose bin of that round the second owns.
pub fn rows_are_moving()
    ensures { RowsAreMoving }
{}

/// A bag has one ascending order.
pub fn one_order()
    ensures values { OneOrderOfValues }
    ensures keys { OneOrderOfKeys }
{}

/// The sorted values of a list are the same bag in its one ascending order.
pub fn sorted_values()
    ensures same { SortedIsSame }
    ensures ascend { SortedAscends }
    ensures only { SortedIsOnly }
{}

/// What a node has behind a round is, as a bag, the particles whose bin of that round it owns.
pub fn come_is_held()
    ensures { ComeIsHeld }
{}

/// Pairs of bin and value have one ascending order too.
pub fn sorted_pairs()
    ensures sorted { PairsAreSorted }
    ensures only { SortedPairsAreOnly }
{}

/// The lines are those that any ascending list of all particles shows.
pub fn lines_are_shown()
    ensures { LinesAreShown }
{}

/// In a plan each node tells another in each round how many particles follow, and then these: as a bag, the
/// particles that it has before the round and whose bin of that round the other owns.
pub fn appended()
    ensures { PlanIsAppended }
{}
