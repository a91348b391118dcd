ghost use Rattle.plan_tables.specs.Laws.{GoesOnFitting, StaysEntered};

/// While other loops with stamps of their own are prepared, an inspection goes on fitting, and the entries
/// with the loop's stamps stay.
pub fn stamp_laws()
    ensures fits { GoesOnFitting }
    ensures entered { StaysEntered }
{}
