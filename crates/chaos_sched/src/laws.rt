ghost use Rattle.chaos_sched.specs.Agreement.{SidesAgree, ListsAscend};

/// The two sides of a schedule agree, where each node took what the other asks of it; and each list
/// ascends by array and element, with each element once.
pub fn schedule_laws()
    ensures sides { SidesAgree }
    ensures order { ListsAscend }
{}
