//! Laws of the definitions. The function does nothing; its contract is the laws.
ghost use Rattle.chaos_moving.specs.InRun.{LettersAreOfRun, OwnersAreByForm, OwnersAreNodes, SharesAreHeld};

/// In a run, what a node sends and takes in a move are the numbers of the run's letters; the new owners
/// are those by the form; each owner is a node; and what a node holds between the steps are its shares.
pub fn moves_are_of_run()
    ensures letters { LettersAreOfRun }
    ensures owners { OwnersAreByForm }
    ensures nodes { OwnersAreNodes }
    ensures held { SharesAreHeld }
{}
