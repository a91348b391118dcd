//! Laws of rounds. Each function does nothing; its contract is the law.
ghost use Rattle.bsp_desk.specs.Laws.{RoundsMeet, OverMeets, RoundsComeIn, UniformMeets, UniformFall, UniformLetters};

/// In a round each node sends to another exactly what that one takes.
pub fn rounds_meet()
    ensures { RoundsMeet }
{}

/// Where no phase is left, nothing is sent or taken.
pub fn over_meets()
    ensures { OverMeets }
{}

/// What a node has taken when it works are the letters of the round, in the order of their senders.
pub fn rounds_come_in()
    ensures { RoundsComeIn }
{}

/// The rows of a plan of rounds meet, the phases left fall, and at the end each pair's letters are those of
/// the rounds, in their order.
pub fn uniform_laws()
    ensures meet { UniformMeets }
    ensures fall { UniformFall }
    ensures letters { UniformLetters }
{}
