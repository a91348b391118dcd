//! Laws of the definitions. The function does nothing; its contract is the laws.
ghost use Rattle.inspect_places.specs.Laws.{AnswersAreOwed, AsksAreSent, KeptAreWanted, WantedAreAsked};

/// The references whose places a node asks for in a phase are those wanted in it, by decomposition, and
/// within one by iteration and number; their asks are the letters that the node sends, and the answers
/// to them those that it is owed. Of its own iterations they are the references that no formula places.
pub fn wanted_are_asked()
    ensures wanted { WantedAreAsked }
    ensures asks { AsksAreSent }
    ensures answers { AnswersAreOwed }
    ensures kept { KeptAreWanted }
{}
