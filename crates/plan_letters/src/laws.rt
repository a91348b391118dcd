//! Laws of the definitions. Each function does nothing; its contract is the law.
ghost use Rattle.plan_letters.specs.DataLetters.{DataStandsWhere, GathersStand, GivenIsCarried, LoopsAreCarried, NeededIsCarried};
ghost use Rattle.plan_letters.specs.DataLetters.{OthersCarryNothing, ScattersStand};
ghost use Rattle.plan_letters.specs.InspectionLetters.{InspectionLettersStand, LoopsAskNothing, OthersAskNothing, PlaceLettersStand};
ghost use Rattle.plan_letters.specs.InspectionLetters.{VoteStandsWhere, VotesStand};

/// The letters of an execution that come before the loop carry what their receiver needs of their sender,
/// and those that come behind it what their sender gives to their receiver; for a number that isn't that of
/// a completed loop, nothing.
pub fn data_is_carried()
    ensures needed { NeededIsCarried }
    ensures given { GivenIsCarried }
{}

/// So for each completed FORALL whose range isn't empty.
pub fn loops_are_carried()
    ensures { LoopsAreCarried }
{}

/// Such letters name the completed FORALLs whose range isn't empty, each once and in order.
pub fn data_stands()
    ensures gathers { GathersStand }
    ensures scatters { ScattersStand }
    ensures one { DataStandsWhere }
{}

/// None stands for another number.
pub fn others_carry_nothing()
    ensures { OthersCarryNothing }
{}

/// The votes name the executed steps that inspect, the refused one too, each once and in order.
pub fn votes_stand()
    ensures votes { VotesStand }
    ensures one { VoteStandsWhere }
{}

/// Other letters of an inspection stand only where an executed step inspects; of those for places a
/// DISTRIBUTE by a map sends some too.
pub fn inspection_letters_stand()
    ensures alone { InspectionLettersStand }
    ensures places { PlaceLettersStand }
{}

/// So no letter of an inspection stands for a step that neither inspects nor is such a DISTRIBUTE, as a
/// FORALL that uses an inspection again.
pub fn others_ask_nothing()
    ensures steps { OthersAskNothing }
    ensures loops { LoopsAskNothing }
{}
