ghost use Rattle.chaos_deref.specs.Laws.{AskingGivesPlaces, AskingGivesLayout};

/// The asks split, answered by each page and joined give the place of each wanted element on its page, in
/// the order of asking. Where the pairs of every page cover it once and the counts are those of the pages,
/// they give its place under the whole layout.
pub fn asking_laws()
    ensures places { AskingGivesPlaces }
    ensures layout { AskingGivesLayout }
{}
