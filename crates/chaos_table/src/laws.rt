ghost use Rattle.chaos_table.specs.Laws.{LookTells, LookTellsNone, CountsAreOfLayout, PageIsOfLayout};

/// A page tells of its elements, and of no others, the owner and the number of smaller elements with that
/// owner. Where the pairs cover each element of the page once with its owner, its counts are those of the
/// layout; and where the counts of the pages before are too, so are its places.
pub fn page_laws()
    ensures tells { LookTells }
    ensures none { LookTellsNone }
    ensures counts { CountsAreOfLayout }
    ensures layout { PageIsOfLayout }
{}
