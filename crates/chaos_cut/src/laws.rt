//! Laws of the definitions. Each function does nothing; its contract is the law.
ghost use Rattle.chaos_cut.specs.Cover.{RegionsAreConsecutive, RegionsCover};
ghost use Rattle.chaos_cut.specs.Depth.{DepthIsFree, HalvesHaveParts, LevelsAreEnough, LevelsAreLeast, OnePartIsFirst};
ghost use Rattle.chaos_cut.specs.KeyLaws.{NoKeyTwice, OrderIsKeys};
ghost use Rattle.chaos_cut.specs.Regions.{HalvesHaveSizes, KeysCut, RegionsAreSound};
ghost use Rattle.chaos_cut.specs.Search.{FirstAreAsMany, FoundDivides};
ghost use Rattle.chaos_cut.specs.Shares.{PartsHaveShares};
ghost use Rattle.chaos_cut.specs.Sizes.{CutsAreFair, FirstHalfShares, SecondHalfShares};
ghost use Rattle.chaos_cut.specs.Told.{CountsAddUp, GreatestIsTold, LeastIsTold};

/// The part of an element is that of recursive bisection: with one part the region's first, else the part
/// that its half gives it. Of up to 64 parts no more than the levels are cut.
pub fn parts_are_bisected()
    ensures one { OnePartIsFirst }
    ensures halves { HalvesHaveParts }
    ensures depth { DepthIsFree }
    ensures enough { LevelsAreEnough }
    ensures least { LevelsAreLeast }
{}

/// The order by coordinate and number is the order of keys, and no two elements have a key in common.
pub fn keys_order()
    ensures order { OrderIsKeys }
    ensures once { NoKeyTwice }
{}

/// The number that is found bit by bit divides items by their keys into as many as are wanted and the
/// others; so the key found after 84 bits cuts a region.
pub fn found_keys_cut()
    ensures divides { FoundDivides }
    ensures as_many { FirstAreAsMany }
    ensures regions { KeysCut }
{}

/// What a node has and what the others tell it make the count, the least and the greatest of all.
pub fn told_is_whole()
    ensures counts { CountsAddUp }
    ensures least { LeastIsTold }
    ensures greatest { GreatestIsTold }
{}

/// A cut leaves no part without an element, and each part the share that it has of the whole.
pub fn halves_have_sizes()
    ensures fair { CutsAreFair }
    ensures first { FirstHalfShares }
    ensures second { SecondHalfShares }
    ensures lengths { HalvesHaveSizes }
{}

/// The regions of each level have each element once and in order, and all parts, one after another.
pub fn regions_are_whole()
    ensures sound { RegionsAreSound }
    ensures cover { RegionsCover }
    ensures consecutive { RegionsAreConsecutive }
{}

/// Each part of the map has `count / parts` elements, and the first `count % parts` one more.
pub fn parts_have_shares()
    ensures { PartsHaveShares }
{}
