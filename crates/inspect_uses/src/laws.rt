ghost use Rattle.inspect_uses.specs.PlaceLaws.{FormulaTells, EachIsOwned};
ghost use Rattle.inspect_uses.specs.KnownLaws.{FirstsAreBehind, FirstsAreReached, KnownAreReached};
ghost use Rattle.inspect_uses.specs.ReachedLaws.{UsesAreReached, ValuesAreBehind};

/// With the values that an iteration's index references give first among the values, what is evaluated
/// are the loop's references, and behind as many as give a value stand the others.
pub fn reached_laws()
    ensures uses { UsesAreReached }
    ensures behind { ValuesAreBehind }
{}

/// With the values alone that index references with a plain subscript give, all index references that are
/// evaluated are the loop's, and behind as many as they give stand the other values. Those with a plain
/// subscript are the loop's whatever values are told.
pub fn known_laws()
    ensures known { KnownAreReached }
    ensures behind { FirstsAreBehind }
    ensures firsts { FirstsAreReached }
{}

/// Where a formula tells the place of a reference's element, it is that under the whole layout, and each
/// such element has one of the nodes.
pub fn place_laws()
    ensures formula { FormulaTells }
    ensures owned { EachIsOwned }
{}
