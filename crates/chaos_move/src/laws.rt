ghost use Rattle.chaos_move.specs.Arriving.{GathersArrive, ScattersArrive};

/// Where the items of two nodes agree, a gather brings each ghost its owner's value, and a scatter
/// assigns to each element or combines into it what the other node has to give; all else stays.
pub fn move_laws()
    ensures gather { GathersArrive }
    ensures scatter { ScattersArrive }
{}
