ghost use Rattle.chaos_remap.specs.Composition.{ArraysStay};

/// Planned, packed and placed on all nodes, arrays stay what they were: each node has the new layout's
/// elements and their values, for any two lists of owners.
pub fn remap_laws()
    ensures { ArraysStay }
{}
