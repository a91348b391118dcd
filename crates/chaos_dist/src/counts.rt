ghost use Rattle.std.specs.Prelude.{◌≡◌, ◌==◌, slice_index, EachIndex, count_by};

/// The most nodes that there can be.
pub const MOST_NODES: usize = 16;

/// How many of the owners each node is.
pub fn tally(owners: &[u32]) -> [u64; MOST_NODES]
    ensures { EachIndex result (λ node. slice_index result node ≡ count_by (λ o. o == node) owners.now) }
{
    let mut counts = [0; MOST_NODES];
    for owner in owners {
        let node = *owner as usize;
        if node < MOST_NODES {
            counts[node] += 1;
        }
    }
    counts
}
