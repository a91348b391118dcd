ghost use Rattle.std.specs.Prelude.{◌≡◌, ◌≤◌, ◌<◌};
ghost use Rattle.chaos_dist.specs.Homes.{most_of};

use chaos_dist::tally;
use fd_words::Place;

/// The home of an iteration by the owner rule: the owner of its first statement's target.
pub fn home_by_owner(first_target: Place) -> u32
    ensures { result ≡ first_target.owner }
{
    first_target.owner
}

/// The home of an iteration by the most rule: the node that owns most of its references, on a tie the
/// lowest. An owner that isn't one of the nodes counts for none.
pub fn home_by_most(owners: &[u32], nodes: u32) -> u32
    requires some { 1 ≤ nodes }
    requires few { nodes ≤ 16 }
    ensures home { result ≡ most_of nodes owners.now }
    ensures node { result < nodes }
{
    let counts = tally(owners);
    let mut home = 0;
    for node in 1..nodes as usize {
        if counts[home] < counts[node] {
            home = node;
        }
    }
    home as u32
}
