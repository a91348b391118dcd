ghost use Rattle.std.specs.Prelude.{◌≡◌, ◌≤◌, ◌<◌, ◌≤ℤ◌};
ghost use Rattle.chaos_dist.specs.Homes.{provisional_of};

/// The node that inspects iteration `i`: the range `low` to `high` is given to the nodes in blocks.
pub fn provisional_home(low: i64, high: i64, nodes: u32, i: i64) -> u32
    requires some { 1 ≤ nodes }
    requires few { nodes ≤ 16 }
    requires from { low ≤ℤ i }
    requires to { i ≤ℤ high }
    ensures home { result ≡ provisional_of low high nodes i }
    ensures node { result < nodes }
{
    let before = u128::from(i.abs_diff(low));
    let last = u128::from(high.abs_diff(low));
    let width = last / u128::from(nodes) + 1;
    (before / width) as u32
}
