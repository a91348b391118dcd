ghost use Rattle.std.specs.Prelude.{◌≡◌, ◌≤◌, ◌^◌};
ghost use Rattle.chaos_dist.specs.declared.shape.Shape.TheVariants.{Block};

use chaos_dist::{Regular, Shape};

/// Particles that are moved: the bins 1 to `bins`, so many steps, the particles 1 to `count`, and the nodes
/// 0 to `nodes` - 1.
#[derive(Clone, Copy, Debug)]
pub struct AppendJob {
    pub bins: u64,
    pub steps: u64,
    pub count: u64,
    pub nodes: u32,
    pub ghost some_bins: { 1 ≤ bins },
    pub ghost few_bins: { bins ≤ 2 ^ 16 },
    pub ghost few_steps: { steps ≤ 1000 },
    pub ghost some_particles: { 1 ≤ count },
    pub ghost few_particles: { count ≤ 2 ^ 20 },
    pub ghost some_nodes: { 1 ≤ nodes },
    pub ghost few_nodes: { nodes ≤ 16 },
}

impl AppendJob {
    /// Which node owns which bin.
    pub fn layout(&self) -> Regular
        ensures extent { result.extent ≡ self.now.bins }
        ensures nodes { result.nodes ≡ self.now.nodes }
        ensures shape { result.shape ≡ Block }
    {
        Regular {
            extent: self.bins,
            nodes: self.nodes,
            shape: Shape::Block,
        }
    }
}
