ghost use Rattle.std.specs.Prelude.{◌≤◌, ◌^◌};

/// A bisection: so many parts of so many elements, on so many nodes, along so many axes.
#[derive(Clone, Copy, Debug)]
pub struct Job {
    pub parts: u32,
    pub count: u64,
    pub nodes: u32,
    pub axes: u32,
    pub ghost some_parts: { 1 ≤ parts },
    pub ghost few_parts: { parts ≤ 64 },
    pub ghost enough: { parts ≤ count },
    pub ghost few_elements: { count ≤ 2 ^ 20 },
    pub ghost some_nodes: { 1 ≤ nodes },
    pub ghost few_nodes: { nodes ≤ 16 },
    pub ghost some_axes: { 1 ≤ axes },
    pub ghost few_axes: { axes ≤ 3 },
}
