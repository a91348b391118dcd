ghost use Rattle.std.specs.Prelude.{◌≡◌, ℕ, ◌+◌, ◌*◌, ◌/◌, ◌%◌, ◌^◌, ◌≤◌, ◌<◌};
ghost use Rattle.chaos_dist.specs.Layout.{owner_of, local_of, length_of, element_of, given_size, width_of, StaysBelow};

use crate::Shape;

/// A regular distribution of the elements 1 to `extent` over the nodes 0 to `nodes` - 1.
#[derive(Clone, Copy, Debug)]
pub struct Regular {
    pub extent: u64,
    pub nodes: u32,
    pub shape: Shape,
    pub ghost some_elements: { 1 ≤ extent },
    pub ghost some_nodes: { 1 ≤ nodes },
    pub ghost few_nodes: { nodes ≤ 16 },
    pub ghost some_size: { 1 ≤ given_size shape },
}

impl Regular {
    /// The node that has element `g`.
    pub fn owner(self, g: u64) -> u32
        requires from_one { 1 ≤ g }
        requires within { g ≤ self.extent }
        ensures owner { result ≡ owner_of self.shape self.extent self.nodes g }
        ensures node { result < self.nodes }
    {
        ((g - 1) / self.width() % u64::from(self.nodes)) as u32
    }

    /// The local address of element `g` on its node.
    pub fn local(self, g: u64) -> u64
        requires from_one { 1 ≤ g }
        requires within { g ≤ self.extent }
        ensures local { result ≡ local_of self.shape self.extent self.nodes g }
        ensures place { result < length_of self.shape self.extent self.nodes (owner_of self.shape self.extent self.nodes g) }
    {
        let width = self.width();
        (g - 1) / width / u64::from(self.nodes) * width + (g - 1) % width
    }

    /// The number of elements on a node.
    pub fn length_on(self, node: u32) -> u64
        requires { node < self.nodes }
        ensures length { result ≡ length_of self.shape self.extent self.nodes node }
        ensures most { result ≤ self.extent }
    {
        let width = self.width();
        let nodes = u64::from(self.nodes);
        let node = u64::from(node);
        let rounds = self.extent / width / nodes;
        let last = self.extent / width % nodes;
        let rest = if node < last {
            width
        } else if node == last {
            self.extent % width
        } else {
            0
        };
        rounds * width + rest
    }

    /// The element at a local address of a node.
    pub fn global_of(self, node: u32, local: u64) -> u64
        requires node { node < self.nodes }
        requires place { local < length_of self.shape self.extent self.nodes node }
        ensures from_one { 1 ≤ result }
        ensures within { result ≤ self.extent }
        ensures owner { owner_of self.shape self.extent self.nodes result ≡ node }
        ensures local { local_of self.shape self.extent self.nodes result ≡ local }
        ensures element { result ≡ element_of self.shape self.extent self.nodes node local }
        ensures only { (g : ℕ) → 1 ≤ g → g ≤ self.extent → owner_of self.shape self.extent self.nodes g ≡ node
            → local_of self.shape self.extent self.nodes g ≡ local → g ≡ result }
    {
        let width = self.width();
        let nodes = u64::from(self.nodes);
        let at = u64::from(node);
        self.stays_below(at, local, width, nodes);
        (local / width * nodes + at) * width + local % width + 1
    }

    /// What is computed on the way to an element's number fits.
    fn stays_below(self, node: u64, local: u64, width: u64, nodes: u64)
        requires node { node < self.nodes }
        requires place { local < length_of self.shape self.extent self.nodes node }
        requires width { width ≡ width_of self.shape self.extent self.nodes }
        requires nodes { nodes ≡ self.nodes }
        ensures { StaysBelow width nodes node local (2 ^ 64) }
    {}

    /// How many elements a node is dealt at a time.
    fn width(self) -> u64
        ensures { result ≡ width_of self.shape self.extent self.nodes }
    {
        match self.shape {
            Shape::Block => (self.extent - 1) / u64::from(self.nodes) + 1,
            Shape::Cyclic => 1,
            Shape::BlockCyclic(size) => size,
        }
    }
}

/// Elements and places belong to one another: an element is the one at its place, and at a place of a
/// node stands an element whose place it is.
pub fn layout_laws(layout: Regular)
    ensures elements { (g : ℕ) → 1 ≤ g → g ≤ layout.extent
        → element_of layout.shape layout.extent layout.nodes (owner_of layout.shape layout.extent layout.nodes g)
        (local_of layout.shape layout.extent layout.nodes g) ≡ g }
    ensures owners { (node local : ℕ) → node < layout.nodes → local < length_of layout.shape layout.extent layout.nodes node
        → owner_of layout.shape layout.extent layout.nodes (element_of layout.shape layout.extent layout.nodes node local) ≡ node }
    ensures locals { (node local : ℕ) → node < layout.nodes → local < length_of layout.shape layout.extent layout.nodes node
        → local_of layout.shape layout.extent layout.nodes (element_of layout.shape layout.extent layout.nodes node local) ≡ local }
{}
