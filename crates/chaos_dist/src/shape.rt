/// How elements are dealt to the nodes: a block to each, one at a time in turn, or so many at a time in
/// turn.
#[derive(Clone, Copy, Debug, PartialEq, Eq)]
pub enum Shape {
    Block,
    Cyclic,
    BlockCyclic(u64),
}
