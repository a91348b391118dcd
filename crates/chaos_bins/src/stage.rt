/// Where a node is in a run: it waits for how many particles come in a round, then for these; after the
/// last round node 0 waits for all particles, and then all is done.
#[derive(Clone, Copy, Debug, PartialEq, Eq)]
pub enum Stage {
    Sizing(u64),
    Appending(u64),
    Printing,
    Ended,
}
