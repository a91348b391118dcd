/// What a turn did: it moved its node, its node waits for a letter that isn't there, or its node is done.
#[derive(Clone, Copy, Debug, PartialEq, Eq)]
pub enum Turned {
    Moved,
    NotReady,
    Done,
}
