use sqlite_items::Items;

/// Where a reference finds its value on this node: at a local address of the array's own part, or in a
/// slot of its ghosts.
#[derive(Clone, Copy, Debug, PartialEq, Eq)]
pub enum LocalRef {
    Here(u64),
    Ghost(u32),
}

/// Such references, seen as a list.
pub type LocalRefs = Items<LocalRef>;
