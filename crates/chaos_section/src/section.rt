use chaos_dist::Shape;
use sqlite_items::Items;

/// A reference at the index of the loop and `add`: element i + `add` of an array, by number, at
/// iteration i. It stands where element i + `add` + `offset` of its decomposition stands, which has the
/// elements 1 to `extent`, dealt by `shape`. A target is written, any other reference read.
#[derive(Clone, Copy, Debug)]
pub struct SectionReference {
    pub target: bool,
    pub array: u32,
    pub offset: i64,
    pub add: i64,
    pub extent: u64,
    pub shape: Shape,
}

/// References in the order of their numbers.
pub type SectionReferences = Items<SectionReference>;

/// Which node executes an iteration: the owner of what one reference reaches, or the lowest of those that
/// own most of all that is reached.
#[derive(Clone, Copy, Debug)]
pub enum SectionHomes {
    OwnerOf(SectionReference),
    Most,
}

/// A loop over the iterations `low` to `high` on so many nodes.
#[derive(Drop)]
pub struct SectionLoop {
    pub low: i64,
    pub high: i64,
    pub nodes: u32,
    pub homes: SectionHomes,
    pub references: SectionReferences,
}
