use fd_words::{Name, SourcePlace};
use sqlite_items::Items;

/// An array: elements 1 to `extent`. Element g stands where element g + `offset` of its decomposition,
/// by number, stands.
#[derive(Clone, Copy, Debug, PartialEq, Eq)]
pub struct ArrayFacts {
    pub name: Name,
    pub extent: u64,
    pub decomposition: u32,
    pub offset: i64,
}

/// A decomposition: elements 1 to `extent`.
#[derive(Clone, Copy, Debug, PartialEq, Eq)]
pub struct LayoutName {
    pub name: Name,
    pub extent: u64,
}

/// An array that is written after the run, and the place of its name in OUTPUT.
#[derive(Clone, Copy, Debug, PartialEq, Eq)]
pub struct OutputName {
    pub array: u32,
    pub at: SourcePlace,
}

/// The arrays of a program by number, from 0.
pub type ArrayList = Items<ArrayFacts>;

/// The decompositions of a program by number, from 0: the named ones in order, then the own one of each
/// array that isn't aligned, in the order of the arrays.
pub type LayoutNames = Items<LayoutName>;

/// The arrays that are written after the run, in order.
pub type OutputNames = Items<OutputName>;
