use crate::Names;
use fd_program::{ArrayList, LayoutNames, OutputNames};
use fd_words::{Name, Numbers};
use sqlite_items::Items;

/// Where an array is aligned to: the number of a named decomposition, and an offset, as far as they have
/// no fault.
#[derive(Clone, Copy, Debug, PartialEq, Eq)]
pub struct Alignment {
    pub decomposition: Option<u32>,
    pub offset: Option<i64>,
}

/// An array, as far as it is declared.
#[derive(Clone, Copy, Debug, PartialEq, Eq)]
pub struct ArrayEntry {
    pub name: Name,
    pub extent: Option<u64>,
    pub aligned: Option<Alignment>,
}

/// A named decomposition.
#[derive(Clone, Copy, Debug, PartialEq, Eq)]
pub struct LayoutEntry {
    pub name: Name,
    pub extent: Option<u64>,
}

/// What is declared so far.
#[derive(Drop)]
pub struct Scope {
    pub names: Names,
    pub arrays: ArrayEntries,
    pub layouts: LayoutEntries,
    pub reads: Numbers,
    pub outputs: OutputNames,
}

/// The arrays and the decompositions, which have their numbers once the head is known.
#[derive(Drop)]
pub struct Tables {
    pub arrays: ArrayList,
    pub layouts: LayoutNames,
}

/// The arrays by number, from 0.
pub type ArrayEntries = Items<ArrayEntry>;

/// The named decompositions by number, from 0.
pub type LayoutEntries = Items<LayoutEntry>;
