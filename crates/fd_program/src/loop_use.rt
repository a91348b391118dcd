use fd_words::Role;
use sqlite_items::Items;

/// A reference, by its number from 1, at one iteration. Where it isn't `defined`, as its index reference
/// has no element to give, its subscript is 0.
#[derive(Clone, Copy, Debug, PartialEq, Eq)]
pub struct Use {
    pub iteration: i64,
    pub number: u32,
    pub role: Role,
    pub array: u32,
    pub stamp: u32,
    /// Its subscript is the index and a number.
    pub plain: bool,
    pub defined: bool,
    pub subscript: i128,
}

/// The uses of an iteration, or of several, in order.
pub type Uses = Items<Use>;
