/// An element that an iteration assigns: the number of the reference, from 1, the array's own element, from 1,
/// the iteration, and the node that owns the element.
#[derive(Clone, Copy, Debug, PartialEq, Eq)]
pub struct Claim {
    pub reference: u32,
    pub element: u64,
    pub iteration: i64,
    pub owner: u32,
}

/// Claims, seen as a list.
pub type Claims = sqlite_items::Items<Claim>;
