/// An element that is sent or taken: its array's number from 0, the array's own element from 1, its
/// local address on the owner from 0, and the slot of its ghost, 0 on the owner itself.
#[derive(Clone, Copy, Debug, PartialEq, Eq, PartialOrd, Ord)]
pub struct Item {
    pub array: u32,
    pub element: u64,
    pub local: u64,
    pub slot: u32,
}

/// Items, seen as a list.
pub type Items = sqlite_items::Items<Item>;

/// Lists of items, as one per node.
pub type ItemLists = sqlite_items::Items<Items>;
