use fd_words::Place;
use sqlite_items::Items;

/// An entry: where its element stands, its stamps and its slot. Stamp `s` is bit `s` of the mask.
#[derive(Clone, Copy, Debug, PartialEq, Eq)]
pub struct Held {
    pub place: Place,
    pub mask: u128,
    pub slot: u32,
}

/// Elements with their entries, seen as a list.
pub type HeldList = Items<(u64, Held)>;
