use fd_words::{Place, Role};

/// An element of another node that an iteration reaches: what is done with it, its array's number from
/// 0, the array's own element from 1, where it stands, and the slot of its ghost.
#[derive(Clone, Copy, Debug, PartialEq, Eq)]
pub struct Need {
    pub role: Role,
    pub array: u32,
    pub element: u64,
    pub place: Place,
    pub slot: u32,
}

/// Needs, seen as a list.
pub type Needs = sqlite_items::Items<Need>;
