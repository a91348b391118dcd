use fd_words::Place;
use sqlite_items::Items;

/// An element that a reference with this stamp reaches, and where it stands.
#[derive(Clone, Copy, Debug, PartialEq, Eq)]
pub struct Entered {
    pub stamp: u32,
    pub element: u64,
    pub place: Place,
}

/// Such elements, seen as a list.
pub type EnteredList = Items<Entered>;
