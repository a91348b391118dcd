use fd_program::Use;
use fd_words::Place;
use sqlite_items::Items;

/// A reference at an iteration, and where the element stands that it reaches.
#[derive(Clone, Copy, Debug, PartialEq, Eq)]
pub(crate) struct Placed {
    pub(crate) used: Use,
    pub(crate) place: Place,
}

pub(crate) type PlacedList = Items<Placed>;
