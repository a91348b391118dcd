use fd_words::{Name, SourcePlace};
use sqlite_items::Items;

/// Where a statement stands: its place, and the variables of the DOs around it, the outermost first.
#[derive(Drop)]
pub struct Around {
    pub here: SourcePlace,
    pub variables: Items<Name>,
}
