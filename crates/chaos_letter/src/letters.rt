use crate::Letter;
use fd_words::{Copied, List, Memory};
use std::alloc::Global;

/// Letters, seen as a list.
pub type Letters = List<Letter>;

impl Copied for Letter {
    fn copied(&self, alloc: Global) -> Result<Letter, Memory> {
        self.copy(alloc)
    }
}
