ghost use Rattle.std.specs.Prelude.{◌≡◌, []};

use chaos_letter::LetterLists;
use fd_words::Bytes;
use std::alloc::Global;

/// What was played in a World of n nodes: the node of each turn that moved, in order, and what was
/// sent, from p to q at place `p * n + q`.
#[derive(Debug, Drop)]
pub struct Played {
    pub moved: Bytes,
    pub sent: LetterLists,
}

impl Played {
    /// Nothing was played, which takes no memory.
    pub fn new(alloc: Global) -> Played
        ensures moved { result.moved ≡ [] }
        ensures sent { result.sent ≡ [] }
    {
        Played {
            moved: Bytes::new(alloc),
            sent: LetterLists::new(alloc),
        }
    }
}
