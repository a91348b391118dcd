ghost use Rattle.std.specs.Prelude.{◌≡◌, IfOk};

use fd_program::{Checked, HomeRule, Refused, SiteCounts, Trace};
use fd_words::Memory;
use sqlite_items::Items;
use std::alloc::Global;

/// A program, its steps, and on how many nodes it runs by which rule.
#[derive(Drop)]
pub struct Session {
    pub checked: Checked,
    pub trace: Trace,
    pub nodes: u32,
    pub rule: HomeRule,
}

/// What a node tells at its end: the refusal, if there is one, and its counts.
#[derive(Drop)]
pub struct NodeEnd {
    pub refused: Option<Refused>,
    pub counts: SiteCounts,
}

impl NodeEnd {
    /// An equal end.
    pub fn copy(&self, alloc: Global) -> Result<NodeEnd, Memory>
        ensures { IfOk result (λ end. end ≡ self.now) }
    {
        let counts = Items::from_slice(alloc, self.counts.as_slice())?;
        Ok(NodeEnd {
            refused: self.refused,
            counts,
        })
    }
}
