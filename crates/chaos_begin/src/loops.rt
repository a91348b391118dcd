ghost use Rattle.std.specs.Prelude.{◌≡◌, ◌<◌, ◌≤ℤ◌, length, IfOk};
ghost use Rattle.std.specs.Option.{option_copied};
ghost use Rattle.chaos_facts.specs.Facts.{facts_in};
ghost use Rattle.chaos_records.specs.Keeping.{differs, record_in};
ghost use Rattle.chaos_begin.specs.Begins.{IsFit, IsSoundBetween, latest_in};

use crate::Between;
use chaos_facts::{facts_are_known, facts_of};
use chaos_records::{LoopRecord, must_inspect};
use fd_program::{LoopFacts, LoopTurn};
use fd_words::Memory;
use plan_run::Kept;
use std::alloc::Global;

/// The record that is kept of a FORALL.
fn latest(kept: &[Option<Kept>], site: u32) -> Option<&LoopRecord>
    ensures { option_copied result ≡ latest_in kept.now site }
{
    match kept.get(site as usize) {
        None => None,
        Some(kept) => match kept {
            None => None,
            Some(kept) => Some(&kept.latest),
        },
    }
}

impl<'a> Between<'a> {
    /// Whether an execution of a FORALL has to inspect.
    pub(crate) fn inspects(&self, alloc: Global, site: u32, turn: &LoopTurn) -> Result<bool, Memory>
        requires sound { IsSoundBetween self.now }
        requires site { site < length self.now.checked.now.sites }
        ensures { IfOk result (λ is. is ≡ differs (record_in self.now.records.now self.now.checked.now site turn.now)
            (latest_in self.now.kept.now site)) }
    {
        let now = self.records.record_of(alloc, self.checked, site, turn)?;
        Ok(must_inspect(&now, latest(self.kept, site)))
    }

    /// The facts of an execution of a FORALL.
    pub(crate) fn loop_facts(
        &self,
        alloc: Global,
        site: u32,
        turn: &LoopTurn,
    ) -> Result<LoopFacts, Memory>
        requires sound { IsSoundBetween self.now }
        requires site { site < length self.now.checked.now.sites }
        requires range { turn.now.low ≤ℤ turn.now.high }
        ensures facts { IfOk result (λ f. f ≡ facts_in self.now.checked.now self.now.nodes self.now.rule self.now.records.now site
            turn.now) }
        ensures fit { IfOk result (IsFit self.now) }
    {
        facts_are_known();
        facts_of(
            alloc,
            self.checked,
            self.nodes,
            self.rule,
            self.records,
            site,
            turn,
        )
    }
}
