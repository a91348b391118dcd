ghost use Rattle.std.specs.Prelude.{◌≡◌, ◌<◌, ◌≤◌, ◌^◌, if◌then◌else◌, length, IfOk, OnOk};
ghost use Rattle.fd_program.specs.Checks.{IsChecked};
ghost use Rattle.fd_program.specs.Trace.{site_at};
ghost use Rattle.chaos_records.specs.Keeping.{is_repeated, record_in};
ghost use Rattle.chaos_count.specs.Counting.{known_after, known_after_forall, known_after_loop, known_after_move, forall_count, loop_count};
ghost use Rattle.chaos_count.specs.Counting.{moving_count, nothing_known, stage_count};

use crate::asking::inspection_phases;
use crate::noting::{Latest, is_new, keep, moving_phases, none_latest, note_move, note_writes};
use chaos_dist::StepForm;
use chaos_records::Records;
use fd_program::{Checked, HomeRule, LoopRecord, LoopTurn, Site, Step};
use fd_words::Memory;
use std::alloc::Global;

/// What the steps before a step tell: changes, forms and versions, and of each FORALL the record of its
/// latest execution with a range that isn't empty.
#[derive(Drop)]
pub(crate) struct Known {
    pub records: Records,
    pub latest: Latest,
}

impl Known {
    /// Before the first step.
    pub(crate) fn new(alloc: Global, checked: &Checked) -> Result<Known, Memory>
        requires { IsChecked checked.now }
        ensures { IfOk result (λ known. known ≡ nothing_known checked.now) }
    {
        let arrays = checked.arrays.len() as u32;
        let layouts = checked.layouts.len() as u32;
        Ok(Known {
            records: Records::new(alloc, arrays, layouts)?,
            latest: none_latest(alloc, checked.sites.len())?,
        })
    }

    /// How many phases a step has, and the step is noted as the execution with this number.
    pub(crate) fn take(
        &mut self,
        alloc: Global,
        checked: &Checked,
        rule: HomeRule,
        step: &Step,
        execution: u64,
    ) -> Result<u64, Memory>
        requires checked { IsChecked checked.now }
        requires execution { execution < 2 ^ 32 }
        ensures count { IfOk result (λ n. n ≡ stage_count self.old checked.now rule step.now) }
        ensures few { IfOk result (λ n. n ≤ 17) }
        ensures known { OnOk result (self.new ≡ known_after execution self.old checked.now step.now) }
    {
        match step {
            Step::Distribute {
                decomposition,
                form,
            } => Ok(self.take_move(*decomposition, *form)),
            Step::Print { array: _ } => Ok(1),
            Step::Forall { site, turn } => {
                self.take_forall(alloc, checked, rule, *site, turn, execution)
            }
        }
    }

    fn take_move(&mut self, decomposition: u32, form: StepForm) -> u64
        ensures count { result ≡ (if is_repeated self.old.records decomposition form then 0 else moving_count form) }
        ensures few { result ≤ 5 }
        ensures known { self.new ≡ known_after_move self.old decomposition form }
    {
        let is_repeat = self.records.is_repeat(decomposition, form);
        note_move(&mut self.records, decomposition, form);
        if is_repeat { 0 } else { moving_phases(form) }
    }

    fn take_forall(
        &mut self,
        alloc: Global,
        checked: &Checked,
        rule: HomeRule,
        site: u32,
        turn: &LoopTurn,
        execution: u64,
    ) -> Result<u64, Memory>
        requires checked { IsChecked checked.now }
        requires execution { execution < 2 ^ 32 }
        ensures count { IfOk result (λ n. n ≡ forall_count self.old checked.now rule site turn.now) }
        ensures few { IfOk result (λ n. n ≤ 17) }
        ensures known { OnOk result (self.new ≡ known_after_forall execution self.old checked.now site turn.now) }
    {
        if turn.high < turn.low || site as usize >= checked.sites.len() {
            return Ok(0);
        }
        let record = self.records.record_of(alloc, checked, site, turn)?;
        let count = self.loop_phases(checked, rule, site, &record);
        let references = &checked.sites.as_slice()[site as usize].references;
        note_writes(&mut self.records, references.as_slice(), execution);
        keep(&mut self.latest, site, record);
        Ok(count)
    }

    /// The phases of an execution of a FORALL with this record.
    fn loop_phases(&self, checked: &Checked, rule: HomeRule, site: u32, present: &LoopRecord) -> u64
        requires { site < length checked.now.sites }
        ensures count { result ≡ loop_count self.now checked.now rule site present.now }
        ensures few { result ≤ 17 }
    {
        if is_new(self.latest.as_slice(), site, present) {
            let arrays = checked.arrays.as_slice();
            let it = &checked.sites.as_slice()[site as usize];
            inspection_phases(&self.records, arrays, rule, it) + 2
        } else {
            2
        }
    }
}
