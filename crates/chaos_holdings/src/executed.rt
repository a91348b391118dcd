ghost use Rattle.std.specs.Prelude.{◌≡◌, ◌<◌, ◌≤◌, ◌^◌, fold, IfOk};
ghost use Rattle.std.specs.Option.{option_copied};
ghost use Rattle.fd_program.specs.Reports.{plus_count};
ghost use Rattle.fd_program.specs.Trace.{site_at};
ghost use Rattle.chaos_count.specs.Counting.{noted_reference};
ghost use Rattle.plan_run.specs.StandLaws.{counted_at};
ghost use Rattle.chaos_holdings.specs.Executions.{counted_with, is_last, turn_in, turn_by};

use chaos_count::note_writes;
use chaos_executing::counts_of;
use chaos_records::Records;
use chaos_sched::Prepared;
use fd_program::{LoopTurn, Reference, Site, SiteCount, Step};
use fd_words::{Memory, count_sum};
use std::alloc::Global;

/// Notes that an execution of a FORALL with these references changed the arrays of its targets.
fn note_targets(records: &mut Records, references: &[Reference], execution: u64)
    ensures noted { execution < 2 ^ 32 → records.new ≡ fold (noted_reference execution) records.old references.now }
    ensures late { 2 ^ 32 ≤ execution → records.new ≡ records.old }
{
    if execution < 4_294_967_296 {
        note_writes(records, references, execution);
    }
}

/// The records after an execution of a FORALL. They stay from execution 2^32 on, which no run has.
pub fn records_of_execution(
    alloc: Global,
    records: &Records,
    sites: &[Site],
    site: u32,
    execution: u64,
) -> Result<Records, Memory>
    ensures noted { IfOk result (λ after. execution < 2 ^ 32 → after ≡ fold (noted_reference execution) records.now
        (site_at sites.now site).references) }
    ensures late { IfOk result (λ after. 2 ^ 32 ≤ execution → after ≡ records.now) }
{
    let mut after = records.copy(alloc)?;
    match sites.get(site as usize) {
        Some(site) => note_targets(&mut after, site.references.as_slice(), execution),
        None => {}
    }
    Ok(after)
}

/// The turn of a step that executes a FORALL.
fn turn_of(step: &Step) -> Option<&LoopTurn>
    ensures { option_copied result ≡ turn_by step.now }
{
    match step {
        Step::Forall { site: _, turn } => Some(turn),
        Step::Distribute { .. } | Step::Print { .. } => None,
    }
}

/// The turn of the step with a number, where it executes a FORALL.
pub fn turn_at(steps: &[Step], number: u64) -> Option<&LoopTurn>
    ensures { option_copied result ≡ turn_in steps.now number }
{
    match steps.get(number as usize) {
        Some(step) => turn_of(step),
        None => None,
    }
}

/// What a FORALL has counted.
pub fn count_at(counts: &[SiteCount], site: u32) -> SiteCount
    ensures { result ≡ counted_at counts.now site }
{
    match counts.get(site as usize) {
        Some(count) => *count,
        None => SiteCount::none(),
    }
}

/// Whether this is the last of the executions that inspect.
pub fn is_latest(inspected: &[i64], execution: u64) -> bool
    ensures { result ≡ is_last inspected.now execution }
{
    match inspected.last() {
        Some(last) => i128::from(*last) == i128::from(execution),
        None => false,
    }
}

/// The counts, with one execution more, which may have inspected.
pub fn counted(before: &SiteCount, prepared: &Prepared, inspects: bool) -> Result<SiteCount, Memory>
    ensures { IfOk result (λ count. count ≡ plus_count before.now (counted_with prepared.now inspects)) }
{
    let (gathered, scattered) = counts_of(prepared)?;
    Ok(SiteCount {
        executed: count_sum(before.executed, 1)?,
        inspected: count_sum(before.inspected, u64::from(inspects))?,
        gathered: count_sum(before.gathered, gathered)?,
        scattered: count_sum(before.scattered, scattered)?,
    })
}
