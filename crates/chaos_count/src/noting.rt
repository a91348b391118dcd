ghost use Rattle.std.specs.Prelude.{◌≡◌, ◌<◌, ◌≤◌, ◌^◌, fold, replicate, slice_set, if◌then◌else◌, Some, None, IfOk};
ghost use Rattle.fd_words.specs.Roles.{is_target as is_target_of};
ghost use Rattle.chaos_records.specs.Keeping.{differs, written_at};
ghost use Rattle.chaos_count.specs.Counting.{latest_at, moved_in, moving_count, noted_reference};

use chaos_dist::StepForm;
use chaos_records::{Records, must_inspect};
use fd_program::{LoopRecord, Reference};
use fd_words::{Memory, Role};
use sqlite_items::Items;
use std::alloc::Global;

/// Of each FORALL the record of its latest execution with a range that isn't empty.
pub(crate) type Latest = Items<Option<LoopRecord>>;

/// The phases of a DISTRIBUTE that isn't a repeat.
pub(crate) fn moving_phases(form: StepForm) -> u64
    ensures count { result ≡ moving_count form }
    ensures few { result ≤ 5 }
{
    match form {
        StepForm::Regular(_) => 1,
        StepForm::Map(_) => 5,
    }
}

/// Notes a DISTRIBUTE, unless there is no such decomposition or it was moved too often.
pub(crate) fn note_move(records: &mut Records, decomposition: u32, form: StepForm)
    ensures { records.new ≡ moved_in records.old decomposition form }
{
    let is_there = (decomposition as usize) < records.layouts();
    if is_there && records.version(decomposition) < 4294967296 {
        let _ = records.note_move(decomposition, form);
    }
}

/// Notes that an execution of a FORALL with these references changes its targets.
pub fn note_writes(records: &mut Records, references: &[Reference], execution: u64)
    requires { execution < 2 ^ 32 }
    ensures { records.new ≡ fold (noted_reference execution) records.old references.now }
{
    for reference in references {
        note_target(records, reference.role, reference.array, execution);
    }
}

fn note_target(records: &mut Records, role: Role, array: u32, execution: u64)
    requires { execution < 2 ^ 32 }
    ensures { records.new ≡ (if is_target_of role then written_at execution records.old array else records.old) }
{
    if role.is_target() && u64::from(array) < records.arrays() {
        records.note_write(array, execution);
    }
}

/// No FORALL was executed.
pub(crate) fn none_latest(alloc: Global, sites: usize) -> Result<Latest, Memory>
    ensures { IfOk result (λ latest. latest ≡ replicate sites None) }
{
    let mut latest = Items::new(alloc);
    for _site in 0..sites {
        latest.push(None)?;
    }
    Ok(latest)
}

/// Whether a FORALL with this record now has to be inspected.
pub(crate) fn is_new(latest: &[Option<LoopRecord>], site: u32, present: &LoopRecord) -> bool
    ensures { result ≡ differs present.now (latest_at latest.now site) }
{
    match latest.get(site as usize) {
        Some(kept) => is_other(present, kept),
        None => true,
    }
}

fn is_other(present: &LoopRecord, kept: &Option<LoopRecord>) -> bool
    ensures { result ≡ differs present.now kept.now }
{
    must_inspect(present, kept.as_ref())
}

/// Keeps the record of a FORALL.
pub(crate) fn keep(latest: &mut Latest, site: u32, present: LoopRecord)
    ensures { latest.new ≡ slice_set latest.old site (Some present) }
{
    if (site as usize) < latest.len() {
        latest.set(site as usize, Some(present));
    }
}
