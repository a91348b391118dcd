use chaos_sched::Prepared;
use fd_program::LoopRecord;

/// What is kept of a FORALL: its latest record, and its inspection unless that was given up.
#[derive(Drop)]
pub struct Kept {
    pub latest: LoopRecord,
    pub prepared: Option<Prepared>,
}
