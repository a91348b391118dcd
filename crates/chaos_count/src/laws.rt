ghost use Rattle.chaos_count.specs.Counted.{CountsAreRight};

use chaos_records::{inspections_are_known, notes_keep_the_past, records_are_exact};

/// The phases that are told step by step are those of the run.
pub fn counts_are_right()
    ensures { CountsAreRight }
{
    notes_keep_the_past();
    records_are_exact();
    inspections_are_known()
}
