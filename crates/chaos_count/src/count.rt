ghost use Rattle.std.specs.Prelude.{◌≡◌, ◌+◌, ◌*◌, ◌<◌, ◌≤◌, ◌^◌, length, IfOk};
ghost use Rattle.fd_program.specs.Checks.{IsChecked};
ghost use Rattle.chaos_count.specs.Counting.{count_from, nothing_known};
ghost use Rattle.chaos_count.specs.Counted.{IsCount};

use crate::known::Known;
use crate::laws::counts_are_right;
use fd_program::{Checked, HomeRule, Step, Trace};
use fd_words::Memory;
use std::alloc::Global;

/// How many phases can still come as a run on this many nodes begins, if nothing is refused: those of the
/// steps, and one per OUTPUT array. The trace is to be the program's own. With 2^31 steps or more, or so
/// many OUTPUT arrays, it is 0. Linear in the steps, each by its references, arrays and decompositions.
/// Errors: memory.
pub fn phases_of(
    alloc: Global,
    checked: &Checked,
    trace: &Trace,
    nodes: u32,
    rule: HomeRule,
) -> Result<u64, Memory>
    requires { IsChecked checked.now }
    ensures count { IfOk result (IsCount checked.now nodes rule trace.now) }
    ensures few { IfOk result (λ n. n ≤ 17 * length trace.now + length checked.now.outputs) }
{
    counts_are_right();
    let steps = trace.len();
    let outputs = checked.outputs.len();
    if steps < 2147483648 && outputs < 2147483648 {
        Ok(count(alloc, checked, trace.as_slice(), rule)? + outputs as u64)
    } else {
        Ok(0)
    }
}

/// The phases of the steps.
fn count(alloc: Global, checked: &Checked, steps: &[Step], rule: HomeRule) -> Result<u64, Memory>
    requires checked { IsChecked checked.now }
    requires short { length steps.now < 2 ^ 31 }
    ensures count { IfOk result (λ n. n ≡ count_from 0 (nothing_known checked.now) checked.now rule steps.now) }
    ensures few { IfOk result (λ n. n ≤ 17 * length steps.now) }
{
    let mut known = Known::new(alloc, checked)?;
    let mut count = 0u64;
    for (execution, step) in steps.iter().enumerate() {
        count += known.take(alloc, checked, rule, step, execution as u64)?;
    }
    Ok(count)
}
